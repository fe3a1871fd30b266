// The listing of the bytes of a list, written to a stream.
#![tactic(auto)]

ghost use Rattle.std.specs.Prelude.{OnOk, replicate};
ghost use Rattle.std.specs.Io.KnownBytes.{Appends};
ghost use Rattle.report.specs.Listing.{read_bytes, text_of};

use std::io;

// Writes the listing, from an image of zeros. No listing is longer than 82,003 bytes.
pub fn write<W: io::Write>(out: &mut W, input: &[u8]) -> io::Result<()>
    ensures { OnOk result (Appends (W.contents out.old) (W.contents out.new) (text_of (read_bytes input.now (replicate 256 0) (replicate 16384 0)))) }
{
    let mut words = [0u32; 4096];
    let mut image = [0u32; 256];
    let mut records = [0u32; 16384];
    let mut text = [0u8; 82003];
    let size = report::listing(input, &mut words, &mut image, &mut records, &mut text);
    out.write_all(&text[..size])
}
