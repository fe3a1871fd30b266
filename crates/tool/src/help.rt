// The tool's words, and the refusals.
use crate::file::{Told, fail};
use std::io;

const WORDS: &str = "xp10 reads the command lists of Volari XP10 boards before the board does.

xp10 show LIST [IMAGE]           the verdict; what the list sets and draws; its words, and those of its normal form
xp10 image LIST IMAGE OUT        the image after the list
xp10 normalise LIST IMAGE OUT    the normal form: the list with its repeated settings taken out
xp10 pci LIST IMAGE OUT          the PCI writes: for each word of the list an address and a value
xp10 list PAIRS IMAGE OUT        the list of PCI writes
xp10 help                        this

Files hold little-endian 32-bit words. LIST has at most 4,096, IMAGE has 256, PAIRS has two for each word of the list. A name
of - is standard input or output; an image left out, or zero, is an image of zeros. OUT is written whole or not at all.

The first word on standard output is accepted or refused, and nothing is there where no list was read. Where OUT is -, the words
alone go to standard output, and the verdict to standard error. What fails is said on standard error.

A refusal tells its number, the position of a word, the word, the command that it stands in, and why. Positions count words
from 0; of PCI writes they count pairs.

";

// The words, and then the refusals.
fn print(rt: HostRuntime) -> io::Result<()> {
    rt.write_all(WORDS.as_bytes())?;
    rt.write_all(names::refusals())
}

pub fn help(rt: HostRuntime) -> Result<(), Told> {
    print(rt).map_err(|e| fail(rt, b"standard output", e))
}
