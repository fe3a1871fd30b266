// Files by name, and lines on standard error.
ghost use Rattle.std.specs.Prelude.{◌≡◌, ◌<◌, ◌≤◌, ◌↔◌, IsTrue, IsOkAnd, IfOk, length, replicate, codes};

use std::fs::{File, OpenOptions};
use std::io::{Read, Write};
use std::random::RandomSource;
use std::{fs, io};
use streams::read_full;
use text::Writer;

// ---- what is said

// Nothing was written, and it has been told why: by a line on standard error, or by the verdict.
#[derive(Clone, Copy, Debug, PartialEq, Eq)]
pub struct Told;

// Bytes on standard error. Where they cannot be written, nobody can be told.
pub fn put_error(rt: HostRuntime, bytes: &[u8]) {
    let _ = Print::write_all(&rt.stderr(), bytes);
}

// A line with a name in it.
// stays: `eprintln!` takes text, and a name need be none
pub fn say(rt: HostRuntime, name: &[u8], what: &[u8]) -> Told {
    put_error(rt, b"xp10: ");
    put_error(rt, name);
    put_error(rt, what);
    put_error(rt, b"\n");
    Told
}

// A line with the system's reason for a failure.
pub fn fail(rt: HostRuntime, name: &[u8], e: io::Error) -> Told {
    put_error(rt, b"xp10: ");
    streams::fail(rt, name, e);
    Told
}

// ---- names

// The name of standard input and output.
const STANDARD: &[u8] = b"-";

pub fn is_standard(name: &[u8]) -> bool
    ensures { IsTrue result ↔ (name.now ≡ codes "-") }
{
    name == STANDARD
}

// The name of an image of zeros.
const ZERO: &[u8] = b"zero";

fn is_zero(name: &[u8]) -> bool
    ensures { IsTrue result ↔ (name.now ≡ codes "zero") }
{
    name == ZERO
}

// What a system says that has no file by a name which is no text.
const NO_TEXT: i32 = 84;

// A name as the text that std's files go by.
fn path_of(name: &[u8]) -> io::Result<&str> {
    str::from_utf8(name).map_err(|_| io::Error::from_raw_os_error(NO_TEXT))
}

// ---- reading

// Reads until the buffer is full or the input ends, and answers the bytes that came.
fn read_all<'a, R: Read>(
    rt: HostRuntime,
    input: &mut R,
    name: &[u8],
    buffer: &'a mut [u8],
) -> Result<&'a [u8], Told>
    ensures { IfOk result (λ bytes. length bytes.now ≤ length buffer.old) }
{
    let (n, end) = read_full(input, buffer);
    end.map_err(|e| fail(rt, name, e))?;
    Ok(&buffer[..n])
}

fn open(rt: HostRuntime, name: &[u8]) -> io::Result<File> {
    File::open(&rt, path_of(name)?)
}

// A file, or standard input, as far as the buffer has room for it.
pub fn read<'a>(rt: HostRuntime, name: &[u8], buffer: &'a mut [u8]) -> Result<&'a [u8], Told>
    ensures { IfOk result (λ bytes. length bytes.now ≤ length buffer.old) }
{
    if is_standard(name) {
        return read_all(rt, &mut rt.stdin(), b"standard input", buffer);
    }
    let mut file = open(rt, name).map_err(|e| fail(rt, name, e))?;
    read_all(rt, &mut file, name, buffer)
}

static ZERO_IMAGE: [u8; 1024] = [0; 1024];

// The same; `zero` is an image of zeros.
pub fn read_image<'a>(rt: HostRuntime, name: &[u8], buffer: &'a mut [u8]) -> Result<&'a [u8], Told>
    ensures within { IfOk result (λ image. 1024 ≤ length buffer.old → length image.now ≤ length buffer.old) }
    ensures zero { name.now ≡ codes "zero" → IsOkAnd result (λ image. image.now ≡ replicate 1024 0) }
{
    if is_zero(name) {
        return Ok(&ZERO_IMAGE);
    }
    read(rt, name, buffer)
}

// ---- writing

// The name of a temporary file beside a file: the name, eight random digits, and `tmp`.
fn temporary<'a>(rt: HostRuntime, name: &[u8], path: &'a mut [u8]) -> &'a [u8]
    requires name { length name.now < 4096 }
    requires room { 4200 ≤ length path.old }
{
    let mut key = [0u8; 4];
    let _ = rt.fill_bytes(&mut key);
    let digits = [
        key[0] as usize,
        key[1] as usize,
        key[2] as usize,
        key[3] as usize,
    ];
    let mut writer = Writer::new(path, 0);
    writer.put_all(name);
    format::put_format(&mut writer, b"", b".%2%2%2%2.tmp", &digits);
    let end = writer.position();
    &path[..end]
}

// Makes a file where there is none.
fn create(rt: HostRuntime, path: &str) -> io::Result<File> {
    OpenOptions::new()
        .write(true)
        .create_new(true)
        .open(&rt, path)
}

// All bytes, on the disk.
fn write(mut file: File, bytes: &[u8]) -> io::Result<()> {
    file.write_all(bytes)?;
    file.sync_all()
}

// Makes a new file of the bytes and puts it in the place of a name, or leaves nothing behind.
fn replace(rt: HostRuntime, path: &[u8], name: &[u8], bytes: &[u8]) -> io::Result<()> {
    let path = path_of(path)?;
    let name = path_of(name)?;
    let file = create(rt, path)?;
    let result = write(file, bytes).and_then(|()| fs::rename(&rt, path, name));
    if result.is_err() {
        let _ = fs::remove_file(&rt, path);
    }
    result
}

// Writes a file whole or not at all. A device is no file to put another in the place of.
pub fn save(rt: HostRuntime, name: &[u8], bytes: &[u8]) -> Result<(), Told> {
    if name.starts_with(b"/dev/") {
        return Err(say(rt, name, b": not a file, use - for standard output"));
    }
    if 4096 <= name.len() {
        return Err(say(rt, name, b": File name too long"));
    }
    let mut path = [0u8; 4200];
    let path = temporary(rt, name, &mut path);
    replace(rt, path, name, bytes).map_err(|e| fail(rt, name, e))
}
