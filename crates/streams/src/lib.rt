// What the programs share of input and errors: a buffer filled from a reader, and a line that says what failed.
#![tactic(auto)]

ghost use Rattle.std.specs.Prelude.{◌<◌, ◌≤◌, length, take, OnOk};
ghost use Rattle.std.specs.Io.KnownBytes.{Consumes, IsAtEnd};

use std::io;

// Reads until the buffer is full, the input ends or a read fails: how many bytes it put in front, and how it ended.
// stays: a number beside the buffer, since a failed read has bytes too, and `bytes` and `within` speak of the buffer
pub fn read_full<R: io::Read>(input: &mut R, buffer: &mut [u8]) -> (usize, io::Result<()>)
    ensures within { result.0 ≤ length buffer.new }
    ensures bytes { Consumes (R.remaining input.old) (R.remaining input.new) (take result.0 buffer.new) }
    ensures end { OnOk result.1 (result.0 < length buffer.new → IsAtEnd (R.remaining input.new)) }
{
    let mut n = 0;
    // stays: n counts the bytes that each read gives, and is no index that goes up by one
    while n < buffer.len() {
        match input.read(&mut buffer[n..]) {
            Ok(0) => break,
            Ok(more) => n += more,
            Err(e) => return (n, Err(e)),
        }
    }
    (n, Ok(()))
}

// The system's words for an error, without the number that std puts behind them.
fn words_of(text: &str) -> &str {
    match text.split_once(" (os error ") {
        Some((words, _)) => words,
        None => text,
    }
}

// Writes a line to standard error: what failed, as the caller names it, a colon and the system's words.
// stays: `write!` takes text, and a file's name need be none
pub fn fail(rt: HostRuntime, what: &[u8], e: io::Error) {
    let error = rt.stderr();
    let text = e.to_string(rt.alloc());
    let reason = match &text {
        Ok(text) => words_of(text.as_str()),
        Err(_) => "Cannot allocate memory",
    };
    let _ = error.write_all(what);
    let _ = error.write_all(b": ");
    let _ = error.write_all(reason.as_bytes());
    let _ = error.write_all(b"\n");
}
