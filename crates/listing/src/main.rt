// Prints the listing of the command list on standard input. A read or a write that fails is reported on standard error;
// a failed read ends the input.
#![tactic(auto)]

use std::io;
use streams::{fail, read_full};

fn main(rt: HostRuntime) {
    // One byte more than a list can have.
    let mut input = [0u8; 16385];
    let (n, end) = read_full(&mut rt.stdin(), &mut input);
    if let Err(e) = end {
        fail(rt, b"listing: standard input", e);
    }
    if let Err(e) = printed::write(&mut io::writer(&rt), &input[..n]) {
        fail(rt, b"listing: standard output", e);
    }
}
