// A test of the listing. Standard input has inputs one behind the other, each after its length in two bytes, low first;
// their listings go to standard output.
#![tactic(auto)]

ghost use Rattle.std.specs.Prelude.{length};
ghost use Rattle.std.specs.Iterator.{at_most};

use std::io;

// The inputs that are left.
#[derive(Drop)]
struct Inputs<'a>(&'a [u8]);

impl<'a> Iterator for Inputs<'a> {
    type Item = &'a [u8];

    ghost remaining = { λ s. at_most (length s.0.now) };

    fn next(&mut self) -> Option<&'a [u8]> {
        let (size, rest) = self.0.split_first_chunk::<2>()?;
        let (input, rest) = rest.split_at_checked(u16::from_le_bytes(*size) as usize)?;
        self.0 = rest;
        Some(input)
    }
}

fn main(rt: HostRuntime) {
    let mut inputs = [0u8; 262144];
    let (n, _) = streams::read_full(&mut rt.stdin(), &mut inputs);
    for input in Inputs(&inputs[..n]) {
        let _ = printed::write(&mut io::writer(&rt), input);
    }
}
