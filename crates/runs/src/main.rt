// A test of what the tool makes. Standard input has cases one behind the other: a task in one byte (0 show, 1 image,
// 2 normalise, 3 pci, 4 list), the length of a list or of pairs and the length of an image in two bytes each, low first, and
// their bytes. The text and the words of each go to standard output.
#![tactic(auto)]

ghost use Rattle.std.specs.Prelude.{length};
ghost use Rattle.std.specs.Iterator.{at_most};

use desk::Task;

#[derive(Clone, Copy)]
struct Case<'a> {
    task: Task,
    input: &'a [u8],
    image: &'a [u8],
}

// The cases that are left.
#[derive(Drop)]
struct Cases<'a>(&'a [u8]);

impl<'a> Iterator for Cases<'a> {
    type Item = Case<'a>;

    ghost remaining = { λ s. at_most (length s.0.now) };

    fn next(&mut self) -> Option<Case<'a>> {
        let ([number, n0, n1, m0, m1], rest) = self.0.split_first_chunk::<5>()?;
        let (input, rest) = rest.split_at_checked(u16::from_le_bytes([*n0, *n1]) as usize)?;
        let (image, rest) = rest.split_at_checked(u16::from_le_bytes([*m0, *m1]) as usize)?;
        self.0 = rest;
        let task = Task::try_from(*number).unwrap_or(Task::List);
        Some(Case { task, input, image })
    }
}

fn run_one(rt: HostRuntime, case: Case) {
    let mut text = [0u8; desk::TEXT];
    let mut words = [0u8; desk::WORDS];
    let made = desk::run(case.task, case.input, case.image, &mut text, &mut words);
    let _ = rt.write_all(&text[..made.text]);
    if let Some(n) = made.out {
        let _ = rt.write_all(&words[..n]);
    }
}

fn main(rt: HostRuntime) {
    let mut cases = [0u8; 400000];
    let (n, _) = streams::read_full(&mut rt.stdin(), &mut cases);
    for case in Cases(&cases[..n]) {
        run_one(rt, case);
    }
}
