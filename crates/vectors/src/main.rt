// Runs the second program's cases (second/README.md, "The vectors file") through the functions that they are for, and
// compares a digest of all that these give. A wrong digest, and so a damaged file, shows as a difference.
#![tactic(auto)]

use rules::{Accepted, NO_BIT, Refusal, Session};
use stored::{Case, DIGEST, Runner, Tally, fill_buffer, mix, mix_number, mix_words, run_cases};

#[derive(Clone, Copy)]
enum Function {
    Reader,
    Normaliser,
    ToPci,
    FromPci,
    Measurer,
    Scenes,
}

const FUNCTIONS: usize = 6;

// The functions of a list, and those of a list in a mode, its argument.
static OF_A_LIST: [Function; 5] = [
    Function::Reader,
    Function::Normaliser,
    Function::ToPci,
    Function::FromPci,
    Function::Measurer,
];

static IN_A_MODE: [Function; 2] = [Function::Reader, Function::Normaliser];

static OF_A_SESSION: [Function; 1] = [Function::Scenes];

// Those of a case, by its tag; of an unknown tag none.
fn functions_of(tag: u32) -> &'static [Function] {
    match tag {
        0 => &OF_A_LIST,
        1 => &OF_A_SESSION,
        2 => &IN_A_MODE,
        _ => &[],
    }
}

// ---- what a case's functions are given

// The image's seed and length, and the lengths of the record, output and PCI buffers.
#[derive(Clone, Copy)]
struct Sizes {
    seed: u32,
    image: u32,
    records: u32,
    output: u32,
    pairs: u32,
}

impl From<[u32; 5]> for Sizes {
    fn from([seed, image, records, output, pairs]: [u32; 5]) -> Sizes {
        Sizes {
            seed,
            image,
            records,
            output,
            pairs,
        }
    }
}

impl Sizes {
    // The room of a function's buffer. Both directions of PCI writes have the same, and the measurer has none.
    fn room(&self, function: Function) -> u32 {
        match function {
            Function::Reader | Function::Scenes => self.records,
            Function::Normaliser => self.output,
            _ => self.pairs,
        }
    }
}

fn xorshift(seed: u32) -> u32 {
    let a = seed ^ ((seed % 524288) * 8192);
    let b = a ^ (a >> 17);
    b ^ ((b % 134217728) * 32)
}

// Seed 0 gives zeros.
fn fill_image(image: &mut [u32], seed: u32) {
    let mut x = seed;
    for word in image.iter_mut() {
        x = xorshift(x);
        *word = x;
    }
}

// ---- what they give

// The answer of a function that is not for several lists, as a session's.
fn single(answer: Result<Accepted, Refusal>) -> Session {
    match answer {
        Ok(a) => Session {
            commands: a.commands,
            records: a.records,
            words: a.words,
            lists: 0,
            end: Ok(a.position),
        },
        Err(refusal) => Session {
            commands: 0,
            records: 0,
            words: 0,
            lists: 0,
            end: Err(refusal),
        },
    }
}

// A verdict, and the position and the bit beside it.
fn verdict_of(end: Result<usize, Refusal>) -> (u32, usize, u32) {
    match end {
        Ok(position) => (0, position, NO_BIT),
        Err(refusal) => (refusal.reason.number(), refusal.word, refusal.reason.bit()),
    }
}

// The six numbers of an answer.
fn mix_answer(start: u32, s: &Session) -> u32 {
    let (verdict, position, bit) = verdict_of(s.end);
    let mut digest = mix(start, verdict);
    for number in [position, s.commands, s.records, s.words] {
        digest = mix_number(digest, number);
    }
    mix(digest, bit)
}

// A function on the case's words: a list, with its mode among the arguments, pairs, or with the arguments as a table the lists
// of a session.
fn call(function: Function, case: &Case<'_>, image: &mut [u32], buffer: &mut [u32]) -> Session {
    let words = case.words;
    let mode = case.arguments.first().copied().unwrap_or(0);
    match function {
        Function::Reader => single(swap::read(words, image, buffer, mode)),
        Function::Normaliser => single(swap::normalise(words, image, buffer, mode)),
        Function::ToPci => single(pci_writer::to_pci(words, image, buffer)),
        Function::FromPci => single(pci_reader::from_pci(words, image, buffer)),
        Function::Measurer => single(form::measure(words, image)),
        Function::Scenes => session::read_scenes(words, case.arguments, image, buffer),
    }
}

// ---- the program

// The image and the buffer that the functions are lent.
#[derive(Drop)]
struct Lent<'a> {
    image: &'a mut [u32],
    buffer: &'a mut [u32],
}

impl Lent<'_> {
    // The digest with what a function gives: the answer, with the lists applied of a session; the image where it is changed; the
    // buffer where there is one. A length that is too large is cut, so that the digest is wrong.
    fn digest(
        &mut self,
        function: Function,
        case: &Case<'_>,
        sizes: &Sizes,
        start: u32,
        tally: &mut Tally<FUNCTIONS>,
    ) -> u32 {
        fill_image(self.image, sizes.seed);
        fill_buffer(self.buffer);
        let words = self.image.len().min(sizes.image as usize);
        let image = &mut self.image[..words];
        let room = self.buffer.len().min(sizes.room(function) as usize);
        let buffer = &mut self.buffer[..room];
        let s = call(function, case, image, buffer);
        let (verdict, _, _) = verdict_of(s.end);
        tally.add(function as usize, verdict);
        let digest = mix_answer(start, &s);
        match function {
            Function::Reader => mix_words(mix_words(digest, image), buffer),
            Function::Scenes => mix_words(mix_words(mix_number(digest, s.lists), image), buffer),
            Function::Measurer => digest,
            _ => mix_words(digest, buffer),
        }
    }
}

impl Runner<5, FUNCTIONS> for Lent<'_> {
    fn run(&mut self, case: &Case<'_>, sizes: &[u32; 5], tally: &mut Tally<FUNCTIONS>) -> u32 {
        let sizes = Sizes::from(*sizes);
        let mut digest = DIGEST;
        for function in functions_of(case.tag) {
            digest = self.digest(*function, case, &sizes, digest, tally);
        }
        digest
    }
}

fn main(rt: HostRuntime) {
    let mut words = [0u32; 8200];
    let mut arguments = [0u32; 8200];
    let mut image = [0u32; 300];
    let mut buffer = [0u32; 8200];
    let mut lent = Lent {
        image: &mut image,
        buffer: &mut buffer,
    };
    let tally = run_cases(rt, &mut words, &mut arguments, &mut lent);
    tally.print(
        rt,
        "vectors",
        "reader normaliser to_pci from_pci measure read_scenes",
    );
}
