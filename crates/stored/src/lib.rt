// What the programs that run stored cases share: digests of what a call gives, filled buffers, cases from standard input, and
// tallies of verdicts.
#![tactic(auto)]

ghost use Rattle.std.specs.Prelude.{◌≡◌, ℕ, ◌/◌, ◌%◌, ◌<◌, ◌≤◌, cond, min, List, length};
ghost use Rattle.std.specs.Io.KnownBytes.{Consumes};
ghost use Rattle.std.proofs.lemmas.List.Edits.{sets};
ghost use Rattle.endian.specs.Words.{words_of};
ghost use Rattle.stored.specs.Digest.{mixed, mixed_all, counting};
ghost use Rattle.stored.specs.Counts.{up, one_more, none};

use std::io::Read;

// ---- digests

pub const DIGEST: u32 = 0x811C9DC5;

pub fn mix(digest: u32, word: u32) -> u32
    ensures { result ≡ mixed digest word }
{
    (((digest as u64) * 16777619 + (word as u64)) % 4294967296) as u32
}

pub fn mix_number(digest: u32, n: usize) -> u32
    ensures { result ≡ mixed digest (n % 4294967296) }
{
    mix(digest, (n % 4294967296) as u32)
}

pub fn mix_words(start: u32, words: &[u32]) -> u32
    ensures { result ≡ mixed_all start words.now }
{
    let mut digest = start;
    for word in words {
        digest = mix(digest, *word);
    }
    digest
}

// ---- buffers

pub fn fill_buffer(buffer: &mut [u32])
    ensures { buffer.new ≡ counting 2768240640 (length buffer.old) }
{
    let mut w = 0xA5000000u32;
    for word in buffer.iter_mut() {
        *word = w;
        w = w.wrapping_add(1);
    }
}

// ---- input

// The next words of an input, by way of a buffer for their bytes: those of the bytes that it loses. A read that fails ends
// the input.
fn load_words<R: Read>(input: &mut R, bytes: &mut [u8], words: &mut [u32]) -> usize
    ensures room { result ≤ length bytes.old / 4 }
    ensures value { (read : List ℕ) × Consumes (R.remaining input.old) (R.remaining input.new) read
        × (words.new ≡ sets words.old 0 (words_of read)) × (result ≡ length read / 4) }
{
    let (n, _) = streams::read_full(input, bytes);
    endian::load(&bytes[..n], words);
    n / 4
}

// The next words of standard input, at most 8,200. What was read no contract can say, only that it is no more than there is
// room for.
pub fn next_words(rt: HostRuntime, words: &mut [u32]) -> usize
    ensures { result ≤ length words.old }
{
    let mut bytes = [0u8; 32800];
    let n = 4 * words.len().min(8200);
    load_words(&mut rt.stdin(), &mut bytes[..n], words)
}

// The front of a buffer, filled with the next words of standard input. A length that is too large is cut.
fn next_part(rt: HostRuntime, buffer: &mut [u32], words: u32) -> &[u32]
    ensures { length result.now ≡ min (length buffer.old) words }
{
    let n = buffer.len().min(words as usize);
    next_words(rt, &mut buffer[..n]);
    &buffer[..n]
}

// ---- tallies

// The verdicts that are told apart; the last stands for all above.
const VERDICTS: usize = 33;

// How often each function gave each verdict, how many cases there were, and how many of them gave another digest.
#[derive(Drop)]
pub struct Tally<const FUNCTIONS: usize> {
    verdicts: [[u32; VERDICTS]; FUNCTIONS],
    cases: u32,
    differences: u32,
}

impl<const FUNCTIONS: usize> Tally<FUNCTIONS> {
    pub fn new() -> Self
        ensures { (result.verdicts ≡ none FUNCTIONS) × (result.cases ≡ 0) × (result.differences ≡ 0) }
    {
        Tally {
            verdicts: [[0; VERDICTS]; FUNCTIONS],
            cases: 0,
            differences: 0,
        }
    }

    pub fn add(&mut self, function: usize, verdict: u32)
        requires { function < FUNCTIONS }
        ensures verdict { self.new.verdicts ≡ one_more self.old.verdicts function (min 32 verdict) }
        ensures others { (self.new.cases ≡ self.old.cases) × (self.new.differences ≡ self.old.differences) }
    {
        let column = (VERDICTS - 1).min(verdict as usize);
        let count = self.verdicts[function][column];
        self.verdicts[function][column] = count.wrapping_add(1);
    }

    // A case that gave the same digest, or another.
    pub fn add_case(&mut self, same: bool)
        ensures cases { self.new.cases ≡ up self.old.cases }
        ensures differences { self.new.differences ≡ cond same self.old.differences (up self.old.differences) }
        ensures others { self.new.verdicts ≡ self.old.verdicts }
    {
        self.cases = self.cases.wrapping_add(1);
        if !same {
            self.differences = self.differences.wrapping_add(1);
        }
    }

    // Of what is written no contract can speak; what cannot be written is left out.
    pub fn print(&self, rt: HostRuntime, cases: &str, functions: &str) {
        let _ = println!(rt; "{cases} {}", self.cases);
        let _ = println!(rt; "differences {}", self.differences);
        let _ = println!(rt; "verdict {functions}");
        for verdict in 0..VERDICTS {
            let _ = print!(rt; "{verdict}");
            for function in &self.verdicts {
                let _ = print!(rt; " {}", function[verdict]);
            }
            let _ = println!(rt);
        }
    }
}

// ---- cases

// The words in front of a case: its tag, how many words and arguments it has, the sizes that its functions are given, and the
// digest of all that they give.
#[derive(Drop)]
struct Front<const SIZES: usize> {
    tag: u32,
    words: u32,
    arguments: u32,
    sizes: [u32; SIZES],
    digest: u32,
}

// The front of the next case, where there is one. It is read at once, since each read has a buffer of its own.
fn next_front<const SIZES: usize>(rt: HostRuntime) -> Option<Front<SIZES>>
    requires { SIZES ≤ 256 }
{
    let mut buffer = [0u32; 260];
    let front = &mut buffer[..SIZES + 4];
    if next_words(rt, front) < front.len() {
        return None;
    }
    let [tag, words, arguments, sizes @ .., digest] = &*front else {
        return None;
    };
    Some(Front {
        tag: *tag,
        words: *words,
        arguments: *arguments,
        sizes: <[u32; SIZES]>::try_from(sizes).ok()?,
        digest: *digest,
    })
}

#[derive(Clone, Copy)]
pub struct Case<'a> {
    pub tag: u32,
    pub words: &'a [u32],
    pub arguments: &'a [u32],
}

// What a program runs a case by: it counts the verdicts of the case's functions, and gives the digest of all that they give.
pub trait Runner<const SIZES: usize, const FUNCTIONS: usize> {
    fn run(&mut self, case: &Case<'_>, sizes: &[u32; SIZES], tally: &mut Tally<FUNCTIONS>) -> u32;
}

// Runs the cases of standard input, at most 65,536, in buffers for their words and arguments. Of one that is longer than its
// buffer the digest is wrong. Of what standard input has, and so of the tally, no contract can speak.
pub fn run_cases<const SIZES: usize, const FUNCTIONS: usize, R: Runner<SIZES, FUNCTIONS>>(
    rt: HostRuntime,
    words: &mut [u32],
    arguments: &mut [u32],
    runner: &mut R,
) -> Tally<FUNCTIONS>
    requires sizes { SIZES ≤ 256 }
    requires functions { FUNCTIONS ≤ 256 }
{
    let mut tally = Tally::new();
    for _ in 0..65536 {
        let Some(front) = next_front::<SIZES>(rt) else {
            break;
        };
        let case = Case {
            tag: front.tag,
            words: next_part(rt, words, front.words),
            arguments: next_part(rt, arguments, front.arguments),
        };
        let digest = runner.run(&case, &front.sizes, &mut tally);
        tally.add_case(digest == front.digest);
    }
    tally
}
