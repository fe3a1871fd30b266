// What the tool makes of the bytes of two files, in lent buffers: a text, and the bytes to write.
#![tactic(auto)]

ghost use Rattle.std.specs.Prelude.{◌≡◌, List, [], ℕ, ◌≤◌, length};
ghost use Rattle.rules.specs.Returned.{answer_of, numbered};
ghost use Rattle.desk.specs.declared.Task.TheVariants as task;
ghost use Rattle.desk.specs.Desk.{make, perform, most, size_refusal, made};
ghost use Rattle.desk.specs.Sized.{unless};
ghost use Rattle.desk.specs.Makes.{Makes};
ghost use Rattle.desk.specs.Task.{IsNumbered};

use rules::{Accepted, Reason, Refusal};
use text::Writer;

#[derive(Clone, Copy, Debug, PartialEq, Eq)]
pub enum Task {
    Show,
    Image,
    Normalise,
    Pci,
    List,
}

// A number that no task has.
#[derive(Clone, Copy, Debug, PartialEq, Eq)]
pub struct UnknownTask(pub u8);

impl TryFrom<u8> for Task {
    type Error = UnknownTask;

    ghost try_from_gives = { IsNumbered };

    fn try_from(number: u8) -> Result<Task, UnknownTask> {
        match number {
            0 => Ok(Task::Show),
            1 => Ok(Task::Image),
            2 => Ok(Task::Normalise),
            3 => Ok(Task::Pci),
            4 => Ok(Task::List),
            _ => Err(UnknownTask(number)),
        }
    }
}

// The room for any text, and for the bytes of any words to write.
pub const TEXT: usize = 310000;

pub const WORDS: usize = 32768;

// The bytes of the verdict's text, of the whole text, and of what is to be written, if anything is.
// stays: sizes beside the lent buffers and no parts of them, since `Makes` speaks of the buffers' other bytes too
#[derive(Clone, Copy)]
pub struct Sizes {
    pub verdict: usize,
    pub text: usize,
    pub out: Option<usize>,
}

// ---- a text and bytes

// The text of a refusal, of a list or of pairs and the list that they carry, with an image of some bytes.
fn refuse(f: Refusal, list: &[u32], pairs: &[u32], bytes: usize, text: &mut [u8]) -> Sizes
    ensures { (out : List ℕ) → Makes (make (answer_of (Err f)) list.now pairs.now bytes []) text.old out text.new out result }
{
    let size = verdict::put_verdict(text, Err(f).into(), list, pairs, bytes);
    Sizes {
        verdict: size,
        text: size,
        out: None,
    }
}

// The text of an acceptance, and the bytes of the words to write.
fn accept(
    a: Accepted,
    list: &[u32],
    pairs: &[u32],
    words: &[u32],
    text: &mut [u8],
    out: &mut [u8; WORDS],
) -> Sizes
    requires { length words.now ≤ 8192 }
    ensures { Makes (make (answer_of (Ok a)) list.now pairs.now 1024 words.now) text.old out.old text.new out.new result }
{
    let verdict = verdict::put_verdict(text, Ok(a).into(), list, pairs, 1024);
    endian::store(words, out);
    let mut writer = Writer::new(text, verdict);
    format::put_format(&mut writer, b"", b"written %d words\n", &[words.len()]);
    Sizes {
        verdict,
        text: writer.position(),
        out: Some(4 * words.len()),
    }
}

// ---- tasks
// stays: a list, an image and two buffers, of which `run` is lent two and makes two: a struct of them would be made for one
// call and taken apart in each task

// At most 310,000 bytes of text, and none to write.
fn show(list: &[u32], image: &[u32; 256], text: &mut [u8]) -> Sizes
    ensures { (out : List ℕ) → Makes (perform task.Show list.now image.now) text.old out text.new out result }
{
    let size = show::put_show(text, list, image);
    Sizes {
        verdict: size,
        text: size,
        out: None,
    }
}

fn image_after(list: &[u32], image: &[u32; 256], text: &mut [u8], out: &mut [u8; WORDS]) -> Sizes
    ensures { Makes (perform task.Image list.now image.now) text.old out.old text.new out.new result }
{
    let mut after = *image;
    let mut records = [0u32; 16384];
    match show::read(list, &mut after, &mut records) {
        Ok(a) => accept(a, list, &[], &after, text, out),
        Err(f) => refuse(f, list, &[], 1024, text),
    }
}

// stays: it and `to_pci` differ in their calls too; with the call as a closure the clauses would name what it writes by `F.post`
fn normalise(list: &[u32], image: &[u32; 256], text: &mut [u8], out: &mut [u8; WORDS]) -> Sizes
    ensures { Makes (perform task.Normalise list.now image.now) text.old out.old text.new out.new result }
{
    let mut form = [0u32; 4096];
    match form::normalise(list, image, &mut form) {
        Ok(a) => accept(a, list, &[], &form[..a.words], text, out),
        Err(f) => refuse(f, list, &[], 1024, text),
    }
}

fn to_pci(list: &[u32], image: &[u32; 256], text: &mut [u8], out: &mut [u8; WORDS]) -> Sizes
    ensures { Makes (perform task.Pci list.now image.now) text.old out.old text.new out.new result }
{
    let mut pairs = [0u32; 8192];
    match pci_writer::to_pci(list, image, &mut pairs) {
        Ok(a) => accept(a, list, &[], &pairs[..a.words], text, out),
        Err(f) => refuse(f, list, &[], 1024, text),
    }
}

fn from_pci(pairs: &[u32], image: &[u32; 256], text: &mut [u8], out: &mut [u8; WORDS]) -> Sizes
    requires { length pairs.now ≤ 8193 }
    ensures { Makes (perform task.List pairs.now image.now) text.old out.old text.new out.new result }
{
    let mut carried = [0u32; 4096];
    pci_reader::write_values(pairs, &mut carried);
    let carried = &carried[..pairs.len() / 2];
    let mut list = [0u32; 4096];
    match pci_reader::from_pci(pairs, image, &mut list) {
        Ok(a) => accept(a, carried, pairs, &list[..a.words], text, out),
        Err(f) => refuse(f, carried, pairs, 1024, text),
    }
}

// ---- the whole

fn perform(
    task: Task,
    words: &[u32],
    image: &[u32; 256],
    text: &mut [u8],
    out: &mut [u8; WORDS],
) -> Sizes
    requires { length words.now ≤ 8193 }
    ensures { Makes (perform task words.now image.now) text.old out.old text.new out.new result }
{
    match task {
        Task::Show => show(words, image, text),
        Task::Image => image_after(words, image, text, out),
        Task::Normalise => normalise(words, image, text, out),
        Task::Pci => to_pci(words, image, text, out),
        Task::List => from_pci(words, image, text, out),
    }
}

// The bytes of a list, or of pairs, that are taken at most.
pub fn most(task: Task) -> usize
    ensures { (result ≡ most task) × (result ≤ 32775) }
{
    match task {
        Task::List => 32775,
        _ => 16384,
    }
}

// Refusals 1, 12 and 2, by the sizes of the files.
#[tactic(auto, unfolding(crate::specs::Desk::size_refusal))]
fn check_sizes(limit: usize, input: usize, image: usize) -> Result<(), Refusal>
    ensures { numbered result ≡ unless (size_refusal limit input image) }
{
    if limit < input {
        return Err(Refusal {
            reason: Reason::TooManyWords,
            word: 4096,
        });
    }
    if input % 4 != 0 {
        return Err(Refusal {
            reason: Reason::BrokenWord,
            word: input / 4,
        });
    }
    if image != 1024 {
        return Err(Refusal {
            reason: Reason::ImageSize,
            word: 0,
        });
    }
    Ok(())
}

// What a task makes of the bytes of a list, or of pairs, and of an image: at most 310,000 bytes of text.
pub fn run(task: Task, input: &[u8], image: &[u8], text: &mut [u8], out: &mut [u8; WORDS]) -> Sizes
    ensures { Makes (made task input.now image.now) text.old out.old text.new out.new result }
{
    if let Err(f) = check_sizes(most(task), input.len(), image.len()) {
        return refuse(f, &[], &[], image.len(), text);
    }
    let mut words = [0u32; 8193];
    endian::load(input, &mut words);
    let mut registers = [0u32; 256];
    endian::load(image, &mut registers);
    perform(task, &words[..input.len() / 4], &registers, text, out)
}
