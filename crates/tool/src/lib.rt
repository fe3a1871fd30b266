// The tool's arguments and files: all that no contract can speak of. What is made of them is made by the crate `desk`.
#![tactic(auto)]

mod file;
mod help;

use desk::Task;
use file::{Told, fail, is_standard, put_error, say};
use std::env::{Env, FillError};

// ---- a task

#[derive(Clone, Copy, Debug, PartialEq, Eq)]
enum Stream {
    Output,
    Error,
}

fn tell(rt: HostRuntime, to: Stream, text: &[u8]) {
    let told = match to {
        Stream::Output => rt.stdout().write_all(text),
        Stream::Error => rt.stderr().write_all(text),
    };
    if let Err(e) = told {
        fail(rt, b"standard output", e);
    }
}

// Where the text goes: to standard error where the words go to standard output.
fn channel(out: Option<&[u8]>) -> Stream {
    if out.is_some_and(is_standard) {
        return Stream::Error;
    }
    Stream::Output
}

fn write(rt: HostRuntime, out: &[u8], bytes: &[u8]) -> Result<(), Told> {
    if is_standard(out) {
        return rt
            .write_all(bytes)
            .map_err(|e| fail(rt, b"standard output", e));
    }
    file::save(rt, out, bytes)
}

// Puts the words where they belong, if there are any, and tells the verdict, and that they were written.
fn put(
    rt: HostRuntime,
    out: Option<&[u8]>,
    verdict: &[u8],
    text: &[u8],
    bytes: Option<&[u8]>,
) -> Result<(), Told> {
    let (Some(name), Some(bytes)) = (out, bytes) else {
        tell(rt, channel(out), text);
        return Err(Told);
    };
    let written = write(rt, name, bytes);
    let text = if written.is_ok() { text } else { verdict };
    tell(rt, channel(out), text);
    written
}

// The image first: where it cannot be read, no list is. It fails too where no words are written.
fn make(
    rt: HostRuntime,
    task: Task,
    list: &[u8],
    image: &[u8],
    out: Option<&[u8]>,
) -> Result<(), Told> {
    if is_standard(list) && is_standard(image) {
        return Err(say(rt, b"standard input", b" can be read only once"));
    }
    let mut registers = [0u8; 65536];
    let registers = file::read_image(rt, image, &mut registers)?;
    let mut input = [0u8; 65536];
    // one byte more than is taken
    let input = file::read(rt, list, &mut input[..desk::most(task) + 1])?;
    let mut text = [0u8; desk::TEXT];
    let mut words = [0u8; desk::WORDS];
    let made = desk::run(task, input, registers, &mut text, &mut words);
    let bytes = match made.out {
        Some(n) => Some(&words[..n]),
        None => None,
    };
    put(rt, out, &text[..made.verdict], &text[..made.text], bytes)
}

// ---- arguments

// An argument, at the front of a buffer, if it is not left out. One that is not whole there is told.
fn argument(rt: HostRuntime, i: usize, buffer: &mut [u8; 4096]) -> Result<Option<&[u8]>, Told> {
    match rt.arg(i, buffer) {
        Ok(n) => Ok(Some(&buffer[..n])),
        Err(FillError::NotPresent) => Ok(None),
        Err(FillError::TooLong) => Err(say(rt, b"argument", b": File name too long")),
    }
}

// A task with the names of its list, of its image, and of where the words go, which `show` has not.
fn perform(rt: HostRuntime, task: Task) -> Result<(), Told> {
    let mut list = [0u8; 4096];
    let list = argument(rt, 2, &mut list)?.unwrap_or(b"");
    let mut image = [0u8; 4096];
    let image = argument(rt, 3, &mut image)?.unwrap_or(b"zero");
    let mut out = [0u8; 4096];
    let out = argument(rt, 4, &mut out)?;
    let done = make(rt, task, list, image, out);
    if let (Err(Told), Some(name)) = (done, out)
        && !is_standard(name)
    {
        say(rt, name, b": not written");
    }
    done
}

#[derive(Clone, Copy, Debug, PartialEq, Eq)]
enum Word {
    Task(Task),
    Help,
}

// A word that the tool does not have.
#[derive(Clone, Copy, Debug, PartialEq, Eq)]
struct UnknownWord;

impl TryFrom<&[u8]> for Word {
    type Error = UnknownWord;

    fn try_from(word: &[u8]) -> Result<Word, UnknownWord> {
        match word {
            b"show" => Ok(Word::Task(Task::Show)),
            b"image" => Ok(Word::Task(Task::Image)),
            b"normalise" => Ok(Word::Task(Task::Normalise)),
            b"pci" => Ok(Word::Task(Task::Pci)),
            b"list" => Ok(Word::Task(Task::List)),
            b"help" => Ok(Word::Help),
            _ => Err(UnknownWord),
        }
    }
}

// Fails where there are not as many arguments as a word takes.
fn counted(rt: HostRuntime, count: usize, least: usize, most: usize) -> Result<(), Told> {
    if count < least {
        return Err(say(rt, b"too few arguments", b", see xp10 help"));
    }
    if most < count {
        return Err(say(rt, b"too many arguments", b", see xp10 help"));
    }
    Ok(())
}

fn dispatch(rt: HostRuntime, word: Word, count: usize) -> Result<(), Told> {
    match word {
        Word::Task(task) => {
            let (least, most) = if task == Task::Show { (3, 4) } else { (5, 5) };
            counted(rt, count, least, most)?;
            perform(rt, task)
        }
        Word::Help => {
            counted(rt, count, 2, 2)?;
            help::help(rt)
        }
    }
}

// The number of arguments, the program's name among them; 6 where there are more.
fn argument_count(rt: HostRuntime) -> usize {
    for i in 0..6 {
        if let Err(FillError::NotPresent) = rt.arg(i, &mut []) {
            return i;
        }
    }
    6
}

fn try_run(rt: HostRuntime) -> Result<(), Told> {
    let count = argument_count(rt);
    counted(rt, count, 2, 5)?;
    let mut name = [0u8; 4096];
    let name = argument(rt, 1, &mut name)?.unwrap_or(b"");
    let Ok(word) = Word::try_from(name) else {
        put_error(rt, b"xp10: unknown word ");
        put_error(rt, name);
        put_error(rt, b", see xp10 help\n");
        return Err(Told);
    };
    dispatch(rt, word, count)
}

// What fails is said where it does. The exit status is 0 all the same.
pub fn run(rt: HostRuntime) {
    let _ = try_run(rt);
}
