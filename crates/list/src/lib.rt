// A whole list: the cursor that walks it, and the verdict.
#![tactic(auto)]

ghost use Rattle.std.specs.Prelude.{ℕ, List, ◌≡◌, refl, cond, Ok, ◌+◌, ◌<◌, ◌≤◌, length};
ghost use Rattle.std.proofs.Math.Option.{Option, none};
ghost use Rattle.rules.specs.Verdict.{Refusal as RulesRefusal};
ghost use Rattle.rules.specs.Walk.{parse};
ghost use Rattle.rules.specs.Values.{refusal};
ghost use Rattle.rules.specs.Answer.{accepted_answer};
ghost use Rattle.rules.specs.Returned.{numbered_refusal, numbered, answer_of};
ghost use Rattle.command.specs.View.{Passed, InPlace};
ghost use Rattle.list.specs.View.{origin, after, counts_of, ordered, taken, Stepped, Walks, or_else, walk_words, sized_of, walked_of, Counted, Addressable, InsideAfter};

use command::Command;
use masks::Tables;
use rules::{Accepted, Reason, Refusal};
use source::{List, Source};

// Where the walk stands: the position and the counts after the commands passed, and whether the last was a surface base.
// `Counted` stays in contracts: the definitions `origin`, `after` and `behind` make cursors, and each would owe a ghost field its proof
#[derive(Clone, Copy)]
pub struct Cursor {
    pub at: usize,
    pub commands: usize,
    pub records: usize,
    pub flip: bool,
}

// The commands and the records of an accepted list.
#[derive(Clone, Copy)]
pub struct Counts {
    pub commands: usize,
    pub records: usize,
}

// A work command has a record.
fn record_count(setting: bool) -> usize
    ensures { result ≡ cond setting 0 1 }
{
    if setting { 0 } else { 1 }
}

impl Cursor {
    pub fn start() -> Self
        ensures { result ≡ origin }
    {
        Cursor {
            at: 0,
            commands: 0,
            records: 0,
            flip: false,
        }
    }

    pub fn counts(self) -> Counts
        ensures { result ≡ counts_of self }
    {
        Counts {
            commands: self.commands,
            records: self.records,
        }
    }

    fn after(self, k: Command) -> Self
        requires { Counted self × Addressable (self.at + k.words) }
        ensures { result ≡ after self k }
    {
        let work = record_count(k.setting);
        Cursor {
            at: self.at + k.words,
            commands: self.commands + 1,
            records: self.records + work,
            flip: k.base,
        }
    }

    // The rules on order: a decoded command that may stand here, else its refusal: the one that it came in with, or 10. Taken out by
    // `let .. else`: a form that is fixed (docs/DECISIONS.md).
    fn in_order(self, d: Result<Command, Refusal>) -> Result<Command, Refusal>
        ensures { numbered result ≡ ordered self (numbered d) }
    {
        let Ok(k) = d else {
            return d;
        };
        if self.flip & !k.begin {
            return Err(Refusal {
                reason: Reason::NoBegin,
                word: self.at,
            });
        }
        d
    }

    // The cursor after a decoded command, or its refusal: 3 to 10.
    pub fn take(self, d: Result<Command, Refusal>) -> Result<Cursor, Refusal>
        requires { Counted self × InsideAfter self (numbered d) }
        ensures { numbered result ≡ taken self (numbered d) }
    {
        let k = self.in_order(d)?;
        Ok(self.after(k))
    }

    // One command: refusals 3 to 10, from every state that the cursor stands for.
    pub fn step<S: Source>(self, tables: &Tables, buffer: &[u32]) -> Result<Cursor, Refusal>
        requires { Counted self × (self.at < length (S.words buffer.now)) }
        ensures { Stepped S.words S.placed buffer.now self (numbered result) }
    {
        let id = words::id_of(S::word(buffer, self.at));
        let row = tables.row(id);
        if table::UNKNOWN <= row {
            return Err(Refusal {
                reason: command::unknown(id),
                word: self.at,
            });
        }
        if table::is_known_group(id, row) {
            return self.take(command::decode_group::<S>(tables, buffer, self.at, id, row));
        }
        self.take(command::decode_single::<S>(tables, buffer, self.at, id, row))
    }
}

// Words whose place gives refusals of its own, which come before those of the words.
pub trait Walked: Source {
    // The first of them from a position on.
    ghost amiss: { List ℕ → ℕ → Option RulesRefusal };

    // That one, or else the one given.
    fn refuse(buffer: &[u32], at: usize, f: Refusal) -> Refusal
        requires { at < length (Self.words buffer.now) }
        ensures { numbered_refusal result ≡ or_else (amiss buffer.now at) (numbered_refusal f) };

    ghost ends: { (b : List ℕ) (at : ℕ) → length (Self.words b) ≤ at → amiss b at ≡ none };

    ghost passes: { (b : List ℕ) (at to : ℕ) → at < length (Self.words b) → Passed Self.words Self.placed b at to → amiss b at ≡ amiss b to };

    ghost in_place: { (b : List ℕ) (at : ℕ) → at < length (Self.words b) → amiss b at ≡ none → InPlace Self.words Self.placed b at };
}

impl Walked for List {
    ghost amiss = { λ b at. none };

    ghost ends = { λ b at h. refl };

    ghost passes = { λ b at to h p. refl };

    ghost in_place = { λ b at h e. refl };

    fn refuse(_buffer: &[u32], _at: usize, f: Refusal) -> Refusal {
        f
    }
}

// The first pass: all words are checked and counted, and nothing is written.
pub fn walk<S: Walked>(tables: &Tables, buffer: &[u32]) -> Result<Counts, Refusal>
    ensures { Walks (walk_words S.words S.amiss buffer.now) (numbered result) }
{
    let mut c = Cursor::start();
    // stays a `while`: the cursor itself says where the next command is
    while c.at < S::len(buffer) {
        match c.step::<S>(tables, buffer) {
            Ok(next) => c = next,
            Err(f) => return Err(S::refuse(buffer, c.at, f)),
        }
    }
    Ok(c.counts())
}

// ---- the verdict

// What the answer to an accepted list has, with what was written.
pub fn accepted(position: usize, counts: Counts, words: usize) -> Accepted
    ensures { answer_of (Ok result) ≡ accepted_answer position counts.commands counts.records words }
{
    Accepted {
        position,
        commands: counts.commands,
        records: counts.records,
        words,
    }
}

// Refusal 11, at the list's length: what is to be written does not fit.
pub fn no_room(words: usize) -> Refusal
    ensures { numbered_refusal result ≡ refusal 11 words }
{
    Refusal {
        reason: Reason::NoRoom,
        word: words,
    }
}

// Refusals of the whole list: 1 or 2, by the words of the list and of the image.
pub fn sized(words: usize, image: usize) -> Result<(), Refusal>
    ensures { numbered result ≡ sized_of words image }
{
    if 4096 < words {
        return Err(Refusal {
            reason: Reason::TooManyWords,
            word: 4096,
        });
    }
    if image != 256 {
        return Err(Refusal {
            reason: Reason::ImageSize,
            word: 0,
        });
    }
    Ok(())
}

// The verdict on a list, before anything is written: refusals 1 to 10, or the counts.
pub fn check(list: &[u32], image: &[u32]) -> Result<Counts, Refusal>
    ensures { numbered result ≡ walked_of (parse image.now list.now) }
{
    sized(list.len(), image.len())?;
    let tables = Tables::new();
    // as a part of itself, so that callers hand the list over in registers
    let n = list.len();
    walk::<List>(&tables, &list[..n])
}
