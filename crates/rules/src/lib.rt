// The rules of XP10 command lists are the definitions in specs/, held against the papers' cases in proofs/.
// Here stands only what the functions above return. specs/Returned.antt says which verdict each value stands for.
#![tactic(auto)]

ghost use Rattle.std.specs.Prelude.{◌≡◌, ◌+◌, ◌^◌, ◌<◌};
ghost use Rattle.rules.specs.Values.{shift};
ghost use Rattle.rules.specs.Returned.{number_of, bit_of, numbered_refusal, answer_of, session_end, session_answer_of, scene_answer_of, book_answer_of};
ghost use Rattle.rules.specs.Returned.{answer_with, session_with, scene_with, book_with};

// Why a list, an image, pairs or a book are refused. Each reason has a number of its own (`number_of`).
#[derive(Clone, Copy, PartialEq, Eq)]
pub enum Reason {
    TooManyWords,
    ImageSize,
    UnknownId,
    PciOnly,
    GroupCut,
    // "With 6, the answer now also gives the number of the lowest undefined bit set in that word"
    UndefinedBit(u32),
    IllegalValue,
    PayloadCut,
    NoBegin,
    NoRoom,
    BrokenWord,
    WrongAddress,
    CommandCut,
    PageMaximum,
    PageMinimum,
    RasterBits,
    FloatBit,
    PlaneRange,
    OutsideBuffer,
    NoSuchMode,
    BadContents,
    NumbersFall,
    BodiesMisplaced,
    NoScene,
}

// The bit of every verdict but 6.
// stays a number: what may not change, the answer's sixth number (`answer_words`) is 32 where there is no bit
pub const NO_BIT: u32 = 32;

impl Reason {
    pub fn number(self) -> u32
        ensures { result ≡ number_of self }
    {
        match self {
            Reason::TooManyWords => 1,
            Reason::ImageSize => 2,
            Reason::UnknownId => 3,
            Reason::PciOnly => 4,
            Reason::GroupCut => 5,
            Reason::UndefinedBit(_) => 6,
            Reason::IllegalValue => 7,
            Reason::PayloadCut => 9,
            Reason::NoBegin => 10,
            Reason::NoRoom => 11,
            Reason::BrokenWord => 12,
            Reason::WrongAddress => 13,
            Reason::CommandCut => 14,
            Reason::PageMaximum => 15,
            Reason::PageMinimum => 16,
            Reason::RasterBits => 17,
            Reason::FloatBit => 18,
            Reason::PlaneRange => 19,
            Reason::OutsideBuffer => 20,
            Reason::NoSuchMode => 21,
            Reason::BadContents => 22,
            Reason::NumbersFall => 23,
            Reason::BodiesMisplaced => 24,
            Reason::NoScene => 25,
        }
    }

    pub fn bit(self) -> u32
        ensures { result ≡ bit_of self }
    {
        match self {
            Reason::UndefinedBit(bit) => bit,
            _ => NO_BIT,
        }
    }
}

// "A bad list is refused with a number and a word position."
#[derive(Clone, Copy)]
pub struct Refusal {
    pub reason: Reason,
    pub word: usize,
}

impl Refusal {
    // The refusal of a command's word, where the command stands at a position.
    pub fn behind(self, at: usize) -> Self
        requires { at + self.word < 2 ^ 64 }
        ensures { numbered_refusal result ≡ shift at (numbered_refusal self) }
    {
        Refusal {
            reason: self.reason,
            word: at + self.word,
        }
    }
}

// What the answer to an accepted list has: the list's length, its commands and records, and the words written.
#[derive(Clone, Copy)]
pub struct Accepted {
    pub position: usize,
    pub commands: usize,
    pub records: usize,
    pub words: usize,
}

// What a call on several lists has: sums over the lists applied, how many they are, and how the last call ended: the position
// of an accepted list, or the refusal.
#[derive(Clone, Copy)]
pub struct Session {
    pub commands: usize,
    pub records: usize,
    pub words: usize,
    pub lists: usize,
    pub end: Result<usize, Refusal>,
}

// Of a book, "Each entry is three words: scene number, start, length."
#[derive(Clone, Copy)]
pub struct Entry {
    pub number: u32,
    pub start: usize,
    pub length: usize,
}

// Where in its book a scene's words are.
#[derive(Clone, Copy)]
pub struct Scene {
    pub start: u32,
    pub length: u32,
}

// ---- the same as numbers: any, also such as no call gives

// The numbers of an answer.
#[derive(Clone, Copy)]
pub struct Answer {
    pub verdict: u32,
    pub bit: u32,
    pub position: usize,
    pub commands: usize,
    pub records: usize,
    pub words: usize,
}

// The numbers by how a call ended: at a position, or refused.
fn numbers(end: Result<usize, Refusal>, commands: usize, records: usize, words: usize) -> Answer
    ensures { answer_with result ≡ session_end commands records words end }
{
    let (verdict, position, bit) = match end {
        Ok(position) => (0, position, NO_BIT),
        Err(f) => (f.reason.number(), f.word, f.reason.bit()),
    };
    Answer {
        verdict,
        bit,
        position,
        commands,
        records,
        words,
    }
}

impl From<Result<Accepted, Refusal>> for Answer {
    ghost from_gives = { λ outcome a. answer_with a ≡ answer_of outcome };

    fn from(outcome: Result<Accepted, Refusal>) -> Answer {
        match outcome {
            Ok(a) => numbers(Ok(a.position), a.commands, a.records, a.words),
            Err(f) => numbers(Err(f), 0, 0, 0),
        }
    }
}

// The numbers of a session's answer, and the lists applied.
#[derive(Clone, Copy)]
pub struct SessionAnswer {
    pub answer: Answer,
    pub lists: usize,
}

impl From<Session> for SessionAnswer {
    ghost from_gives = { λ session s. session_with s ≡ session_answer_of session };

    fn from(s: Session) -> SessionAnswer {
        SessionAnswer {
            answer: numbers(s.end, s.commands, s.records, s.words),
            lists: s.lists,
        }
    }
}

// The verdict on a question for a scene, and where in its book the scene is.
#[derive(Clone, Copy)]
pub struct SceneAnswer {
    pub verdict: u32,
    pub start: u32,
    pub length: u32,
}

impl From<Result<Scene, Reason>> for SceneAnswer {
    ghost from_gives = { λ found a. scene_with a ≡ scene_answer_of found };

    fn from(found: Result<Scene, Reason>) -> SceneAnswer {
        match found {
            Ok(scene) => SceneAnswer {
                verdict: 0,
                start: scene.start,
                length: scene.length,
            },
            Err(reason) => SceneAnswer {
                verdict: reason.number(),
                start: 0,
                length: 0,
            },
        }
    }
}

// The verdict of a book's writer, and the words written.
#[derive(Clone, Copy)]
pub struct BookAnswer {
    pub verdict: u32,
    pub words: usize,
}

impl From<Result<usize, Reason>> for BookAnswer {
    ghost from_gives = { λ written a. book_with a ≡ book_answer_of written };

    fn from(written: Result<usize, Reason>) -> BookAnswer {
        match written {
            Ok(words) => BookAnswer { verdict: 0, words },
            Err(reason) => BookAnswer {
                verdict: reason.number(),
                words: 0,
            },
        }
    }
}
