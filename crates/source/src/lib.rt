// Where the words of a list stand: one behind the other, or as the values of pairs.
#![tactic(auto)]

ghost use Rattle.std.specs.Prelude.{ℕ, List, Bool, true, ◌≡◌, ◌&&◌, ◌+◌, ◌-◌, ◌<◌, ◌≤◌, refl, leb, length, get_or};
ghost use Rattle.table.specs.Tables.{group_at};
ghost use Rattle.source.specs.Laws.{all_fit};

use table::Group;

// stay functions of a lent buffer: a struct that holds it would have to be made at each call
pub trait Source {
    // The words of a buffer.
    ghost words: { List ℕ → List ℕ };

    // So many of them, from a position on, stand where the words of a command go that has this id.
    ghost placed: { List ℕ → ℕ → ℕ → ℕ → Bool };

    fn len(buffer: &[u32]) -> usize
        ensures { result ≡ length (words buffer.now) };

    fn word(buffer: &[u32], at: usize) -> u32
        requires { at < length (words buffer.now) }
        ensures { result ≡ get_or (words buffer.now) at 0 };

    fn word_in_place(buffer: &[u32], at: usize, id: u8) -> bool
        requires { at < length (words buffer.now) }
        ensures { result ≡ placed buffer.now at 1 id };

    fn group_in_place(buffer: &[u32], at: usize, id: u8) -> bool
        requires { at + 4 ≤ length (words buffer.now) }
        ensures { result ≡ placed buffer.now at 4 id };

    // The words are there, and in place.
    fn payload_in_place(buffer: &[u32], at: usize, count: usize, id: u8) -> bool
        requires { at ≤ length (words buffer.now) }
        ensures { result ≡ (leb count (length (words buffer.now) - at) && placed buffer.now at count id) };

    ghost fits: { (b : List ℕ) → length (words b) ≤ length b };

    // A command's addresses are four, which its words go to in turn.
    ghost parts: { (b : List ℕ) (at n id : ℕ) → placed b at (4 + n) id ≡ (placed b at 4 id && placed b (at + 4) n id) };
}

// A list as it is.
pub struct List {}

impl Source for List {
    ghost words = { λ b. b };

    ghost placed = { λ b at n id. true };

    ghost fits = { all_fit };

    ghost parts = { λ b at n id. refl };

    fn len(buffer: &[u32]) -> usize {
        buffer.len()
    }

    fn word(buffer: &[u32], at: usize) -> u32 {
        words::fetch(buffer, at)
    }

    fn word_in_place(_buffer: &[u32], _at: usize, _id: u8) -> bool {
        true
    }

    fn group_in_place(_buffer: &[u32], _at: usize, _id: u8) -> bool {
        true
    }

    fn payload_in_place(buffer: &[u32], at: usize, count: usize, _id: u8) -> bool {
        count <= buffer.len() - at
    }
}

// A word, zero past the end.
pub fn word_or_zero<S: Source>(buffer: &[u32], at: usize) -> u32
    ensures { result ≡ get_or (S.words buffer.now) at 0 }
{
    if at < S::len(buffer) {
        return S::word(buffer, at);
    }
    0
}

// The own words of a group.
pub fn group_at<S: Source>(buffer: &[u32], at: usize) -> Group
    requires { at + 4 ≤ length (S.words buffer.now) }
    ensures { result ≡ group_at (S.words buffer.now) at }
{
    Group {
        header: words::header_of(S::word(buffer, at)),
        second: S::word(buffer, at + 1),
        third: S::word(buffer, at + 2),
        fourth: S::word(buffer, at + 3),
    }
}
