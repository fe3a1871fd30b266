// Refusals 13 and 14: which of them, and where, only a refusal asks (document 02, Ticket 1).
#![tactic(auto)]

ghost use Rattle.std.specs.Prelude.{◌≡◌, ◌<◌, length};
ghost use Rattle.rules.specs.Pci.{values, misplaced, outside};
ghost use Rattle.rules.specs.Returned.{numbered_refusal};
ghost use Rattle.rules.specs.Form.{read};
ghost use Rattle.list.specs.View.{or_else};
ghost use Rattle.pairs.specs.View.{addresses};
ghost use Rattle.placed.specs.View.{placed};
ghost use Rattle.misplaced.specs.View.{behind, misplaced_from, Leading};
ghost use Rattle.misplaced.specs.Laws.{values_fit, placed_parts, none_behind, pairs_passed, pairs_in_place};

use list::Walked;
use rules::{Reason, Refusal};
use source::Source;

// The list that pairs carry.
pub struct Pairs {}

impl Source for Pairs {
    ghost words = { values };

    ghost placed = { λ b at n id. placed id 0 (read (addresses b) at n) };

    ghost fits = { values_fit };

    ghost parts = { placed_parts };

    #[tactic(auto, using(pairs::proofs::Pairs::pair_count))]
    fn len(buffer: &[u32]) -> usize {
        buffer.len() / 2
    }

    fn word(buffer: &[u32], at: usize) -> u32 {
        pairs::value_at(buffer, at)
    }

    fn word_in_place(buffer: &[u32], at: usize, id: u8) -> bool {
        pairs::address_at(buffer, at) == pairs::address(id, 0)
    }

    fn group_in_place(buffer: &[u32], at: usize, id: u8) -> bool {
        placed::group_placed(buffer, at, id)
    }

    fn payload_in_place(buffer: &[u32], at: usize, count: usize, id: u8) -> bool {
        placed::payload_placed(buffer, at, count, id)
    }
}

impl Walked for Pairs {
    ghost amiss = { λ b at. misplaced_from at b };

    ghost ends = { none_behind };

    ghost passes = { pairs_passed };

    ghost in_place = { pairs_in_place };

    fn refuse(buffer: &[u32], at: usize, f: Refusal) -> Refusal {
        refuse_pairs(buffer, at, f)
    }
}

// How many pairs of a command, from its first on, are there and stand at its addresses.
#[tactic(auto, using(pairs::proofs::Pairs::pair_count))]
fn leading(pairs: &[u32], at: usize, words: usize, id: u8) -> usize
    requires { at < length (values pairs.now) }
    ensures { Leading pairs.now at words id result }
{
    let there = words.min(pairs.len() / 2 - at);
    for i in 0..there {
        if pairs::address_at(pairs, at + i) != pairs::address(id, i) {
            return i;
        }
    }
    there
}

// The first refusal 13 or 14 from a command's first pair on, else the one given.
#[tactic(auto, using(pairs::proofs::Pairs::pair_count))]
pub fn refuse_pairs(pairs: &[u32], start: usize, f: Refusal) -> Refusal
    requires { start < length (values pairs.now) }
    ensures { numbered_refusal result ≡ or_else (misplaced outside 0 start (behind start pairs.now)) (numbered_refusal f) }
{
    let n = pairs.len() / 2;
    // stays a `while`: an iterator over commands is no plainer, since the loop goes on by what it finds of each
    let mut at = start;
    while at < n {
        let words = command::size_at::<Pairs>(pairs, at);
        let right = leading(pairs, at, words, words::id_of(pairs::value_at(pairs, at)));
        if right < words {
            if right < n - at {
                return Refusal {
                    reason: Reason::WrongAddress,
                    word: at + right,
                };
            }
            return Refusal {
                reason: Reason::CommandCut,
                word: at,
            };
        }
        at += words;
    }
    f
}
