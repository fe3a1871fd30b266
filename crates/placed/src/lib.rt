// A command's pairs that stand at its addresses (document 02, Ticket 1).
#![tactic(auto)]

ghost use Rattle.std.specs.Prelude.{◌≡◌, ◌&&◌, ◌+◌, ◌-◌, ◌≤◌, leb, length};
ghost use Rattle.rules.specs.Form.{read};
ghost use Rattle.rules.specs.Pci.{values};
ghost use Rattle.pairs.specs.View.{addresses};
ghost use Rattle.placed.specs.View.{placed};

// Pairs that are there stand at the addresses of a command's words, from its first on. Each is looked at, since a branch on
// each costs more.
#[inline(always)]
#[tactic(auto, using(pairs::proofs::Pairs::pair_count))]
fn all_placed(pairs: &[u32], at: usize, words: usize, id: u8) -> bool
    requires { at + words ≤ length (values pairs.now) }
    ensures { result ≡ placed id 0 (read (addresses pairs.now) at words) }
{
    let mut right = true;
    for i in 0..words {
        right &= pairs[2 * (at + i)] == pairs::address(id, i);
    }
    right
}

// The four pairs of a group stand at its addresses.
#[tactic(auto, using(pairs::proofs::Pairs::pair_count))]
pub fn group_placed(pairs: &[u32], at: usize, id: u8) -> bool
    requires { at + 4 ≤ length (values pairs.now) }
    ensures { result ≡ placed id 0 (read (addresses pairs.now) at 4) }
{
    all_placed(pairs, at, 4, id)
}

// The payload of a load is there, at the load's own four addresses.
#[tactic(auto, using(pairs::proofs::Pairs::pair_count))]
pub fn payload_placed(pairs: &[u32], at: usize, words: usize, id: u8) -> bool
    requires { at ≤ length (values pairs.now) }
    ensures { result ≡ (leb words (length (values pairs.now) - at) && placed id 0 (read (addresses pairs.now) at words)) }
{
    if pairs.len() / 2 - at < words {
        return false;
    }
    all_placed(pairs, at, words, id)
}
