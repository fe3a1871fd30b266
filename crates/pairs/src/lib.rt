// The pairs of a buffer by their numbers: an address and a value each (document 02, Ticket 1).
//
// A pair is two words, address first. Pair `at` carries word `at` of a list.
// stays flat: the C interface lends words and not pairs, and the definitions count them
#![tactic(auto)]

ghost use Rattle.std.specs.Prelude.{◌≡◌, ◌<◌, length, get_or};
ghost use Rattle.rules.specs.Pci.{address_count, address, values};
ghost use Rattle.pairs.specs.View.{addresses};

// The addresses of a group.
const GROUP_ADDRESSES: usize = 4;

// How many addresses a command has, which its words go to in turn.
#[tactic(auto, unfolding(rules::specs::Pci::address_count))]
fn address_count(id: u8) -> usize
    ensures { result ≡ address_count id }
{
    GROUP_ADDRESSES
}

// The address of a command's word, counted from 0.
pub fn address(id: u8, word: usize) -> u32
    ensures { result ≡ address id word }
{
    0x2800 + (id as u32) * 4 + ((word % address_count(id)) as u32) * 4
}

#[tactic(auto, using(crate::proofs::Pairs::pair_count))]
pub fn address_at(pairs: &[u32], at: usize) -> u32
    requires { at < length (values pairs.now) }
    ensures { result ≡ get_or (addresses pairs.now) at 0 }
{
    let (pairs, _) = pairs.as_chunks::<2>();
    pairs[at][0]
}

#[tactic(auto, using(crate::proofs::Pairs::pair_count))]
pub fn value_at(pairs: &[u32], at: usize) -> u32
    requires { at < length (values pairs.now) }
    ensures { result ≡ get_or (values pairs.now) at 0 }
{
    let (pairs, _) = pairs.as_chunks::<2>();
    pairs[at][1]
}
