// The list that writes over PCI carry (document 02, Ticket 1).
//
// A pair is two words of a buffer, address first. Pair `at` carries word `at` of the list.
#![tactic(auto)]

ghost use Rattle.std.specs.Prelude.{◌≡◌, ◌≤◌, length};
ghost use Rattle.std.proofs.lemmas.List.Edits.{sets};
ghost use Rattle.rules.specs.Pci.{values, parse_pairs, from_pci};
ghost use Rattle.rules.specs.Answer.{outcome};
ghost use Rattle.rules.specs.Returned.{numbered, answer_of};
ghost use Rattle.list.specs.View.{walked_of};

use list::Counts;
use masks::Tables;
use misplaced::Pairs;
use rules::{Accepted, Refusal};

// The verdict on pairs, before anything is written: refusals 1, 2, 13, 14 and 3 to 10, or the counts.
// stays beside `list::check`: what may not change, they are promised by two definitions, `parse` and `parse_pairs`
fn check(pairs: &[u32], image: &[u32]) -> Result<Counts, Refusal>
    ensures { numbered result ≡ walked_of (parse_pairs image.now pairs.now) }
{
    list::sized(pairs.len() / 2, image.len())?;
    list::walk::<Pairs>(&Tables::new(), pairs)
}

// The list that pairs carry.
#[tactic(auto, using(pairs::proofs::Pairs::pair_count))]
pub fn write_values(pairs: &[u32], list: &mut [u32])
    requires { length (values pairs.now) ≤ length list.old }
    ensures { list.new ≡ sets list.old 0 (values pairs.now) }
{
    for i in 0..pairs.len() / 2 {
        list[i] = pairs::value_at(pairs, i);
    }
}

// From writes over PCI and a register image to the list that they carry.
#[tactic(auto, using(pairs::proofs::Pairs::pair_count))]
pub fn from_pci(pairs: &[u32], image: &[u32], list: &mut [u32]) -> Result<Accepted, Refusal>
    ensures { outcome (answer_of result) image.now list.new ≡ from_pci pairs.now image.now list.old }
{
    let words = pairs.len() / 2;
    let counts = check(pairs, image)?;
    if list.len() < words {
        return Err(list::no_room(words));
    }
    write_values(pairs, list);
    Ok(list::accepted(words, counts, words))
}
