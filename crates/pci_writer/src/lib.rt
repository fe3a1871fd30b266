// A list as the writes that a host makes over PCI (document 02, Ticket 1).
//
// A pair is two words of a buffer, address first. Pair `at` carries word `at` of the list.
#![tactic(auto)]

ghost use Rattle.std.specs.Prelude.{◌≡◌, ◌+◌, ◌*◌, ◌<◌, ◌≤◌, length};
ghost use Rattle.std.proofs.lemmas.List.Edits.{sets};
ghost use Rattle.rules.specs.Form.{read};
ghost use Rattle.rules.specs.Answer.{outcome, IsAccepted, commands_from};
ghost use Rattle.rules.specs.Returned.{answer_of};
ghost use Rattle.rules.specs.Pci.{command_pairs, pairs_from, pairs_all, to_pci};
ghost use Rattle.command.specs.View.{size_at};
ghost use Rattle.command.specs.Effects.{CommandAt, command_at};

use rules::{Accepted, Refusal};

// Some words of a list as pairs: those of a command with this id, its first word at the position.
#[inline(always)]
fn write_words(list: &[u32], pairs: &mut [u32], at: usize, words: usize, id: u8)
    requires { (at + words ≤ length list.now) × (2 * at + 2 * words ≤ length pairs.old) × (length list.now ≤ 4096) }
    ensures { pairs.new ≡ sets pairs.old (2 * at) (pairs_from id 0 (read list.now at words)) }
{
    for i in 0..words {
        pairs[2 * (at + i)] = pairs::address(id, i);
        pairs[2 * (at + i) + 1] = words::fetch(list, at + i);
    }
}

// The pairs of the command at a position of an accepted list, and the position behind it.
fn write_command(list: &[u32], pairs: &mut [u32], at: usize) -> usize
    requires { CommandAt list.now at × (2 * at + 2 * size_at list.now at ≤ length pairs.old) }
    ensures value { result ≡ at + size_at list.now at }
    ensures pairs_value { pairs.new ≡ sets pairs.old (2 * at) (command_pairs (command_at list.now at)) }
{
    let id = words::id_of(words::fetch(list, at));
    let words = command::size_at::<source::List>(list, at);
    // each of the two sizes that most commands have is compiled without a loop
    match words {
        1 => write_words(list, pairs, at, 1, id),
        4 => write_words(list, pairs, at, 4, id),
        _ => write_words(list, pairs, at, words, id),
    }
    at + words
}

// The pairs of an accepted list.
fn write_list(list: &[u32], image: &[u32], pairs: &mut [u32])
    requires { IsAccepted image.now list.now × (2 * length list.now ≤ length pairs.old) }
    ensures { pairs.new ≡ sets pairs.old 0 (pairs_all (commands_from image.now list.now)) }
{
    // stays a `while`: an iterator over commands is no plainer, since writing one says where the next is
    let mut at = 0;
    while at < list.len() {
        at = write_command(list, pairs, at);
    }
}

// From a list and a register image to the list's writes over PCI.
pub fn to_pci(list: &[u32], image: &[u32], pairs: &mut [u32]) -> Result<Accepted, Refusal>
    ensures { outcome (answer_of result) image.now pairs.new ≡ to_pci list.now image.now pairs.old }
{
    let counts = list::check(list, image)?;
    if pairs.len() / 2 < list.len() {
        return Err(list::no_room(list.len()));
    }
    write_list(list, image, pairs);
    Ok(list::accepted(list.len(), counts, 2 * list.len()))
}
