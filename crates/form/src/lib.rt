// The normal form of a list: the normaliser, and the measurer, which tells its length (document 02, Ticket 4).
#![tactic(auto)]

ghost use Rattle.std.specs.Prelude.{◌≡◌, length};
ghost use Rattle.std.proofs.lemmas.List.Edits.{sets};
ghost use Rattle.rules.specs.Returned.{answer_of};
ghost use Rattle.rules.specs.Answer.{outcome, normalising, measuring, normal_form, IsAccepted};

use draft::Draft;
use rules::{Accepted, Refusal};
use settings::Memory;

// The form of an accepted list, written as far as the buffer goes, and its length.
fn form(list: &[u32], image: &[u32], out: &mut [u32]) -> usize
    requires { IsAccepted image.now list.now }
    ensures value { result ≡ length (normal_form image.now list.now) }
    ensures out_value { out.new ≡ sets out.old 0 (normal_form image.now list.now) }
{
    let mut draft = Draft::new();
    let mut memory = Memory::new();
    // stays: an iterator over commands is no plainer, since a draft keeps its own place in the list
    while draft.at < list.len() {
        draft.take_command(&mut memory, list, image, out);
    }
    memory.emit_settings(draft.changed, list, image, out, draft.written)
}

// The measurer: from a list and a starting image to the normal form's length. The form is written to no buffer.
pub fn measure(list: &[u32], image: &[u32]) -> Result<Accepted, Refusal>
    ensures { answer_of result ≡ measuring list.now image.now }
{
    let counts = list::check(list, image)?;
    let length = form(list, image, &mut []);
    Ok(list::accepted(list.len(), counts, length))
}

// The normaliser: from a list, a starting image and an output buffer to the normal form. A form never has more words than
// its list: it is measured first only where the buffer is shorter than the list.
pub fn normalise(list: &[u32], image: &[u32], out: &mut [u32]) -> Result<Accepted, Refusal>
    ensures { outcome (answer_of result) image.now out.new ≡ normalising list.now image.now out.old }
{
    let counts = list::check(list, image)?;
    if out.len() < list.len() {
        if out.len() < form(list, image, &mut []) {
            return Err(list::no_room(list.len()));
        }
    }
    let words = form(list, image, out);
    Ok(list::accepted(list.len(), counts, words))
}
