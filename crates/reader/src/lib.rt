// The reader: the image and the records that an accepted list leaves.
//
// The list is checked before, and nothing is checked again. What that shows stays in clauses: `CommandAt` ties a position to the list
// lent, and the image is lent as a slice of any length, which the C interface has.
#![tactic(auto)]

ghost use Rattle.std.specs.Prelude.{◌≡◌, ◌+◌, ◌≤◌, length};
ghost use Rattle.std.proofs.lemmas.List.Edits.{sets};
ghost use Rattle.rules.specs.Image.{apply, final};
ghost use Rattle.rules.specs.Returned.{answer_of};
ghost use Rattle.rules.specs.Answer.{outcome, reading, IsAccepted, commands_from, records_from};
ghost use Rattle.table.specs.Ids.{setting_kind};
ghost use Rattle.command.specs.View.{size_at};
ghost use Rattle.command.specs.Effects.{id_at, command_at, CommandAt, record_at};
ghost use Rattle.reader.specs.Applied.{Applies, Applied};

use rules::{Accepted, Refusal};
use table::Settings;

// Where it stands: the position, and the words of the records written so far.
#[derive(Clone, Copy)]
pub struct Place {
    pub at: usize,
    pub written: usize,
}

// A setting of four words goes to the image.
fn set_group(list: &[u32], image: &mut [u32], at: usize)
    requires { CommandAt list.now at × (setting_kind (id_at list.now at) ≡ 2) × (length image.old ≡ 256) }
    ensures { image.new ≡ apply (command_at list.now at) image.old }
{
    let g = source::group_at::<source::List>(list, at);
    let id = words::id_of(words::fetch(list, at)) as usize;
    words::put4(image, id, g.header, g.second, g.third, g.fourth);
}

// A setting of one word does.
fn set_single(list: &[u32], image: &mut [u32], at: usize)
    requires { CommandAt list.now at × (setting_kind (id_at list.now at) ≡ 1) × (length image.old ≡ 256) }
    ensures { image.new ≡ apply (command_at list.now at) image.old }
{
    let w = words::fetch(list, at);
    let id = words::id_of(w) as usize;
    image[id] = words::header_of(w);
}

// What a work command leaves in the image.
fn leave_header(list: &[u32], image: &mut [u32], at: usize)
    requires { CommandAt list.now at × (setting_kind (id_at list.now at) ≡ 0) × (length image.old ≡ 256) }
    ensures { image.new ≡ apply (command_at list.now at) image.old }
{
    let w = words::fetch(list, at);
    let id = words::id_of(w);
    if !table::keeps_header(id) {
        return;
    }
    if table::is_begin(id) {
        image[0x08] = words::header_of(w);
        return;
    }
    image[id as usize] = words::header_of(w);
}

// A work command gives a record.
fn write_record(list: &[u32], records: &mut [u32], p: Place, words: usize)
    requires { CommandAt list.now p.at × (setting_kind (id_at list.now p.at) ≡ 0) × (words ≡ size_at list.now p.at) × (p.written + 4 ≤ length records.old) }
    ensures { records.new ≡ sets records.old p.written (record_at list.now p.at) }
{
    let w = words::fetch(list, p.at);
    words::put4(
        records,
        p.written,
        words::id_of(w) as u32,
        p.at as u32,
        words as u32,
        words::header_of(w),
    );
}

fn apply_work(list: &[u32], image: &mut [u32], records: &mut [u32], p: Place) -> Place
    requires { Applies list.now p.at p.written image.old records.old × (setting_kind (id_at list.now p.at) ≡ 0) }
    ensures { Applied list.now p.at p.written image.old records.old result image.new records.new }
{
    let words = command::size_at::<source::List>(list, p.at);
    leave_header(list, image, p.at);
    write_record(list, records, p, words);
    Place {
        at: p.at + words,
        written: p.written + 4,
    }
}

// One command of an accepted list: a setting goes to the image, any other gives a record.
fn apply_command(list: &[u32], image: &mut [u32], records: &mut [u32], p: Place) -> Place
    requires { Applies list.now p.at p.written image.old records.old }
    ensures { Applied list.now p.at p.written image.old records.old result image.new records.new }
{
    let id = words::id_of(words::fetch(list, p.at));
    // membership without a self: a form that is fixed (docs/DECISIONS.md)
    if Settings::contains(id) {
        if Settings::kind(id) == Settings::GROUP {
            set_group(list, image, p.at);
            return Place {
                at: p.at + 4,
                written: p.written,
            };
        }
        set_single(list, image, p.at);
        return Place {
            at: p.at + 1,
            written: p.written,
        };
    }
    apply_work(list, image, records, p)
}

// The image and the records of an accepted list.
fn apply_list(list: &[u32], image: &mut [u32], buffer: &mut [u32])
    requires { IsAccepted image.old list.now × (length (records_from image.old list.now) ≤ length buffer.old) }
    ensures image_value { image.new ≡ final image.old (commands_from image.old list.now) }
    ensures buffer_value { buffer.new ≡ sets buffer.old 0 (records_from image.old list.now) }
{
    let mut p = Place { at: 0, written: 0 };
    // stays a `while`: applying a command says where the next is
    while p.at < list.len() {
        p = apply_command(list, image, buffer, p);
    }
}

// The reader: from a list, a register image and a record buffer to a verdict, the new image and the records of work.
pub fn read(list: &[u32], image: &mut [u32], records: &mut [u32]) -> Result<Accepted, Refusal>
    ensures { outcome (answer_of result) image.new records.new ≡ reading list.now image.old records.old }
{
    let counts = list::check(list, image)?;
    if records.len() / 4 < counts.records {
        return Err(list::no_room(list.len()));
    }
    apply_list(list, image, records);
    Ok(list::accepted(list.len(), counts, counts.records * 4))
}
