// What a list sets and draws, as text.
#![tactic(auto)]

ghost use Rattle.std.specs.Prelude.{◌≡◌, ◌+◌, ◌≤◌, Ok};
ghost use Rattle.rules.specs.Answer.{outcome, reading};
ghost use Rattle.rules.specs.Returned.{answer_of};
ghost use Rattle.text.specs.Puts.{Puts};
ghost use Rattle.text.specs.Wrote.{Wrote};
ghost use Rattle.show.specs.Show.{words_text, change_line, sets_text, draws_text, accepted_text, show_text};
ghost use Rattle.show.specs.Changes.{id_line};

use rules::{Accepted, Refusal};
use table::Settings;
use text::Writer;

// ---- settings

// Words, each behind a space.
fn put_words(writer: &mut Writer<'_>, words: &[u32])
    ensures { Wrote (words_text words.now) writer.old writer.new }
{
    for word in words {
        format::put_format(writer, b"", b" %8", &[*word as usize]);
    }
}

// The words of a setting before and after, where one of them differs.
// two images stay two parameters: a struct would hold two references for four functions
fn put_change(
    writer: &mut Writer<'_>,
    id: usize,
    size: usize,
    before: &[u32; 256],
    after: &[u32; 256],
)
    requires { id + size ≤ 256 }
    ensures { Wrote (change_line id size before.now after.now) writer.old writer.new }
{
    let before = &before[id..id + size];
    let after = &after[id..id + size];
    if before == after {
        return;
    }
    format::put_format(writer, names::commands(), b"%2%n", &[id, id]);
    put_words(writer, before);
    writer.put_all(b" ->");
    put_words(writer, after);
    writer.put_all(b"\n");
}

// The same by an id: nothing where it is no setting's.
#[tactic(auto, unfolding(crate::specs::Changes::id_line))]
fn put_id(writer: &mut Writer<'_>, id: u8, before: &[u32; 256], after: &[u32; 256])
    ensures { Wrote (id_line id before.now after.now) writer.old writer.new }
{
    let kind = Settings::kind(id);
    if kind == Settings::GROUP {
        put_change(writer, id as usize, 4, before, after);
    } else if kind != Settings::NONE {
        put_change(writer, id as usize, 1, before, after);
    }
}

fn put_sets(writer: &mut Writer<'_>, before: &[u32; 256], after: &[u32; 256])
    ensures { Wrote (sets_text before.now after.now) writer.old writer.new }
{
    writer.put_all(b"sets: id name before -> after\n");
    for id in 0..=255 {
        put_id(writer, id, before, after);
    }
}

// ---- the whole

fn put_draws(writer: &mut Writer<'_>, records: &[u32])
    ensures { Wrote (draws_text records.now) writer.old writer.new }
{
    writer.put_all(b"draws: at id words head name\n");
    lines::put_records(writer, names::commands(), b"%d %2 %d %6%n\n", records);
}

fn put_accepted(
    writer: &mut Writer<'_>,
    a: Accepted,
    before: &[u32; 256],
    after: &[u32; 256],
    records: &[u32],
    form: usize,
)
    ensures { Wrote (accepted_text (answer_of (Ok a)) before.now after.now records.now form) writer.old writer.new }
{
    lines::put_counts(writer, a.commands, a.records);
    put_sets(writer, before, after);
    put_draws(writer, records);
    let numbers = [a.position, form];
    format::put_format(writer, b"", b"words %d normal form %d\n", &numbers);
}

// The reader, on an image and records of a fixed size.
pub fn read(
    list: &[u32],
    image: &mut [u32; 256],
    records: &mut [u32; 16384],
) -> Result<Accepted, Refusal>
    ensures { outcome (answer_of result) image.new records.new ≡ reading list.now image.old records.old }
{
    reader::read(list, image, records)
}

// The words that an answer tells, none on refusal.
fn words_of(answer: Result<Accepted, Refusal>) -> usize
    ensures { result ≡ (answer_of answer).words }
{
    answer.map_or(0, |a| a.words)
}

// The verdict on a list from an image, and what it sets and draws; at most 310,000 bytes.
pub fn put_show(text: &mut [u8], list: &[u32], image: &[u32; 256]) -> usize
    ensures puts { Puts (show_text list.now image.now) text.old 0 text.new result }
    ensures upper_bound { result ≤ 310000 }
{
    let mut after = *image;
    let mut records = [0u32; 16384];
    let answer = read(list, &mut after, &mut records);
    let Ok(a) = answer else {
        return verdict::put_verdict(text, answer.into(), list, &[], 1024);
    };
    let form = words_of(form::measure(list, image));
    let mut writer = Writer::new(text, 0);
    put_accepted(&mut writer, a, image, &after, &records[..a.words], form);
    writer.position()
}
