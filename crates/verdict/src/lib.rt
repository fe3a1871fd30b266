// The text of a verdict.
#![tactic(auto)]

ghost use Rattle.std.specs.Prelude.{◌≡◌, ◌<◌, ◌≤◌, length};
ghost use Rattle.text.specs.Puts.{Puts};
ghost use Rattle.text.specs.Wrote.{Wrote};
ghost use Rattle.rules.specs.Place.{start_of};
ghost use Rattle.rules.specs.Returned.{answer_with as any_answer};
ghost use Rattle.verdict.specs.Numbers.{answer_with};
ghost use Rattle.verdict.specs.Verdict.{image_line, address_line, place_lines, bit_line, why_line, refusal_text, verdict_text};

use rules::{Answer, NO_BIT};
use text::Writer;

// The numbers of an answer, as a caller's words hold them: any, also such as no call gives.
#[derive(Clone, Copy)]
pub struct Numbers {
    pub verdict: u32,
    pub bit: u32,
    pub position: usize,
    pub commands: usize,
    pub records: usize,
}

// ---- the command that a word stands in

// The first word of the command that word p stands in.
fn start_of(list: &[u32], p: usize) -> usize
    requires { p < length list.now }
    ensures { (result ≤ p) × (result ≡ start_of list.now p) }
{
    let mut at = 0;
    // stays: it counts commands' sizes, each known at the command's first word, and no index
    while at < p {
        let size = command::size_at::<source::List>(list, at);
        if p - at < size {
            return at;
        }
        at += size;
    }
    at
}

// ---- the lines of a refusal; what they go by stays as many parameters, as `put_verdict` has them, which README names

#[tactic(auto, unfolding(crate::specs::Verdict::image_line))]
fn put_image(writer: &mut Writer<'_>, number: usize, bytes: usize)
    ensures { Wrote (image_line number bytes) writer.old writer.new }
{
    if number == 2 {
        format::put_format(writer, b"", b"image %d bytes\n", &[bytes]);
    }
}

#[tactic(auto, unfolding(crate::specs::Verdict::address_line))]
fn put_address(writer: &mut Writer<'_>, pairs: &[u32], p: usize)
    ensures { Wrote (address_line pairs.now p) writer.old writer.new }
{
    if p < pairs.len() / 2 {
        let address = pairs[2 * p] as usize;
        format::put_format(writer, b"", b"address %8\n", &[address]);
    }
}

#[tactic(auto, unfolding(crate::specs::Verdict::place_lines))]
fn put_place(writer: &mut Writer<'_>, list: &[u32], p: usize)
    ensures { Wrote (place_lines list.now p) writer.old writer.new }
{
    if p < list.len() {
        let start = start_of(list, p);
        let word = list[p] as usize;
        let id = words::id_of(list[start]) as usize;
        let format = b"word %8\ncommand %2%n at %d\n";
        format::put_format(writer, names::commands(), format, &[word, id, id, start]);
    }
}

#[tactic(auto, unfolding(crate::specs::Verdict::bit_line))]
fn put_bit(writer: &mut Writer<'_>, bit: u32)
    ensures { Wrote (bit_line bit) writer.old writer.new }
{
    if bit != NO_BIT {
        format::put_format(writer, b"", b"bit %d\n", &[bit as usize]);
    }
}

fn put_why(writer: &mut Writer<'_>, number: usize)
    ensures { Wrote (why_line number) writer.old writer.new }
{
    writer.put_all(b"why");
    names::put_refusal(writer, number);
    writer.put_all(b"\n");
}

// ---- the verdict

fn put_refusal(writer: &mut Writer<'_>, n: Numbers, list: &[u32], pairs: &[u32], bytes: usize)
    ensures { Wrote (refusal_text (answer_with n) list.now pairs.now bytes) writer.old writer.new }
{
    let number = n.verdict as usize;
    lines::put_refused(writer, number, n.position);
    put_image(writer, number, bytes);
    put_address(writer, pairs, n.position);
    put_place(writer, list, n.position);
    put_bit(writer, n.bit);
    put_why(writer, number);
}

#[tactic(auto, unfolding(crate::specs::Verdict::verdict_text))]
fn put_answer(writer: &mut Writer<'_>, n: Numbers, list: &[u32], pairs: &[u32], bytes: usize)
    ensures { Wrote (verdict_text (answer_with n) list.now pairs.now bytes) writer.old writer.new }
{
    if n.verdict == 0 {
        lines::put_counts(writer, n.commands, n.records);
    } else {
        put_refusal(writer, n, list, pairs, bytes);
    }
}

// The text of any answer, by its numbers.
pub fn put_numbers(text: &mut [u8], n: Numbers, list: &[u32], pairs: &[u32], bytes: usize) -> usize
    ensures { Puts (verdict_text (answer_with n) list.now pairs.now bytes) text.old 0 text.new result }
{
    let mut writer = Writer::new(text, 0);
    put_answer(&mut writer, n, list, pairs, bytes);
    writer.position()
}

// The text of an answer on a list, or on pairs and the list that they carry, with an image of some bytes.
pub fn put_verdict(text: &mut [u8], a: Answer, list: &[u32], pairs: &[u32], bytes: usize) -> usize
    ensures { Puts (verdict_text (any_answer a) list.now pairs.now bytes) text.old 0 text.new result }
{
    let numbers = Numbers {
        verdict: a.verdict,
        bit: a.bit,
        position: a.position,
        commands: a.commands,
        records: a.records,
    };
    put_numbers(text, numbers, list, pairs, bytes)
}
