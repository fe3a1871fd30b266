// The listing of a command list, as text in a lent buffer.
#![tactic(auto)]

ghost use Rattle.std.specs.Prelude.{◌≡◌, ◌≤◌, length, take};
ghost use Rattle.std.proofs.lemmas.List.Edits.{sets};
ghost use Rattle.rules.specs.Answer.{reading};
ghost use Rattle.rules.specs.Returned.{number_of, answer_of};
ghost use Rattle.text.specs.Puts.{Puts};
ghost use Rattle.text.specs.Wrote.{Wrote};
ghost use Rattle.lines.specs.Lines.{refused_line};
ghost use Rattle.report.specs.Listing.{words_read, listed, printing, printed};
ghost use Rattle.report.specs.Prints.{Prints};

use rules::{Accepted, Reason, Refusal};
use text::Writer;

fn put_refused(text: &mut [u8], reason: Reason, word: usize) -> usize
    ensures { Puts (refused_line (number_of reason) word) text.old 0 text.new result }
{
    let mut writer = Writer::new(text, 0);
    lines::put_refused(&mut writer, reason.number() as usize, word);
    writer.position()
}

// The listing of an answer, from the buffer that the records were written to.
#[tactic(auto, unfolding(crate::specs::Listing::listed))]
fn put_answer(writer: &mut Writer<'_>, answer: Result<Accepted, Refusal>, records: &[u32])
    requires { (answer_of answer).words ≤ length records.now }
    ensures { Wrote (listed (answer_of answer) (take (answer_of answer).words records.now)) writer.old writer.new }
{
    match answer {
        Err(refusal) => {
            lines::put_refused(writer, refusal.reason.number() as usize, refusal.word);
        }
        Ok(a) => {
            writer.put_all(b"at id words head\n");
            lines::put_records(writer, b"", b"%d %2 %d %6\n", &records[..a.words]);
            lines::put_counts(writer, a.commands, a.records);
        }
    }
}

// The listing of a list, from an image.
fn put_list(text: &mut [u8], list: &[u32], image: &mut [u32], records: &mut [u32]) -> usize
    ensures { Prints (reading list.now image.old records.old) image.new records.new text.old text.new result }
{
    let answer = reader::read(list, image, records);
    let mut writer = Writer::new(text, 0);
    put_answer(&mut writer, answer, records);
    writer.position()
}

// The listing of the list in some bytes, from an image. It answers the listing's length, at most 82,003 bytes; what does
// not fit in `text` is left out.
pub fn listing(
    input: &[u8],
    words: &mut [u32; 4096],
    image: &mut [u32; 256],
    records: &mut [u32; 16384],
    text: &mut [u8],
) -> usize
    ensures words_value { words.new ≡ sets words.old 0 (words_read input.now) }
    ensures text_value { printing result image.new records.new text.new ≡ printed input.now image.old records.old text.old }
    ensures upper_bound { result ≤ 82003 }
{
    if 16384 < input.len() {
        return put_refused(text, Reason::TooManyWords, 4096);
    }
    if input.len() % 4 != 0 {
        return put_refused(text, Reason::BrokenWord, input.len() / 4);
    }
    endian::load(input, words);
    put_list(text, &words[..input.len() / 4], image, records)
}
