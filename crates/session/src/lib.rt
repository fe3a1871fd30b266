// Several lists in one call, over one image and one record buffer (document 02, Ticket 5).
//
// Each list is read by the reader's own call; here what its calls return is added up.
#![tactic(auto)]

ghost use Rattle.std.specs.Prelude.{◌≡◌, ◌≢◌, ◌≤◌, ◌↔◌, IsTrue, length};
ghost use Rattle.rules.specs.Session.{in_session, no_lists, added, pair_call, with_pair, reading_scenes, Bounded};
ghost use Rattle.rules.specs.Answer.{outcome};
ghost use Rattle.rules.specs.Returned.{answer_of, session_answer_of};
ghost use Rattle.session.specs.Call.{IsFew};

use rules::{Accepted, Reason, Refusal, Session};

const NO_LISTS: Session = Session {
    commands: 0,
    records: 0,
    words: 0,
    lists: 0,
    end: Ok(0),
};

// One call more. A list that is accepted is applied; of a refusal there is nothing to count.
fn add(s: Session, call: Result<Accepted, Refusal>) -> Session
    requires { Bounded (session_answer_of s) × IsFew (answer_of call) }
    ensures { session_answer_of result ≡ added (session_answer_of s) (answer_of call) }
{
    match call {
        Ok(a) => Session {
            commands: s.commands + a.commands,
            records: s.records + a.records,
            words: s.words + a.words,
            lists: s.lists + 1,
            end: Ok(a.position),
        },
        Err(f) => Session { end: Err(f), ..s },
    }
}

// The call for a pair behind so many lists: 20, or its list read.
fn read_pair(
    words: &[u32],
    start: u32,
    length: u32,
    lists: usize,
    image: &mut [u32],
    records: &mut [u32],
) -> Result<Accepted, Refusal>
    ensures { outcome (answer_of result) image.new records.new ≡ pair_call words.now start length lists image.old records.old }
{
    let first = words::wide(start);
    let end = first + words::wide(length);
    if (4096 <= lists) | (words.len() < end) {
        return Err(Refusal {
            reason: Reason::OutsideBuffer,
            word: 0,
        });
    }
    reader::read(&words[first..end], image, records)
}

// The call for the next pair, in the record room still left.
fn read_next(
    words: &[u32],
    start: u32,
    size: u32,
    image: &mut [u32],
    records: &mut [u32],
    s: Session,
) -> Session
    requires { Bounded (session_answer_of s) × (s.words ≤ length records.old) }
    ensures { in_session (session_answer_of result) image.new records.new ≡ with_pair words.now start size (in_session (session_answer_of s) image.old records.old) }
{
    let used = s.words;
    let call = read_pair(words, start, size, s.lists, image, &mut records[used..]);
    add(s, call)
}

// The last list is refused.
fn is_refused(s: Session) -> bool
    ensures { IsTrue result ↔ ((session_answer_of s).answer.verdict ≢ 0) }
{
    s.end.is_err()
}

// The lists of a table's pairs of start and length in turn, until one is refused.
pub fn read_scenes(words: &[u32], table: &[u32], image: &mut [u32], records: &mut [u32]) -> Session
    ensures { in_session (session_answer_of result) image.new records.new ≡ reading_scenes words.now table.now image.old records.old }
{
    let mut s = NO_LISTS;
    let (pairs, _) = table.as_chunks::<2>();
    for pair in pairs {
        let [start, size] = *pair;
        s = read_next(words, start, size, image, records, s);
        if is_refused(s) {
            return s;
        }
    }
    s
}
