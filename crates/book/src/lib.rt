// A scene book (document 02, Ticket 8): scenes in one file, behind a table of contents.
//
// Each rule on contents goes over all entries before the next. None looks at a body.
#![tactic(auto)]

ghost use Rattle.std.specs.Prelude.{◌≡◌, true, false, cond, ◌||◌, ltb, ◌+◌, ◌*◌, ◌^◌, ◌≤◌, ◌<◌, length, MatchResult};
ghost use Rattle.std.proofs.lemmas.List.Edits.{sets};
ghost use Rattle.rules.specs.Book.{book_outcome, entries, rising, in_place, bodies_at, asked, finding_scene, look_up, stretch};
ghost use Rattle.rules.specs.Book.{in_buffer, writing_book};
ghost use Rattle.rules.specs.Returned.{scene_answer_of, told_of, book_answer_of};
ghost use Rattle.book.specs.Tables.{entry_of, entries_of, checked, book_size, size_or_fault, CanWrite, CanPut, with_scene, with_book};

use rules::{Entry, Reason, Scene};

// ---- the contents

fn entry_of(words: &[u32; 3]) -> Entry
    ensures value { result ≡ entry_of words.now }
    ensures fits { (result.start < 2 ^ 32) × (result.length < 2 ^ 32) }
{
    let [number, start, length] = *words;
    Entry {
        number,
        start: words::wide(start),
        length: words::wide(length),
    }
}

// Whether the numbers of some entries rise.
fn rises(entries: &[[u32; 3]]) -> bool
    ensures { result ≡ rising (entries_of entries.now) }
{
    entries.is_sorted_by(|e, next| e[0] < next[0])
}

// What is told where the first of some entries has its body out of place: the numbers come first.
fn misplaced(entries: &[[u32; 3]]) -> Reason
    ensures { result ≡ cond (rising (entries_of entries.now)) Reason.BodiesMisplaced Reason.NumbersFall }
{
    if rises(entries) {
        Reason::BodiesMisplaced
    } else {
        Reason::NumbersFall
    }
}

// The entries of a table, three words each.
#[derive(Clone, Copy)]
struct Contents<'a> {
    entries: &'a [[u32; 3]],
    ghost few: { length entries.now ≤ 256 },
}

impl<'a> Contents<'a> {
    // The first n entries that some words have.
    fn new(words: &'a [u32], n: usize) -> Result<Contents<'a>, Reason>
        ensures { let cut = ltb 256 n || ltb (length words.now) (3 * n) in
            MatchResult result (λ c. (cut ≡ false) × (length c.entries.now ≡ n) × (entries_of c.entries.now ≡ entries n words.now))
            (λ reason. (cut ≡ true) × (reason ≡ Reason.BadContents)) }
    {
        let (entries, _) = words.as_chunks::<3>();
        if 256 < n || entries.len() < n {
            return Err(Reason::BadContents);
        }
        Ok(Contents {
            entries: &entries[..n],
        })
    }

    // The fault of entries whose bodies go up to the end of a book. One pass asks for numbers and bodies: twice as many turns
    // of a loop would take longer, by up to a half.
    #[tactic(auto, using(crate::proofs::Entries::at_least_all))]
    fn check(self, end: usize) -> Result<(), Reason>
        ensures { let es = entries_of self.entry.entries.now in
            result ≡ checked (rising es) (in_place (bodies_at (length self.entry.entries.now)) end es) }
    {
        let mut at = 1 + 3 * self.entries.len();
        let mut least: usize = 0;
        for (k, words) in self.entries.iter().enumerate() {
            let e = entry_of(words);
            let number = words::wide(e.number);
            if number < least {
                return Err(Reason::NumbersFall);
            }
            let fits = (e.length <= 4096) & (e.start == at);
            if !fits {
                return Err(misplaced(&self.entries[k..]));
            }
            least = number + 1;
            at += e.length;
        }
        if at == end {
            Ok(())
        } else {
            Err(Reason::BodiesMisplaced)
        }
    }

    // The scene of a number, by halves.
    fn find(self, number: u32) -> Result<Scene, Reason>
        requires { rising (entries_of self.entries.now) ≡ true }
        ensures { scene_answer_of result ≡ look_up number (entries_of self.entry.entries.now) }
    {
        let k = self.entries.partition_point(|e| e[0] < number);
        let Some([found, start, length]) = self.entries.get(k) else {
            return Err(Reason::NoScene);
        };
        if *found != number {
            return Err(Reason::NoScene);
        }
        Ok(Scene {
            start: *start,
            length: *length,
        })
    }

    // The words of the book of these entries.
    #[tactic(auto, using(crate::proofs::Entries::entries_length))]
    fn book_size(self, words: usize) -> Result<usize, Reason>
        ensures { result ≡ size_or_fault words (entries_of self.entry.entries.now) }
    {
        let mut size = 1 + 3 * self.entries.len();
        for entry in self.entries {
            let e = entry_of(entry);
            let fits = (e.length <= 4096) & (e.start + e.length <= words);
            if !fits {
                return Err(Reason::BodiesMisplaced);
            }
            size += e.length;
        }
        Ok(size)
    }

    // The book of these entries' scenes, where it fits.
    #[tactic(auto, using(crate::proofs::Entries::entries_length))]
    fn write(self, words: &[u32], book: &mut [u32])
        requires { CanWrite (entries_of self.entries.now) words.now book.old }
        ensures { book.new ≡ with_book words.now (entries_of self.entry.entries.now) book.old }
    {
        let n = self.entries.len();
        book[0] = n as u32;
        let mut at = 1 + 3 * n;
        for (k, entry) in self.entries.iter().enumerate() {
            at = write_scene(entry_of(entry), words, 3 * k + 1, at, book);
        }
    }
}

// ---- the reader

// Where a scene's words are in the book.
pub fn find(book: &[u32], number: u32) -> Result<Scene, Reason>
    ensures { scene_answer_of result ≡ finding_scene book.now number }
{
    let [count, table @ ..] = book else {
        return Err(Reason::BadContents);
    };
    let contents = Contents::new(table, words::wide(*count))?;
    contents.check(book.len())?;
    contents.find(number)
}

// The scene's own stretch of the book.
pub fn find_words<'a>(book: &'a [u32], number: u32) -> Result<&'a [u32], Reason>
    ensures { told_of result ≡ asked book.now number }
{
    let scene = find(book, number)?;
    let start = words::wide(scene.start);
    let end = start + words::wide(scene.length);
    Ok(&book[start..end])
}

// The same, an empty stretch on refusal, and the verdict beside it.
// stays: what may not change, the form of document 02's Ticket 8, which hands back a stretch, "an empty one on refusal"
pub fn scene<'a>(book: &'a [u32], number: u32, verdict: &mut u32) -> &'a [u32]
    ensures result_value { result.now ≡ stretch book.now (finding_scene book.now number) }
    ensures verdict_value { verdict.new ≡ (finding_scene book.now number).verdict }
{
    match find_words(book, number) {
        Ok(words) => {
            *verdict = 0;
            words
        }
        Err(reason) => {
            *verdict = reason.number();
            &[]
        }
    }
}

// ---- the writer

// Words that have room from a position on. Stays: with `copy_from_slice` the static library asks for `memmove`, and empty scenes
// take 1.4 to 1.8 of the time.
#[tactic(auto, using(theory::proofs::Image::put_more))]
fn copy(words: &[u32], out: &mut [u32], at: usize)
    requires { at + length words.now ≤ length out.old }
    ensures { out.new ≡ sets out.old at words.now }
{
    for (i, word) in words.iter().enumerate() {
        out[at + i] = *word;
    }
}

// A scene's entry at word i of the book, and its body at a word. The answer is where the next one goes.
fn write_scene(e: Entry, words: &[u32], i: usize, at: usize, book: &mut [u32]) -> usize
    requires { CanPut e words.now i at book.old }
    ensures value { result ≡ at + e.length }
    ensures book_value { book.new ≡ with_scene words.now i at e book.old }
{
    book[i] = e.number;
    book[i + 1] = at as u32;
    book[i + 2] = e.length as u32;
    copy(&words[e.start..e.start + e.length], book, at);
    at + e.length
}

// The book of a table's scenes, over a buffer where its starts count, and the words written.
pub fn write_book(table: &[u32], words: &[u32], book: &mut [u32]) -> Result<usize, Reason>
    ensures { book_outcome (book_answer_of result) book.new ≡ writing_book table.now words.now book.old }
{
    let whole = table.len() % 3 == 0;
    if !whole {
        return Err(Reason::BadContents);
    }
    let contents = Contents::new(table, table.len() / 3)?;
    if !rises(contents.entries) {
        return Err(Reason::NumbersFall);
    }
    let size = contents.book_size(words.len())?;
    if book.len() < size {
        return Err(Reason::NoRoom);
    }
    contents.write(words, book);
    Ok(size)
}
