// The functions that C and Rust call (xp10.h).
// stays: alike, each with lent slices and a number for a verdict: the C interface
#![tactic(auto)]

ghost use Rattle.std.specs.Prelude.{◌≡◌};
ghost use Rattle.rules.specs.Answer.{measuring};
ghost use Rattle.rules.specs.Pci.{to_pci, from_pci};
ghost use Rattle.rules.specs.Swap.{reading_in, normalising_in};
ghost use Rattle.rules.specs.Book.{finding_scene, writing_book};
ghost use Rattle.host.specs.Call.{written, answered, call, result_of, answer_result, scenes_read, place_result, book_result};

// The reader in a mode.
#[unsafe(no_mangle)]
pub extern "C" fn xp10_read(
    list: &[u32],
    image: &mut [u32],
    records: &mut [u32],
    answer: &mut [u32],
    mode: u32,
) -> u32
    ensures { call result image.new records.new answer.new ≡ result_of (reading_in list.now image.old records.old mode) answer.old }
{
    answer::write(swap::read(list, image, records, mode).into(), answer)
}

// The reader on several lists in turn.
#[unsafe(no_mangle)]
pub extern "C" fn xp10_read_scenes(
    words: &[u32],
    table: &[u32],
    image: &mut [u32],
    records: &mut [u32],
    answer: &mut [u32],
) -> u32
    ensures { call result image.new records.new answer.new ≡ scenes_read words.now table.now image.old records.old answer.old }
{
    answer::write_session(
        session::read_scenes(words, table, image, records).into(),
        answer,
    )
}

// The normaliser in a mode.
#[unsafe(no_mangle)]
pub extern "C" fn xp10_normalise(
    list: &[u32],
    image: &[u32],
    out: &mut [u32],
    answer: &mut [u32],
    mode: u32,
) -> u32
    ensures { call result image.now out.new answer.new ≡ result_of (normalising_in list.now image.now out.old mode) answer.old }
{
    answer::write(swap::normalise(list, image, out, mode).into(), answer)
}

// The room that the normal form takes.
#[unsafe(no_mangle)]
pub extern "C" fn xp10_measure(list: &[u32], image: &[u32], answer: &mut [u32]) -> u32
    ensures { answered result answer.new ≡ answer_result (measuring list.now image.now) answer.old }
{
    answer::write(form::measure(list, image).into(), answer)
}

// The list as PCI writes.
#[unsafe(no_mangle)]
pub extern "C" fn xp10_to_pci(
    list: &[u32],
    image: &[u32],
    pairs: &mut [u32],
    answer: &mut [u32],
) -> u32
    ensures { call result image.now pairs.new answer.new ≡ result_of (to_pci list.now image.now pairs.old) answer.old }
{
    answer::write(pci_writer::to_pci(list, image, pairs).into(), answer)
}

// PCI writes as the list.
#[unsafe(no_mangle)]
pub extern "C" fn xp10_from_pci(
    pairs: &[u32],
    image: &[u32],
    list: &mut [u32],
    answer: &mut [u32],
) -> u32
    ensures { call result image.now list.new answer.new ≡ result_of (from_pci pairs.now image.now list.old) answer.old }
{
    answer::write(pci_reader::from_pci(pairs, image, list).into(), answer)
}

// Where a scene of a book is.
#[unsafe(no_mangle)]
pub extern "C" fn xp10_find_scene(book: &[u32], number: u32, place: &mut [u32]) -> u32
    ensures { answered result place.new ≡ place_result (finding_scene book.now number) place.old }
{
    answer::write_place(book::find(book, number).into(), place)
}

// The book of a table's scenes.
#[unsafe(no_mangle)]
pub extern "C" fn xp10_write_book(
    table: &[u32],
    words: &[u32],
    book: &mut [u32],
    answer: &mut [u32],
) -> u32
    ensures { written result book.new answer.new ≡ book_result (writing_book table.now words.now book.old) answer.old }
{
    answer::write_book_answer(book::write_book(table, words, book).into(), answer)
}
