// The reader and the normaliser on boards that swap bytes (document 02, Ticket 7).
//
// In mode 0 the list itself is read. In modes 1 to 3 it is swapped once, into the smallest of three arrays on the stack that
// holds it, and that is read: nothing below knows of modes.
#![tactic(auto)]

ghost use Rattle.std.specs.Prelude.{◌≡◌, ◌≤◌, length};
ghost use Rattle.rules.specs.Answer.{outcome, reading, normalising};
ghost use Rattle.rules.specs.Returned.{answer_of};
ghost use Rattle.rules.specs.Swap.{swap, words_got, reading_in, normalising_in};
ghost use Rattle.swap.specs.Mode.{mode_number, Decodes};

use endian::little_endian;
use rules::{Accepted, Reason, Refusal};

// How a board swaps the bytes of a word (CommandSwap, 001, 3.1.3).
#[derive(Clone, Copy)]
enum Mode {
    Unchanged,
    BytesInHalves,
    Halves,
    AllBytes,
}

impl TryFrom<u32> for Mode {
    type Error = Refusal;

    ghost try_from_gives = { Decodes };

    fn try_from(number: u32) -> Result<Self, Refusal> {
        match number {
            0 => Ok(Mode::Unchanged),
            1 => Ok(Mode::BytesInHalves),
            2 => Ok(Mode::Halves),
            3 => Ok(Mode::AllBytes),
            _ => Err(Refusal {
                reason: Reason::NoSuchMode,
                word: 0,
            }),
        }
    }
}

impl Mode {
    // The word got.
    #[tactic(auto, unfolding(rules::specs::Swap::swap))]
    fn swap(self, word: u32) -> u32
        ensures { result ≡ swap (mode_number self) word }
    {
        let [a, b, c, d] = word.to_le_bytes();
        match self {
            Mode::Unchanged => word,
            Mode::BytesInHalves => little_endian(b, a, d, c),
            Mode::Halves => little_endian(c, d, a, b),
            Mode::AllBytes => little_endian(d, c, b, a),
        }
    }
}

// The words got from a list go to the front of the room, and that part is handed back.
fn words_got<'a>(list: &[u32], room: &'a mut [u32], mode: Mode) -> &'a [u32]
    requires { length list.now ≤ length room.old }
    ensures { result.now ≡ words_got (mode_number mode) list.now }
{
    for (i, word) in list.iter().enumerate() {
        room[i] = mode.swap(*word);
    }
    let all = &room[..];
    &all[..list.len()]
}

// The reader on the words got, in room for N of them.
// stays apart from `normalise_got`: tried, one function that takes the call as a closure, but its proof does not close: what a
// closure's captured `&mut` holds after the call, its caller does not know
fn read_got<const N: usize>(
    list: &[u32],
    image: &mut [u32],
    records: &mut [u32],
    mode: Mode,
) -> Result<Accepted, Refusal>
    requires { (length list.now ≤ N) × (N ≤ 4096) }
    ensures { outcome (answer_of result) image.new records.new ≡ reading (words_got (mode_number mode) list.now) image.old records.old }
{
    let mut room = [0u32; N];
    reader::read(words_got(list, &mut room, mode), image, records)
}

// The reader in a mode. A list that is too long is refused by its length, and its words are not got.
#[tactic(auto, using(crate::proofs::Calls::in_numbered))]
pub fn read(
    list: &[u32],
    image: &mut [u32],
    records: &mut [u32],
    mode: u32,
) -> Result<Accepted, Refusal>
    ensures { outcome (answer_of result) image.new records.new ≡ reading_in list.now image.old records.old mode }
{
    let mode = Mode::try_from(mode)?;
    if let Mode::Unchanged = mode {
        return reader::read(list, image, records);
    }
    match list.len() {
        0..=64 => read_got::<64>(list, image, records, mode),
        65..=512 => read_got::<512>(list, image, records, mode),
        513..=4096 => read_got::<4096>(list, image, records, mode),
        _ => reader::read(list, image, records),
    }
}

// The normaliser on the words got, in room for N of them.
fn normalise_got<const N: usize>(
    list: &[u32],
    image: &[u32],
    out: &mut [u32],
    mode: Mode,
) -> Result<Accepted, Refusal>
    requires { (length list.now ≤ N) × (N ≤ 4096) }
    ensures { outcome (answer_of result) image.now out.new ≡ normalising (words_got (mode_number mode) list.now) image.now out.old }
{
    let mut room = [0u32; N];
    form::normalise(words_got(list, &mut room, mode), image, out)
}

// The normaliser in a mode.
#[tactic(auto, using(crate::proofs::Calls::in_numbered))]
pub fn normalise(
    list: &[u32],
    image: &[u32],
    out: &mut [u32],
    mode: u32,
) -> Result<Accepted, Refusal>
    ensures { outcome (answer_of result) image.now out.new ≡ normalising_in list.now image.now out.old mode }
{
    let mode = Mode::try_from(mode)?;
    if let Mode::Unchanged = mode {
        return form::normalise(list, image, out);
    }
    match list.len() {
        0..=64 => normalise_got::<64>(list, image, out, mode),
        65..=512 => normalise_got::<512>(list, image, out, mode),
        513..=4096 => normalise_got::<4096>(list, image, out, mode),
        _ => form::normalise(list, image, out),
    }
}
