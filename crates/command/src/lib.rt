// One command of a list: its size, and its decoding.
#![tactic(auto)]

ghost use Rattle.std.specs.Prelude.{◌≡◌, true, false, Ok, ◌+◌, ◌^◌, ◌<◌, ◌≤◌, length};
ghost use Rattle.rules.specs.Table.{row_of};
ghost use Rattle.rules.specs.Command.{payload, size_of};
ghost use Rattle.rules.specs.Values.{shift};
ghost use Rattle.rules.specs.Decode.{unknown};
ghost use Rattle.rules.specs.Returned.{number_of, bit_of, numbered_refusal, numbered};
ghost use Rattle.table.specs.Ids.{group_id};
ghost use Rattle.table.specs.Tables.{group, more};
ghost use Rattle.values.specs.First.{found};
ghost use Rattle.faults.specs.Faults.{value_fault};
ghost use Rattle.command.specs.View.{size_at, single_of, group_of, if_legal, KnownAt, Met, placed_group};

use masks::Tables;
use rules::{Reason, Refusal};
use source::Source;
use table::Group;

// A decoded command: its words with payload, and whether it is a setting, a BEGIN, a surface base.
#[derive(Clone, Copy)]
pub struct Command {
    pub words: usize,
    pub setting: bool,
    pub begin: bool,
    pub base: bool,
}

// ---- sizes

// The words behind a command's own, as these say.
pub fn payload(id: u8, g: Group) -> usize
    ensures { result ≡ payload id g.header (more g) }
{
    if id == 0x40 {
        return 4 * ((g.header % 512) as usize);
    }
    0
}

// The words of a command, payload included, by its own words: right for every id. Of a command of one word the others are not
// asked for.
pub fn size(id: u8, g: Group) -> usize
    ensures { result ≡ size_of g.header (more g) (row_of id) }
{
    if table::is_group(id) {
        return 4 + payload(id, g);
    }
    1
}

// The words of the command at a position, of one that is cut too.
pub fn size_at<S: Source>(buffer: &[u32], at: usize) -> usize
    requires { at < length (S.words buffer.now) }
    ensures { result ≡ size_at (S.words buffer.now) at }
{
    let w = S::word(buffer, at);
    let g = Group {
        header: words::header_of(w),
        second: source::word_or_zero::<S>(buffer, at + 1),
        third: source::word_or_zero::<S>(buffer, at + 2),
        fourth: source::word_or_zero::<S>(buffer, at + 3),
    };
    size(words::id_of(w), g)
}

// ---- decoding

// An id that the table does not have: refusal 3 or 4.
pub fn unknown(id: u8) -> Reason
    ensures number { number_of result ≡ unknown id }
    ensures bit { bit_of result ≡ 32 }
{
    if (id == 3) | (id == 4) {
        Reason::PciOnly
    } else {
        Reason::UnknownId
    }
}

// A command of one word, by its row. Only one of these is a surface base, and only a group a BEGIN: said here, it spares
// the walk a test a command.
pub fn single_command(row: u8) -> Command
    ensures { result ≡ single_of row }
{
    Command {
        words: 1,
        setting: (row == table::TIMER) | (table::EXTENDED_BASE <= row),
        begin: false,
        base: row == table::SURFACE_BASE,
    }
}

// A command of four words with its payload, by its row.
pub fn group_command(words: usize, row: u8) -> Command
    ensures { result ≡ group_of words row }
{
    Command {
        words,
        setting: table::WINDOW_CLIP <= row,
        begin: row == table::BEGIN,
        base: false,
    }
}

// The first rule on values that a group breaks: refusals 7 and 15 to 19. Its words come one by one: as a group they were stored for
// each command that is decoded, for the sake of a call that only a refusal makes.
fn refused_values(at: usize, id: u8, header: u32, second: u32, third: u32, fourth: u32) -> Refusal
    requires { (at + 4 < 2 ^ 64) × (found (value_fault id (group header second third fourth)) ≡ true) }
    ensures { numbered_refusal result ≡ shift at (value_fault id (group header second third fourth)) }
{
    let g = Group {
        header,
        second,
        third,
        fourth,
    };
    faults::value_fault(id, g).unwrap().behind(at)
}

// A primitive, of which only the null one is known, by its own words, which have no undefined bit.
// `at + 4 < 2 ^ 64`, here and in its neighbours, stays a clause: a type for such positions would be made for these three
pub fn primitive_command(at: usize, row: u8, g: Group) -> Result<Command, Refusal>
    requires { at + 4 < 2 ^ 64 }
    ensures { numbered result ≡ if_legal at 0x48 g (Ok (group_of 4 row)) }
{
    if faults::any(values::primitive_faults(g)) {
        return Err(refused_values(at, 0x48, g.header, g.second, g.third, g.fourth));
    }
    Ok(group_command(4, row))
}

// The same of a group that is no load and no primitive: BEGIN and the settings.
pub fn other_command(at: usize, id: u8, row: u8, g: Group) -> Result<Command, Refusal>
    requires { (at + 4 < 2 ^ 64) × (id ≡ 0x40 → ⊥) × (id ≡ 0x48 → ⊥) }
    ensures { numbered result ≡ if_legal at id g (Ok (group_of 4 row)) }
{
    if faults::bad_other(id, g) {
        return Err(refused_values(at, id, g.header, g.second, g.third, g.fourth));
    }
    Ok(group_command(4, row))
}

// The same of a load, with its payload: refusal 9 too.
fn load_command<S: Source>(buffer: &[u32], at: usize, row: u8, g: Group) -> Result<Command, Refusal>
    requires { at + 4 ≤ length (S.words buffer.now) }
    ensures { numbered result ≡ if_legal at 0x40 g (placed_group S.words S.placed buffer.now at 0x40 (payload 0x40 g.header (more g)) row) }
{
    if faults::any(values::load_faults(g)) {
        return Err(refused_values(at, 0x40, g.header, g.second, g.third, g.fourth));
    }
    let more = payload(0x40, g);
    if !S::payload_in_place(buffer, at + 4, more, 0x40) {
        return Err(Refusal {
            reason: Reason::PayloadCut,
            word: at,
        });
    }
    Ok(group_command(4 + more, row))
}

// A command of one word: refusal 6. Out of place, here and below, any refusal will do: 13 or 14 comes before it.
// the position, the id and the row stay parameters: `KnownAt` ties them to the words lent, which a struct would have to hold
pub fn decode_single<S: Source>(
    tables: &Tables,
    buffer: &[u32],
    at: usize,
    id: u8,
    row: u8,
) -> Result<Command, Refusal>
    requires { KnownAt (S.words buffer.now) at id row × (group_id id ≡ false) }
    ensures { Met S.words S.placed buffer.now at (numbered result) }
{
    let header = words::header_of(S::word(buffer, at));
    let mask = tables.mask(row, 0);
    if masks::undefined(header, mask) {
        return Err(Refusal {
            reason: Reason::UndefinedBit(masks::lowest_undefined(header, mask)),
            word: at,
        });
    }
    if !S::word_in_place(buffer, at, id) {
        return Err(Refusal {
            reason: Reason::WrongAddress,
            word: at,
        });
    }
    Ok(single_command(row))
}

// A command of four words and its payload: refusals 5, 6, 7, 15 to 19 and 9. Which is asked for first decides what the compiler
// inlines (docs/DECISIONS.md): measure a change.
pub fn decode_group<S: Source>(
    tables: &Tables,
    buffer: &[u32],
    at: usize,
    id: u8,
    row: u8,
) -> Result<Command, Refusal>
    requires { KnownAt (S.words buffer.now) at id row × (group_id id ≡ true) }
    ensures { Met S.words S.placed buffer.now at (numbered result) }
{
    if S::len(buffer) < at + 4 {
        return Err(Refusal {
            reason: Reason::GroupCut,
            word: at,
        });
    }
    let g = source::group_at::<S>(buffer, at);
    if faults::undefined_bits(tables, row, g) {
        let fault = faults::undefined_fault(tables, row, g.header, g.second, g.third, g.fourth);
        return Err(fault.unwrap().behind(at));
    }
    if !S::group_in_place(buffer, at, id) {
        return Err(Refusal {
            reason: Reason::WrongAddress,
            word: at,
        });
    }
    if id == 0x48 {
        return primitive_command(at, row, g);
    }
    if id == 0x40 {
        return load_command::<S>(buffer, at, row, g);
    }
    other_command(at, id, row, g)
}
