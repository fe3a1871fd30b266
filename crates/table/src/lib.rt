// The table of commands: its rows, and the sets of ids.
//
// The table of rows is made once for a whole list and lent: a `const` array is built again at each use.
#![tactic(auto)]

ghost use Rattle.std.specs.Prelude.{◌≡◌, ◌<◌, replicate};
ghost use Rattle.table.specs.Ids.{in_set, begin_id, kept_id, setting_kind, setting_id, group_id};
ghost use Rattle.table.specs.Tables.{row_count, row_number, row_table};

// The own words of a command of four words: the header, and the next three words.
#[derive(Clone, Copy)]
pub struct Group {
    pub header: u32,
    pub second: u32,
    pub third: u32,
    pub fourth: u32,
}

// ---- rows

// The rows of document 01's table have numbers, from 0 on in its order. Those that are asked for by number:
// stay numbers: rows index the constant table of masks, a form that is fixed (docs/DECISIONS.md), and two tests go by their order
pub const TIMER: u8 = 2;

pub const BEGIN: u8 = 4;

pub const SURFACE_BASE: u8 = 6;

pub const EXTENDED_BASE: u8 = 7;

// The first setting of four words: all rows behind it are such.
pub const WINDOW_CLIP: u8 = 11;

// How many rows there are.
pub const ROWS: u8 = 16;

// The row of an id that the table does not have.
pub const UNKNOWN: u8 = ROWS;

// The row of each id, in a table where all are unknown. The caller has the table: returned from here, the compiler would
// store it in many small pieces.
pub fn fill_rows(rows: &mut [u8; 256])
    requires { rows.old ≡ replicate 256 row_count }
    ensures { rows.new ≡ row_table }
{
    rows[0x00] = 0;
    rows[0x01] = 1;
    rows[0x02] = 2;
    rows[0x05] = 3;
    rows[0x08] = 4;
    rows[0x0C] = 4;
    rows[0x10] = 4;
    rows[0x14] = 4;
    rows[0x20] = 5;
    rows[0x22] = 5;
    rows[0x24] = 5;
    rows[0x21] = 6;
    rows[0x23] = 6;
    rows[0x25] = 6;
    rows[0x26] = 7;
    rows[0x30] = 8;
    rows[0x31] = 8;
    rows[0x40] = 9;
    rows[0x48] = 10;
    rows[0x84] = 11;
    rows[0x88] = 12;
    rows[0x8C] = 13;
    rows[0x90] = 14;
    rows[0xC4] = 15;
}

// ---- ids: each function is right for every id, unknown ones included

// An id of a set of ids that are multiples of four: bit n of the set is id 4n.
fn in_set(set: u64, id: u8) -> bool
    ensures { result ≡ in_set set id }
{
    if id % 4 != 0 {
        return false;
    }
    (set >> ((id / 4) as u32)) % 2 == 1
}

// The set of the settings' ids, by kind: none of them, one of one word, or one of four.
// stay constants: kinds as associated constants, and `contains` without a self, are a form that is fixed (docs/DECISIONS.md)
#[derive(Clone, Copy)]
pub struct Settings {}

impl Settings {
    pub const NONE: u32 = 0;

    pub const SINGLE: u32 = 1;

    pub const GROUP: u32 = 2;

    // 84, 88, 8C, 90 and C4, as the bits 33 to 36 and 49.
    const GROUPS: u64 = 0x0002001E00000000;

    pub fn kind(id: u8) -> u32
        ensures { result ≡ setting_kind id }
    {
        if in_set(Settings::GROUPS, id) {
            return Settings::GROUP;
        }
        if ((id == 0x02) | (id == 0x26)) | ((id == 0x30) | (id == 0x31)) {
            return Settings::SINGLE;
        }
        Settings::NONE
    }

    pub fn contains(id: u8) -> bool
        ensures { result ≡ setting_id id }
    {
        Settings::kind(id) != Settings::NONE
    }
}

// The groups that are work: the four BEGIN, LOAD_GP and the primitive.
const WORK_GROUPS: u64 = 0x000000000005003C;

const GROUPS: u64 = WORK_GROUPS + Settings::GROUPS;

// An id whose command has four words of its own.
pub fn is_group(id: u8) -> bool
    ensures { result ≡ group_id id }
{
    in_set(GROUPS, id)
}

// The same of a known id with its row, a faster test: the known ids from 40 on and BEGIN.
pub fn is_known_group(id: u8, row: u8) -> bool
    requires { (row ≡ row_number id) × (row < row_count) }
    ensures { result ≡ group_id id }
{
    (0x40 <= id) | (row == BEGIN)
}

pub fn is_begin(id: u8) -> bool
    ensures { result ≡ begin_id id }
{
    ((id == 0x08) | (id == 0x0C)) | ((id == 0x10) | (id == 0x14))
}

// 05, the four BEGIN and 20 to 25: bit n is id n.
const KEPT: u64 = 0x0000003F00111120;

// An id of a work command that leaves its header in the image.
pub fn keeps_header(id: u8) -> bool
    ensures { result ≡ kept_id id }
{
    let bit = (KEPT >> ((id % 64) as u32)) % 2 == 1;
    (id < 64) & bit
}
