// The masks: the defined bits of each word of a command, by the row of the table and the word; and the bits of a word that its
// mask does not define.
#![tactic(auto)]

ghost use Rattle.std.specs.Prelude.{◌≡◌, ◌<◌};
ghost use Rattle.rules.specs.Word.{lowest_undefined, undefined, LowestOrNone};
ghost use Rattle.table.specs.Tables.{row_count, row_number, row_table, mask_at, mask_table};

use rules::NO_BIT;
use table::ROWS;

// Four words to a row: a form that is fixed (docs/DECISIONS.md).
pub type Masks = [u32; ROWS as usize * 4];

// "The masks show the defined bits, first word's header first." A word that a row does not have has every bit.
const MASKS: Masks = [
    // 00 flush
    0x00FFFFFF, 0xFFFFFFFF, 0xFFFFFFFF, 0xFFFFFFFF,
    // 01 reset
    0x00000714, 0xFFFFFFFF, 0xFFFFFFFF, 0xFFFFFFFF,
    // 02 timer threshold
    0x00FFFFFF, 0xFFFFFFFF, 0xFFFFFFFF, 0xFFFFFFFF,
    // 05 trigger
    0x00FFFFFF, 0xFFFFFFFF, 0xFFFFFFFF, 0xFFFFFFFF,
    // 08 0C 10 14 BEGIN
    0x00FFFFFF, 0x803FFFFF, 0x0FFFFFFF, 0x00000000,
    // 20 22 24 surface control
    0x0000000F, 0xFFFFFFFF, 0xFFFFFFFF, 0xFFFFFFFF,
    // 21 23 25 surface base
    0x00FFFFFF, 0xFFFFFFFF, 0xFFFFFFFF, 0xFFFFFFFF,
    // 26 extended base
    0x008F8F8F, 0xFFFFFFFF, 0xFFFFFFFF, 0xFFFFFFFF,
    // 30 31 2D overflow
    0x00FFFFFF, 0xFFFFFFFF, 0xFFFFFFFF, 0xFFFFFFFF,
    // 40 LOAD_GP
    0x00F7FDFF, 0xFFFFFFFF, 0xFFFFFFFF, 0xFFFFFFFF,
    // 48 primitive
    0x00FFFFFF, 0xFFFFFFFF, 0xFFFFFFFF, 0xFFFFFFFF,
    // 84 window clip
    0x00FFFFFF, 0x3FFF0FFF, 0xFFFFFFFF, 0xFFFFFFFF,
    // 88 raster mode
    0x00E7FFFF, 0x00FFFFFF, 0x003FFFFF, 0x00FFFFFF,
    // 8C polygon offset
    0x00FFFFFF, 0xFFFFFFFF, 0xFFFFFFFF, 0xFFFFFFFF,
    // 90 depth constants
    0x00FFFFFF, 0x00FFFFFF, 0x0FFF0FFF, 0x0FFF0FFF,
    // C4 LOD bias enables
    0x00000000, 0xFFFFFFFF, 0xFFFFFFFF, 0xFFFFFFFF,
];

// The table of rows and the table of masks: made once for a whole list, and lent.
#[derive(Drop)]
pub struct Tables {
    rows: [u8; 256],
    masks: Masks,
    ghost rows_are: { rows ≡ row_table },
    ghost masks_are: { masks ≡ mask_table },
}

impl Tables {
    pub fn new() -> Self
        ensures { (result.rows ≡ row_table) × (result.masks ≡ mask_table) }
    {
        let mut rows = [table::UNKNOWN; 256];
        table::fill_rows(&mut rows);
        Tables { rows, masks: MASKS }
    }

    // The row of an id.
    pub fn row(&self, id: u8) -> u8
        ensures { result ≡ row_number id }
    {
        self.rows[id as usize]
    }

    // The mask of a word of a row's command.
    pub fn mask(&self, row: u8, word: usize) -> u32
        requires { (row < row_count) × (word < 4) }
        ensures { result ≡ mask_at row word }
    {
        self.masks[row as usize * 4 + word]
    }
}

// ---- undefined bits. Callers ask about a first word's header: so "id bits count as defined" (document 02, Ticket 6).

// A bit is set in the word that the mask does not define.
pub fn undefined(word: u32, mask: u32) -> bool
    ensures { result ≡ undefined word mask }
{
    word & !mask != 0
}

// The lowest such bit, 32 where there is none: "the mask's complement .., one test, and the language's own count of trailing
// zeros". The test is there for the reader: trailing zeros of 0 are 32.
// stays a number: what may not change, `LowestOrNone` is 32 where there is none
pub fn lowest_undefined(word: u32, mask: u32) -> u32
    ensures { (result ≡ lowest_undefined word mask) × LowestOrNone word mask result }
{
    let outside = word & !mask;
    if outside == 0 {
        return NO_BIT;
    }
    u32::trailing_zeros(outside)
}
