// The first fault of a command: an undefined bit in one of its own words, else the first of the rules on values (crates/values) that
// it breaks.
#![tactic(auto)]

ghost use Rattle.std.specs.Prelude.{◌≡◌, cond, ◌<◌};
ghost use Rattle.rules.specs.Values.{refusal};
ghost use Rattle.table.specs.Tables.{row_count, group};
ghost use Rattle.values.specs.First.{found, no_refusal, refusal_or_none, first_of};
ghost use Rattle.faults.specs.Faults.{unless_defined, first_undefined, any_undefined, value_fault};

use masks::Tables;
use rules::{Reason, Refusal};
use table::Group;
use values::Faults;

// ---- undefined bits

// Refusal 6 of a word with an undefined bit, else the next refusal.
fn unless_defined(at: usize, word: u32, mask: u32, next: Option<Refusal>) -> Option<Refusal>
    ensures { refusal_or_none result ≡ unless_defined at word mask (refusal_or_none next) }
{
    if masks::undefined(word, mask) {
        return Some(Refusal {
            reason: Reason::UndefinedBit(masks::lowest_undefined(word, mask)),
            word: at,
        });
    }
    next
}

// A word of a group has an undefined bit.
pub fn undefined_bits(tables: &Tables, row: u8, g: Group) -> bool
    requires { row < row_count }
    ensures { result ≡ any_undefined row g }
{
    let a = masks::undefined(g.header, tables.mask(row, 0));
    let b = masks::undefined(g.second, tables.mask(row, 1));
    let c = masks::undefined(g.third, tables.mask(row, 2));
    let d = masks::undefined(g.fourth, tables.mask(row, 3));
    (a | b) | (c | d)
}

// Refusal 6 of the first word of a group that has an undefined bit. Only a refusal asks for it: a call, with the words one by one,
// so that `undefined_bits` looks at the four of them at once and no group is stored for each command that is decoded.
#[inline(never)]
pub fn undefined_fault(
    tables: &Tables,
    row: u8,
    header: u32,
    second: u32,
    third: u32,
    fourth: u32,
) -> Option<Refusal>
    requires { row < row_count }
    ensures { refusal_or_none result ≡ first_undefined row (group header second third fourth) no_refusal }
{
    let fourth = unless_defined(3, fourth, tables.mask(row, 3), None);
    let third = unless_defined(2, third, tables.mask(row, 2), fourth);
    let second = unless_defined(1, second, tables.mask(row, 1), third);
    unless_defined(0, header, tables.mask(row, 0), second)
}

// ---- illegal values and clashes

// A rule on values is broken; which one is asked only on refusal.
pub fn any(f: Faults) -> bool
    ensures { result ≡ found (first_of f) }
{
    ((f.first | f.second) | (f.third | f.fourth)) | f.clash.is_some()
}

// The same of a command that is no load and no primitive: window clip and raster mode have rules.
pub fn bad_other(id: u8, g: Group) -> bool
    requires { (id ≡ 0x40 → ⊥) × (id ≡ 0x48 → ⊥) }
    ensures { result ≡ found (value_fault id g) }
{
    match id {
        0x84 => any(values::clip_faults(g)),
        0x88 => any(values::raster_faults(g)),
        _ => false,
    }
}

// Refusal 7 of a word with an illegal value, else the next refusal.
fn unless_legal(at: usize, illegal: bool, next: Option<Refusal>) -> Option<Refusal>
    ensures { refusal_or_none result ≡ cond illegal (refusal 7 at) (refusal_or_none next) }
{
    if illegal {
        return Some(Refusal {
            reason: Reason::IllegalValue,
            word: at,
        });
    }
    next
}

// A clash is at the command's first word.
fn first(f: Faults) -> Option<Refusal>
    ensures { refusal_or_none result ≡ first_of f }
{
    let clash = f.clash.map(|reason| Refusal { reason, word: 0 });
    let fourth = unless_legal(3, f.fourth, clash);
    let third = unless_legal(2, f.third, fourth);
    let second = unless_legal(1, f.second, third);
    unless_legal(0, f.first, second)
}

// Refusals 7 and 15 to 19.
pub fn value_fault(id: u8, g: Group) -> Option<Refusal>
    ensures { refusal_or_none result ≡ value_fault id g }
{
    match id {
        0x40 => first(values::load_faults(g)),
        0x48 => first(values::primitive_faults(g)),
        0x84 => first(values::clip_faults(g)),
        0x88 => first(values::raster_faults(g)),
        _ => None,
    }
}
