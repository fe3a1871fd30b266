// Texts with holes for numbers, and tables of text.
#![tactic(auto)]

ghost use Rattle.std.specs.Prelude.{◌≡◌};
ghost use Rattle.text.specs.Wrote.{Wrote};
ghost use Rattle.format.specs.Format.{line_of, table_row, hole, formatted};

use text::Writer;

// ---- tables

// What stands before the first line's end.
fn put_line(writer: &mut Writer<'_>, lines: &[u8])
    ensures { Wrote (line_of lines.now) writer.old writer.new }
{
    for byte in lines {
        if *byte == b'\n' {
            return;
        }
        writer.put(*byte);
    }
}

// What stands behind a key of two bytes at a line's start: nothing where no line has it.
// stays: a table is the text that help prints, and a row is looked for in it; a `split` into lines takes a newline in the
// key for none, and `row_from` does not
fn behind_key<'a>(table: &'a [u8], a: u8, b: u8) -> &'a [u8]
    ensures { line_of result.now ≡ table_row table.now a b }
{
    let mut rest = table;
    let mut fresh = true;
    while let [first, second, ..] = rest {
        if (fresh & (*first == a)) & (*second == b) {
            return &rest[2..];
        }
        fresh = *first == b'\n';
        rest = &rest[1..];
    }
    &[]
}

// What stands behind a key of two bytes, to the end of its line.
pub fn put_row(writer: &mut Writer<'_>, table: &[u8], a: u8, b: u8)
    ensures { Wrote (table_row table.now a b) writer.old writer.new }
{
    put_line(writer, behind_key(table, a, b));
}

// ---- formats

fn put_hole(writer: &mut Writer<'_>, table: &[u8], kind: u8, n: usize)
    ensures { Wrote (hole table.now kind n) writer.old writer.new }
{
    match kind {
        b'd' => writer.put_decimal(n),
        b'n' => put_row(writer, table, text::digit(n / 16 % 16), text::digit(n % 16)),
        _ => writer.put_hex((kind % 16) as usize, n),
    }
}

// The format with the numbers in its holes.
pub fn put_format(writer: &mut Writer<'_>, table: &[u8], format: &[u8], numbers: &[usize])
    ensures { Wrote (formatted table.now format.now numbers.now) writer.old writer.new }
{
    let [n, others @ ..] = numbers else {
        return writer.put_all(format);
    };
    let [byte, kind, ..] = format else {
        return writer.put_all(format);
    };
    if *byte == b'%' {
        put_hole(writer, table, *kind, *n);
        put_format(writer, table, &format[2..], others);
    } else {
        writer.put(*byte);
        put_format(writer, table, &format[1..], numbers);
    }
}
