// The lines of a listing.
#![tactic(auto)]

ghost use Rattle.text.specs.Wrote.{Wrote};
ghost use Rattle.lines.specs.Lines.{record_lines, counts_line, refused_line};

use text::Writer;

// A line for each record, by a format with a table of names.
pub fn put_records(writer: &mut Writer<'_>, table: &[u8], format: &[u8], records: &[u32])
    ensures { Wrote (record_lines table.now format.now records.now) writer.old writer.new }
{
    let mut rest = records;
    while let [id, position, words, header, ..] = rest {
        let id = *id as usize;
        let numbers = [
            *position as usize,
            id,
            *words as usize,
            *header as usize,
            id,
        ];
        format::put_format(writer, table, format, &numbers);
        rest = &rest[4..];
    }
}

// The counts of an accepted list.
pub fn put_counts(writer: &mut Writer<'_>, commands: usize, items: usize)
    ensures { Wrote (counts_line commands items) writer.old writer.new }
{
    format::put_format(
        writer,
        b"",
        b"accepted commands %d items %d\n",
        &[commands, items],
    );
}

pub fn put_refused(writer: &mut Writer<'_>, number: usize, position: usize)
    ensures { Wrote (refused_line number position) writer.old writer.new }
{
    format::put_format(writer, b"", b"refused %d at %d\n", &[number, position]);
}
