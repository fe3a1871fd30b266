// The tables of text: a row on each line, behind a key of two bytes.
#![tactic(auto)]

ghost use Rattle.std.specs.Prelude.{◌≡◌, cond, ◌/◌, ◌%◌, ltb};
ghost use Rattle.text.specs.Text.{digit};
ghost use Rattle.text.specs.Wrote.{Wrote};
ghost use Rattle.names.specs.Names.{commands, refusals, refusal_row};

use text::Writer;

// The commands by their ids.
pub fn commands() -> &'static [u8; 413]
    ensures { result.now ≡ commands }
{
    b"00 flush
01 reset
02 timer threshold
03 PCI only
04 PCI only
05 trigger
08 BEGIN master
0c BEGIN 2D
10 BEGIN 3D
14 BEGIN flip
20 surface 0 control
21 surface 0 base
22 surface 1 control
23 surface 1 base
24 surface 2 control
25 surface 2 base
26 extended base
30 2D overflow base
31 2D overflow offset
40 LOAD_GP
48 primitive
84 window clip
88 raster mode
8c polygon offset
90 depth constants
c4 LOD bias enables
"
}

// The refusals by their numbers: what each means, and what to look at.
pub fn refusals() -> &'static [u8; 1588]
    ensures { result.now ≡ refusals }
{
    b" 1 more than 4,096 words - split the list
 2 the image has not 256 words - the caller's image, not the list
 3 unknown id - bits 31..24 of that word; often the command before has a wrong length
 4 id 03 or 04 - these go over PCI only, never in a list
 5 fewer than four words left for a group - the list was cut, or its last group
 6 undefined bit set - the bit that the answer names, the lowest one: it must be zero
 7 illegal value - load code, zero words of a load or primitive, bank 3 of a window clip
 9 payload cut short - the load's length, bits 8..0, counts groups of four words behind its own
10 follows a surface base and is no BEGIN - put the BEGIN right behind the base
12 programs only: bytes no multiple of four - the file was cut, or is no list
13 PCI writes only: not the address that the command asks for - the address; often a value is missing or the command before has a wrong length
14 PCI writes only: the pairs end inside a command - the writes were cut, or a load's length is too large
15 window clip: page maximum over the bank's limit - third word, bits 31..28: at most 15, 11 and 6 for banks 0, 1 and 2 (second word, bits 29..28)
16 window clip: page minimum against the maximum - third word: bits 15..12 (minimum) are at most bits 31..28 (maximum)
17 raster mode: raster bits - header bit 14 (always full page) may be set only with bit 22 (page-based rendering)
18 load: bit 23 - header bit 23 (float conversion) may be set only with code 5 in bits 22..20
19 load: plane range - header bits 18..10 (offset) and 8..0 (length): their sum is at most 8 with code 5
"
}

fn tens(number: usize) -> u8
    ensures { result ≡ cond (ltb number 10) 0x20 (digit (number / 10 % 10)) }
{
    if number < 10 {
        return b' ';
    }
    text::digit(number / 10 % 10)
}

// The row of a refusal.
// stays a number: what may not change, the number is the row's key in the text that is printed (`refusal_row`)
pub fn put_refusal(writer: &mut Writer<'_>, number: usize)
    ensures { Wrote (refusal_row number) writer.old writer.new }
{
    format::put_row(writer, refusals(), tens(number), text::digit(number % 10));
}
