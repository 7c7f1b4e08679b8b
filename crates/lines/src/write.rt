// Writing lines, and how many bytes they have: a writer counts first, so that a refusal writes nothing. A place goes
// from one writer to the next as a number, since `Put` speaks of it.
ghost use Rattle.std.specs.Prelude.{◌≡◌, ◌+◌, ◌*◌, ◌≤◌, length};
ghost use Rattle.ground.specs.Stores.{Put};
ghost use Rattle.lines.specs.Lines.{end_text, number_text, numbers_from, one_line, lines_text};
ghost use Rattle.lines.specs.Sizes.{Long, most_key, most_number, most_line, Countable, CountableLines, Writable};
ghost use Rattle.lines.specs.Sizes.{WritableLines};

use super::form::{Form, Line, is_end, mark_after, one_form};
use decimals::{decimal_width, write_decimal};
use tables::label::{End, NOW};
use tables::lent::Table;

// Puts the bytes at place at, and returns the place after them; by a loop, since `copy_from_slice` calls memcpy, and
// memset is all that the library may call of C's.
pub fn put(out: &mut [u8], at: usize, bytes: &[u8]) -> usize
    requires { at + length bytes.now ≤ length out.old }
    ensures { Put out.old at bytes.now out.new result }
{
    for (j, &byte) in bytes.iter().enumerate() {
        out[at + j] = byte;
    }
    at + bytes.len()
}

// What the number v of a line is written as: an end, if last; any other number is finite.
#[tactic(auto, using(crate::proofs::WriteLaws::number_end, crate::proofs::WriteLaws::number_finite))]
fn written_as(v: u32, last: bool) -> End
    ensures { number_text last v ≡ end_text result }
{
    if last { End::from(v) } else { End::At(v) }
}

// Puts a number of a line at place at: an end, if last.
fn write_number(out: &mut [u8], at: usize, v: u32, last: bool) -> usize
    requires { at + length (number_text last v) ≤ length out.old }
    ensures { Put out.old at (number_text last v) out.new result }
{
    match written_as(v, last) {
        End::Current => put(out, at, b"now"),
        End::At(t) => write_decimal(out, at, t),
    }
}

// Puts the numbers of a line of form f at place at: those of table from index base on.
#[tactic(auto, using(crate::proofs::WriteLaws::write_fits))]
fn write_numbers(out: &mut [u8], at: usize, f: Form, table: &[u32], base: usize) -> usize
    requires { Writable f table.now base out.old at }
    ensures { Put out.old at (numbers_from f table.now base) out.new result }
{
    let mut i = at;
    for j in 0..f.columns {
        let left = f.columns - 1 - j;
        i = write_number(out, i, table[base + j], is_end(f, left));
        out[i] = mark_after(left);
        i += 1;
    }
    i
}

// Puts m lines with the key at place at, of the numbers of table.
pub fn write_lines(out: &mut [u8], at: usize, line: &Line<'_>, table: &Table<'_>) -> usize
    requires { WritableLines line.now.key.now line.now.form table.now.numbers table.now.count out.old at }
    ensures { Put out.old at (lines_text line.now.key.now line.now.form table.now.count table.now.numbers)
        out.new result }
{
    let numbers = table.numbers;
    let count = table.count;
    let mut i = at;
    for row in 0..count {
        i = put(out, i, line.key);
        let base = row * (line.form.columns + line.form.hidden);
        i = write_numbers(out, i, line.form, numbers, base);
    }
    i
}

// Puts a line of one number at place at.
pub fn write_one(out: &mut [u8], at: usize, key: &[u8], v: u32) -> usize
    requires { at + length (one_line key.now v) ≤ length out.old }
    ensures { Put out.old at (one_line key.now v) out.new result }
{
    let one = [v];
    let i = put(out, at, key);
    write_numbers(out, i, one_form(0, NOW), &one, 0)
}

// How many bytes a number of a line has: an end, if last.
fn number_len(v: u32, last: bool) -> usize
    ensures { Long (number_text last v) most_number result }
{
    match written_as(v, last) {
        End::Current => 3,
        End::At(t) => decimal_width(t),
    }
}

// How many bytes the numbers of a line have, with their marks.
fn numbers_len(f: Form, table: &[u32], base: usize) -> usize
    requires { Countable f table.now base }
    ensures { Long (numbers_from f table.now base) (f.columns * (most_number + 1)) result }
{
    let mut sum = 0;
    for j in 0..f.columns {
        sum += number_len(table[base + j], is_end(f, f.columns - 1 - j)) + 1;
    }
    sum
}

// How many bytes m lines with the key have.
pub fn lines_len(line: &Line<'_>, table: &Table<'_>) -> usize
    requires { CountableLines line.now.key.now line.now.form table.now.numbers table.now.count }
    ensures { Long (lines_text line.now.key.now line.now.form table.now.count table.now.numbers)
        (table.now.count * most_line) result }
{
    let numbers = table.numbers;
    let count = table.count;
    let mut sum = 0;
    for row in 0..count {
        let base = row * (line.form.columns + line.form.hidden);
        sum += line.key.len() + numbers_len(line.form, numbers, base);
    }
    sum
}

// How many bytes a line of one number has.
pub fn one_len(key: &[u8], v: u32) -> usize
    requires { length key.now ≤ most_key }
    ensures { Long (one_line key.now v) most_line result }
{
    let one = [v];
    key.len() + numbers_len(one_form(0, NOW), &one, 0)
}
