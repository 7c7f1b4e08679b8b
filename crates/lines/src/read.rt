// Reading lines. The first pass checks and writes nothing; the second fills a table with the numbers of lines that
// were found right. A place goes from one reader to the next as a number: a refusal is answered by it, and `num_at`,
// `line_at` and `lines_at` speak of it.
ghost use Rattle.std.specs.Prelude.{◌≡◌, get_or};
ghost use Rattle.lines.specs.Lines.{one_form_of};
ghost use Rattle.lines.specs.Reads.{begun_at, number_at, marked_at, numbers_at, key_at, line_at, lines_at};
ghost use Rattle.lines.specs.Reads.{refused_at_of, ended_of, one_of};
ghost use Rattle.lines.specs.Fills.{Fillable, FillableLines, Filled};

use super::form::{Form, Line, is_end, mark_after, one_form};
use decimals::{Number, Wrong, read_decimal};
use tables::label::{End, NOW};

// The byte at place i, or 0 past the end.
fn byte_at(text: &[u8], i: usize) -> u8
    ensures { result ≡ get_or text.now i 0 }
{
    text.get(i).copied().unwrap_or(0)
}

// How many of the first bytes of key stand at place at.
fn begun(text: &[u8], at: usize, key: &[u8]) -> usize
    ensures { result ≡ begun_at key.now text.now at }
{
    let rest = &text[at.min(text.len())..];
    let most = key.len().min(rest.len());
    for j in 0..most {
        if rest[j] != key[j] {
            return j;
        }
    }
    most
}

// The number at place at of a line of form f: an end, if last. Only 0 is below a form's least, and no number goes on
// from a 0.
#[tactic(auto, unfolding(crate::specs::Reads::number_at, crate::specs::Reads::at_least, crate::specs::Reads::or_now))]
fn read_number(text: &[u8], at: usize, f: Form, last: bool) -> Result<Number, Wrong>
    ensures { result ≡ number_at f last text.now at }
{
    if last {
        let k = begun(text, at, b"now");
        if k == 0 {
            return read_decimal(text, at, NOW - 1);
        }
        let after = at + k;
        if k == 3 {
            return Ok(Number {
                value: End::Current.instant(),
                after,
            });
        }
        return Err(Wrong { at: after });
    }
    let number = read_decimal(text, at, f.most)?;
    if f.least <= number.value {
        Ok(number)
    } else {
        Err(Wrong { at })
    }
}

// The number of a line of form f that `left` more follow, with the place after its mark. It is put in place where it is
// called: by a call for each number, read text took 1.15 to 1.55 of the time.
#[inline(always)]
#[tactic(auto, unfolding(crate::specs::Reads::marked))]
fn read_marked(text: &[u8], at: usize, f: Form, left: usize) -> Result<Number, Wrong>
    ensures { result ≡ marked_at f text.now left at }
{
    let Number { value, after } = read_number(text, at, f, is_end(f, left))?;
    if byte_at(text, after) == mark_after(left) {
        Ok(Number {
            value,
            after: after + 1,
        })
    } else {
        Err(Wrong { at: after })
    }
}

// The numbers of a line of form f, from place from on: the place after them.
fn check_numbers(text: &[u8], from: usize, f: Form) -> Result<usize, Wrong>
    ensures { result ≡ ended_of (numbers_at f text.now f.columns from) }
{
    let mut i = from;
    for left in (0..f.columns).rev() {
        i = read_marked(text, i, f, left)?.after;
    }
    Ok(i)
}

// The key at place at: the place after it.
fn read_key(text: &[u8], at: usize, key: &[u8]) -> Result<usize, Wrong>
    ensures { result ≡ key_at key.now text.now at }
{
    let k = begun(text, at, key);
    let after = at + k;
    if k == key.len() {
        Ok(after)
    } else {
        Err(Wrong { at: after })
    }
}

// A line with the key at place at: the place after it.
#[tactic(auto, unfolding(crate::specs::Reads::ended_of, crate::specs::Reads::line_at))]
fn check_line(text: &[u8], at: usize, line: &Line<'_>) -> Result<usize, Wrong>
    ensures { result ≡ ended_of (line_at line.now.key.now line.now.form text.now at) }
{
    let from = read_key(text, at, line.key)?;
    check_numbers(text, from, line.form)
}

// The place that is answered where the line that begins at place line is refused at a byte within it. That it is the
// line's, and not the byte's, is said here alone.
fn refused_at(line: usize, byte: usize) -> usize
    ensures { result ≡ refused_at_of line byte }
{
    line
}

// m lines with the key from place at on: the place after them.
pub fn check_lines(text: &[u8], at: usize, line: &Line<'_>, m: u32) -> Result<usize, Wrong>
    ensures { result ≡ ended_of (lines_at line.now.key.now line.now.form text.now m at) }
{
    let mut i = at;
    for _ in 0..m {
        i = check_line(text, i, line).map_err(|wrong| Wrong {
            at: refused_at(i, wrong.at),
        })?;
    }
    Ok(i)
}

// A line of one number at place at: the number, and the place after the line.
fn read_line(text: &[u8], at: usize, key: &[u8], least: u32, most: u32) -> Result<Number, Wrong>
    ensures { result ≡ one_of (line_at key.now (one_form_of least most) text.now at) }
{
    let from = read_key(text, at, key)?;
    read_marked(text, from, one_form(least, most), 0)
}

// The same, as lines are read.
pub fn read_one(text: &[u8], at: usize, key: &[u8], least: u32, most: u32) -> Result<Number, Wrong>
    ensures { result ≡ one_of (lines_at key.now (one_form_of least most) text.now 1 at) }
{
    read_line(text, at, key, least, most).map_err(|wrong| Wrong {
        at: refused_at(at, wrong.at),
    })
}

// Puts the numbers of a line that was found right into out from index base on, and returns the place after them.
fn fill_numbers(text: &[u8], from: usize, f: Form, out: &mut [u32], base: usize) -> usize
    requires { Fillable f text.now from out.old base }
    ensures { Filled (numbers_at f text.now f.columns from) out.old base
        out.new result }
{
    let mut i = from;
    for j in 0..f.columns {
        let Ok(number) = read_marked(text, i, f, f.columns - 1 - j) else {
            return i;
        };
        out[base + j] = number.value;
        i = number.after;
    }
    i
}

// Puts the rows of m lines that were found right into the front of out, and returns the place after the lines.
pub fn fill_lines(text: &[u8], at: usize, line: &Line<'_>, m: u32, out: &mut [u32]) -> usize
    requires { FillableLines line.now.key.now line.now.form text.now m at out.old }
    ensures { Filled (lines_at line.now.key.now line.now.form text.now m at)
        out.old 0 out.new result }
{
    let mut i = at;
    for row in 0..m as usize {
        let base = row * (line.form.columns + line.form.hidden);
        i = fill_numbers(text, i + line.key.len(), line.form, out, base);
    }
    i
}
