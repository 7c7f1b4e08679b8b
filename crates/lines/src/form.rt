// The form of a line, which is its numbers without its key; and a line, by both.
ghost use Rattle.std.specs.Prelude.{◌≡◌};
ghost use Rattle.lines.specs.Lines.{one_form_of, is_end_of, mark};

// How many numbers the line has, how many more a row of the table has, which lines leave out, whether the last is an
// end (a bool, since `number_text` and `number_at` take it so), and the bounds of the others.
#[derive(Clone, Copy)]
pub struct Form {
    pub columns: usize,
    pub hidden: usize,
    pub ended: bool,
    pub least: u32,
    pub most: u32,
}

// A line: its key, and the form of its numbers.
#[derive(Clone, Copy)]
pub struct Line<'a> {
    pub key: &'a [u8],
    pub form: Form,
}

pub fn one_form(least: u32, most: u32) -> Form
    ensures { result ≡ one_form_of least most }
{
    Form {
        columns: 1,
        hidden: 0,
        ended: false,
        least,
        most,
    }
}

// Whether the number that `left` more follow is an end.
pub fn is_end(f: Form, left: usize) -> bool
    ensures { result ≡ is_end_of f left }
{
    left == 0 && f.ended
}

// What stands after the number that `left` more follow.
pub fn mark_after(left: usize) -> u8
    ensures { result ≡ mark left }
{
    if left == 0 { b'\n' } else { b',' }
}
