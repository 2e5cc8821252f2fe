// Writing: text put into a list of bytes from a place on, as much of it as there is room for. Each function answers the
// place behind what it wrote.
// Kept so: list and place are two parameters; a struct that holds the lent list needs one more clause per function,
// that it still is the caller's.
ghost use Rattle.std.specs.Prelude.{cond, [], ◌∷◌, ◌++◌};
ghost use Rattle.text.specs.Writing.{figures, decimal, crlf, line_text, Wrote};

fn put_byte(out: &mut [u8], at: usize, b: u8) -> usize
    ensures { Wrote out.old at (b ∷ []) out.new result }
{
    if at < out.len() {
        out[at] = b;
        at + 1
    } else {
        at
    }
}

// A word.
pub fn put_text(out: &mut [u8], at: usize, word: &[u8]) -> usize
    ensures { Wrote out.old at word.now out.new result }
{
    let mut end = at;
    for b in word {
        end = put_byte(out, end, *b);
    }
    end
}

// A number of at most `places` digits.
// Kept so: std prints a number into a formatter, and one that writes to this list is longer than these two cases.
fn put_figures(out: &mut [u8], at: usize, x: u32, places: usize) -> usize
    ensures { Wrote out.old at (figures places x) out.new result }
{
    if places == 0 {
        at
    } else if x < 10 {
        put_byte(out, at, b'0' + (x as u8))
    } else {
        let end = put_figures(out, at, x / 10, places - 1);
        put_byte(out, end, b'0' + ((x % 10) as u8))
    }
}

// A field of a record: with the comma behind it, or the line's end if it is the last.
fn put_cell(out: &mut [u8], at: usize, x: u32, last: bool) -> usize
    ensures { Wrote out.old at (decimal x ++ cond last crlf (44 ∷ [])) out.new result }
{
    let end = put_figures(out, at, x, 10);
    if last {
        put_text(out, end, b"\r\n")
    } else {
        put_byte(out, end, b',')
    }
}

// The line of a record.
pub fn put_record(out: &mut [u8], at: usize, values: &[u32]) -> usize
    ensures { Wrote out.old at (line_text values.now) out.new result }
{
    let mut end = at;
    for (i, x) in values.iter().enumerate() {
        end = put_cell(out, end, *x, i + 1 == values.len());
    }
    end
}
