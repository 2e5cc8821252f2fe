// Reading: the numbers of a record, from a place of a text on.
// Kept so: text and place are two parameters, since `Recorded`, the public clause of `record_at`, and with it `OneRecord` of
// the promises go by the place of a byte.
ghost use Rattle.std.specs.Prelude.{◌<◌, ◌≡◌, cond, drop, length, take};
ghost use Rattle.std.specs.List.{prefix_len, take_while};
ghost use Rattle.std.specs.Char.{is_ascii_digit};
ghost use Rattle.text.specs.Format.{value};
ghost use Rattle.text.specs.Reading.{number_at, followed, field_at, line_end, after_line, Recorded};

// The value of the digits that a text begins with, up to 11 of them, and how many they are.
// Kept so: one loop for both, and over a count that is known, so that the compiler lays each turn out: `take_while` and
// `count`, with a second loop for the value, took twice the time of a record, one loop over the bytes a third more. Not
// inlined: with it the readers above are built so that a table's records are cleared four times.
#[inline(never)]
fn leading_digits(text: &[u8]) -> (u64, usize)
    ensures value { result.0 ≡ value (take_while is_ascii_digit (take 11 text.now)) }
    ensures count { result.1 ≡ prefix_len is_ascii_digit (take 11 text.now) }
{
    let mut value: u64 = 0;
    for count in 0..11 {
        let Some(byte) = text.get(count) else {
            return (value, count);
        };
        if !byte.is_ascii_digit() {
            return (value, count);
        }
        value = value * 10 + u64::from(*byte - b'0');
    }
    (value, 11)
}

// The number that begins at `at`, 1 to 10 digits, and where its text ends.
fn number_at(text: &[u8], at: usize) -> Option<(u32, usize)>
    ensures { result ≡ number_at text.now at }
{
    let rest = text.get(at..)?;
    // An 11th digit is one too many, however many follow it.
    let (value, count) = leading_digits(rest);
    if !(1..=10).contains(&count) {
        return None;
    }
    Some((u32::try_from(value).ok()?, at + count))
}

// The same number, if this byte stands behind it. Past the end of a text stands none.
fn followed(text: &[u8], b: u8, cell: Option<(u32, usize)>) -> Option<(u32, usize)>
    requires { 0 < b }
    ensures { result ≡ followed text.now b cell }
{
    let (value, next) = cell?;
    if text.get(next) != Some(&b) {
        return None;
    }
    Some((value, next + 1))
}

// A field: a number, bare or in double quotes.
fn field_at(text: &[u8], at: usize) -> Option<(u32, usize)>
    ensures { result ≡ field_at text.now at }
{
    if text.get(at) == Some(&b'"') {
        followed(text, b'"', number_at(text, at + 1))
    } else {
        number_at(text, at)
    }
}

// A field of a record: with the comma behind it, if it is not the last.
fn cell_at(text: &[u8], at: usize, last: bool) -> Option<(u32, usize)>
    ensures { result ≡ cond last (field_at text.now at) (followed text.now 44 (field_at text.now at)) }
{
    let field = field_at(text, at);
    if last {
        field
    } else {
        followed(text, b',', field)
    }
}

// Where the next line begins, if a line ends at `at`.
fn line_end(text: &[u8], at: usize) -> Option<usize>
    ensures { result ≡ line_end text.now at }
{
    if text.len() <= at {
        Some(at)
    } else if text[at..].starts_with(b"\r\n") {
        Some(at + 2)
    } else {
        None
    }
}

// A record: as many fields as `out` has places, parted by commas, and the line's end. It answers where the next line
// begins. From a malformed field on nothing is read, and `out` stays as it was. A text may be handed on whole or line by
// line.
pub fn record_at(text: &[u8], at: usize, out: &mut [u32]) -> Option<usize>
    ensures { Recorded text.now at out.old result out.new }
{
    let mut i = at;
    for k in 0..out.len() {
        let (value, next) = cell_at(text, i, k + 1 == out.len())?;
        out[k] = value;
        i = next;
    }
    line_end(text, i)
}

// Where the second line begins, if the first is this word.
pub fn after_line(text: &[u8], word: &[u8]) -> Option<usize>
    ensures { result ≡ after_line word.now text.now }
{
    if text.starts_with(word) {
        line_end(text, word.len())
    } else {
        None
    }
}
