// Reading: from the bytes of a text to its records, or the reason for which the text is refused.
// Another field in a record: `fields` and `header` (specs/Format.antt), `row` and the header here, `Records`. The laws are
// over any number of fields.
ghost use Rattle.std.specs.Prelude.{◌≡◌, []};
ghost use Rattle.table.specs.Reading.{records_from, read};
ghost use Rattle.table.specs.Stores.{told};

use crate::records::Records;
use subjobs::Reason;

// The records from `at` on, line by line.
fn records_from(text: &[u8], at: usize) -> Result<Records, Reason>
    ensures { result ≡ told (records_from 128 [] text.now at) }
{
    let mut records = Records::new();
    let mut i = at;
    while i < text.len() {
        if 128 <= records.len() {
            return Err(Reason::TooMany);
        }
        let line = records.len() + 2;
        let mut row = [0u32; 6];
        i = text::reading::record_at(text, i, &mut row).ok_or(Reason::Malformed { line })?;
        records.push(&row);
    }
    Ok(records)
}

// A text is judged 10, then 11, then line by line.
pub(crate) fn read(text: &[u8]) -> Result<Records, Reason>
    ensures { result ≡ told (read text.now) }
{
    if 16_384 < text.len() {
        return Err(Reason::TextTooLong);
    }
    let header = b"job,subtask,release,execution,deadline,critical";
    let at = text::reading::after_line(text, header).ok_or(Reason::Header)?;
    records_from(text, at)
}
