// A table of sub-jobs as RFC 4180 text in, its deadlines as text out.
#![tactic(auto)]

ghost use Rattle.table.specs.Answers.{Tables, Counts};

mod reading;
mod records;
mod tabling;
mod writing;

// The deadlines of a table. The answer stands in the first bytes of the output, which has room for every answer: a
// header of 35 bytes and 128 lines of at most 56. The rest stays as it was. The second clause follows from the first; by
// it a caller lends the answer on.
pub fn table(text: &[u8], out: &mut [u8; 7203]) -> usize
    ensures tables { Tables text.now out.old result out.new }
    ensures counts { Counts result out.new }
{
    match reading::read(text) {
        Ok(records) => tabling::put_records(&records, out),
        Err(reason) => writing::put_refusal(out, reason),
    }
}
