// From the records to the output: the assignment's deadlines, the simulator's finishes, the lines.
ghost use Rattle.std.specs.Prelude.{◌≡◌, ◌≤◌, length};
ghost use Rattle.subjobs.specs.Sets.{subjobs_of, size};
ghost use Rattle.text.specs.Writing.{Wrote};
ghost use Rattle.table.specs.Answers.{tabled};

use crate::records::Records;
use crate::writing::{self, Accepted};
use edf::Totals;
use subjobs::Set;

// The output for a set: the refusal, or the lines of its deadlines and of a run in which every ask equals execution.
// `local` and `finishes` are room for the deadlines and the finishes.
fn put_set(set: &Set<'_>, local: &mut [u32], finishes: &mut [u32], out: &mut [u8]) -> usize
    requires deadlines { length local.old ≡ size (subjobs_of set.now) }
    requires finishes { length finishes.old ≡ size (subjobs_of set.now) }
    requires few { size (subjobs_of set.now) ≤ 128 }
    ensures { Wrote out.old 0 (tabled (subjobs_of set.now)) out.new result }
{
    match olda::assign(set, local) {
        Err(reason) => writing::put_refusal(out, reason),
        Ok(_) => {
            edf::simulate(
                set,
                local,
                set.executions,
                finishes,
                Totals { busy: 0, idle: 0 },
            );
            let at = text::writing::put_text(out, 0, b"job,subtask,deadline,finish,slack\r\n");
            let accepted = Accepted {
                set: *set,
                local,
                finishes,
            };
            accepted.put_lines(out, at)
        }
    }
}

// The output for the records of a table.
// Kept so: arrays of which a part is used, since the library has no heap.
pub(crate) fn put_records(records: &Records, out: &mut [u8]) -> usize
    ensures { Wrote out.old 0 (tabled records.now) out.new result }
{
    let n = records.len();
    let mut local = [0u32; 128];
    let mut finishes = [0u32; 128];
    put_set(&records.set(), &mut local[..n], &mut finishes[..n], out)
}
