// Writing: the lines of an accepted set and the line of a refusal, put into the output from a place on. Each function
// answers the place behind what it wrote.
ghost use Rattle.std.specs.Prelude.{ℕ, ◌<◌, ◌≤◌, ◌≡◌};
ghost use Rattle.lists.specs.Places.{places};
ghost use Rattle.subjobs.specs.Reasons.{number_of, place_of};
ghost use Rattle.subjobs.specs.Sets.{subjobs_of, size};
ghost use Rattle.text.specs.Writing.{Wrote};
ghost use Rattle.table.specs.Writing.{refusal};
ghost use Rattle.table.specs.Answers.{line_at, joined};
ghost use Rattle.table.specs.Stores.{numbers_at, PrintableAt, PrintedLine};

use subjobs::{Reason, Set, Told};

// An accepted set with its local deadlines and its finishes.
#[derive(Clone, Copy)]
pub(crate) struct Accepted<'a> {
    pub(crate) set: Set<'a>,
    pub(crate) local: &'a [u32],
    pub(crate) finishes: &'a [u32],
    ghost printable: { (i : ℕ) → i < size (subjobs_of set) → PrintableAt (subjobs_of set) local.now finishes.now i },
}

impl Accepted<'_> {
    // The numbers of the line of place i: job, subtask, local deadline, finish, slack.
    fn line_at(&self, i: usize) -> [u32; 5]
        requires { i < size (subjobs_of self.now.set) }
        ensures { result ≡ numbers_at (subjobs_of self.now.set) self.now.local.now self.now.finishes.now i }
    {
        let set = self.set;
        let slack = set.deadlines[i] - set.criticals[i] - self.local[i];
        [
            set.jobs[i],
            set.subtasks[i],
            self.local[i],
            self.finishes[i],
            slack,
        ]
    }

    // One line per sub-job, in input order.
    pub(crate) fn put_lines(&self, out: &mut [u8], at: usize) -> usize
        ensures { let s = subjobs_of self.now.set in
            Wrote out.old at (joined (line_at s self.now.local.now self.now.finishes.now) (places (size s)))
            out.new result }
    {
        let mut end = at;
        for i in 0..self.set.jobs.len() {
            end = text::writing::put_record(out, end, &self.line_at(i));
        }
        end
    }
}

// The line that a refusal names.
fn printed_line(reason: Reason) -> usize
    requires { place_of reason ≤ 129 }
    ensures { PrintedLine (number_of reason) (place_of reason) result }
{
    let place = Told::from(reason).place;
    match reason {
        Reason::Range { .. } | Reason::Pair { .. } | Reason::Late { .. } => place + 2,
        _ => place,
    }
}

// The one line of a refused text.
pub(crate) fn put_refusal(out: &mut [u8], reason: Reason) -> usize
    requires { place_of reason ≤ 129 }
    ensures { Wrote out.old 0 (refusal reason) out.new result }
{
    let line = [Told::from(reason).number, printed_line(reason) as u32];
    let at = text::writing::put_text(out, 0, b"refused,");
    text::writing::put_record(out, at, &line)
}
