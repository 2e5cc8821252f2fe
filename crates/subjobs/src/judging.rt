// Refusals 3 and 4, each by a function of its own.
ghost use Rattle.std.specs.Prelude.{◌<◌, ◌≡◌, true};
ghost use Rattle.subjobs.specs.Sets.{subjobs_of, size, job, subtask, release, execution, deadline, critical};
ghost use Rattle.subjobs.specs.Judging.{range_at, ranges, seen_earlier, pairs};
ghost use Rattle.subjobs.specs.Faults.{OneLength};

use crate::{Field, Reason, Set};

// A set whose lists are of one length.
#[derive(Clone, Copy)]
pub(crate) struct OneLengthSet<'a> {
    pub(crate) set: Set<'a>,
    ghost one_length: { OneLength (subjobs_of set) true },
}

impl OneLengthSet<'_> {
    // The first field of one sub-job that is out of range, in the order of the fields.
    fn range_at(&self, place: usize) -> Result<(), Reason>
        requires { place < size (subjobs_of self.now.set) }
        ensures { let s = subjobs_of self.now.set in
            result ≡ range_at place (release s place) (execution s place) (deadline s place) (critical s place) }
    {
        let field = if 1_000_000_000 < self.set.releases[place] {
            Field::Release
        } else if !(1..=1_000_000).contains(&self.set.executions[place]) {
            Field::Execution
        } else if 2_000_000_000 < self.set.deadlines[place] {
            Field::Deadline
        } else if 1_000_000_000 < self.set.criticals[place] {
            Field::Critical
        } else {
            return Ok(());
        };
        Err(Reason::Range { place, field })
    }

    // The smallest place with a field out of range.
    // Kept so: `range_at` gives the reason and `?` hands it on; a `find` gives a place, whose field is then sought again.
    pub(crate) fn ranges(&self) -> Result<(), Reason>
        ensures { let s = subjobs_of self.now.set in
            result ≡ ranges (release s) (execution s) (deadline s) (critical s) (size s) }
    {
        for place in 0..self.set.jobs.len() {
            self.range_at(place)?;
        }
        Ok(())
    }

    // Whether the pair at a place stands at an earlier place too.
    // Kept so: tried: `zip` and `any` over the earlier places miss the bar of speed (173435 -> 179578 at 128).
    fn seen_earlier(&self, place: usize) -> bool
        requires { place < size (subjobs_of self.now.set) }
        ensures { let s = subjobs_of self.now.set in result ≡ seen_earlier (job s) (subtask s) place }
    {
        for j in (0..place).rev() {
            if self.set.subtasks[j] == self.set.subtasks[place]
                && self.set.jobs[j] == self.set.jobs[place]
            {
                return true;
            }
        }
        false
    }

    // The smallest place whose pair stands at an earlier place. Before place 0 there is none.
    pub(crate) fn pairs(&self) -> Result<(), Reason>
        ensures { let s = subjobs_of self.now.set in result ≡ pairs (job s) (subtask s) (size s) }
    {
        (1..self.set.jobs.len())
            .find(|place| self.seen_earlier(*place))
            .map_or(Ok(()), |place| Err(Reason::Pair { place }))
    }
}
