// What is reported of an accepted set: its least slack and the smallest place that has it.
ghost use Rattle.std.specs.Prelude.{◌+◌, ◌<◌, ◌≤◌, ◌≡◌, length};
ghost use Rattle.subjobs.specs.Terms.{slack};
ghost use Rattle.olda.specs.Parts.{at, limits, reported, Tightest};

use crate::Report;
use crate::bounding::{difference, withheld};

// Slacks are compared raised by this, so that none is negative: no sub-job reaches so far.
const FAR: u64 = 8_589_934_592;

// The local deadlines of an accepted set, beside the deadlines and critical times of its sub-jobs.
#[derive(Clone, Copy)]
pub(crate) struct Accepted<'a> {
    pub(crate) deadlines: &'a [u32],
    pub(crate) criticals: &'a [u32],
    pub(crate) local: &'a [u32],
    ghost each_deadline: { length local.now ≤ length deadlines.now },
    ghost each_critical: { length local.now ≤ length criticals.now },
}

impl<'a> Accepted<'a> {
    // How far a sub-job reaches: its local deadline plus what is withheld. The slack is what its deadline leaves of that.
    fn reach(&self, i: usize) -> u64
        requires { i < length self.now.local.now }
        ensures { (result ≡ (limits self.now.deadlines.now self.now.criticals.now).withheld i + at self.now.local.now i)
            × (result < 8589934592) }
    {
        u64::from(withheld(self.criticals, i)) + u64::from(self.local[i])
    }

    // What the upper bound of a sub-job leaves of its local deadline.
    fn slack(&self, i: usize) -> i64
        requires { i < length self.now.local.now }
        ensures { result ≡ slack (limits self.now.deadlines.now self.now.criticals.now) (at self.now.local.now) i }
    {
        difference(self.deadlines[i], self.reach(i))
    }

    // The slack, raised so that it is not negative.
    fn raised_slack(&self, i: usize) -> u64
        requires { i < length self.now.local.now }
        ensures { result + ((limits self.now.deadlines.now self.now.criticals.now).withheld i + at self.now.local.now i)
            ≡ at self.now.deadlines.now i + 8589934592 }
    {
        u64::from(self.deadlines[i]) + FAR - self.reach(i)
    }

    // The smallest place of the least slack, none of an empty set.
    fn tightest(&self) -> Option<usize>
        ensures { Tightest self.now.deadlines.now self.now.criticals.now self.now.local.now result }
    {
        (0..self.local.len()).min_by_key(|i| self.raised_slack(*i))
    }

    // The report of the set.
    pub(crate) fn report(&self) -> Option<Report>
        ensures { result
            ≡ reported (limits self.now.deadlines.now self.now.criticals.now) (length self.now.local.now)
            (at self.now.local.now) }
    {
        let place = self.tightest()?;
        let slack = self.slack(place);
        Some(Report { slack, place })
    }
}
