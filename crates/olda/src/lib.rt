// The assignment: OLDA on one core. Each sub-job of a set gets a local deadline, or the set is refused.
//
// `assign` judges the set and makes the report; `fitting` makes the room, raises the bounds, puts the places into release
// order and has `placing` take the steps. What an order changes stands in one place each: the tie rule in
// `choosing::behind`, what is taken off a deadline in `bounding::withheld`, how tails are added up in
// `tailing::completions`, and which sub-jobs are placed in the order that `placing::place_all` is given.
#![tactic(auto)]

ghost use Rattle.subjobs.specs.Sets.{subjobs_of};
ghost use Rattle.olda.specs.Answers.{Assigns};

use reporting::Accepted;
use subjobs::{Reason, Set};

mod bounding;
mod choosing;
mod fitting;
mod placing;
mod reporting;
mod sorting;
mod tailing;

// The least slack of an accepted set and the smallest place that has it.
#[derive(Clone, Copy, Debug, PartialEq, Eq)]
pub struct Report {
    pub slack: i64,
    pub place: usize,
}

// Gives each sub-job of a set its local deadline, at its place of the result list, and reports the least slack; of an empty
// set there is nothing to report. After a refusal the result list holds what it held before.
pub fn assign(set: &Set<'_>, out: &mut [u32]) -> Result<Option<Report>, Reason>
    ensures { Assigns (subjobs_of set.now) out.old result out.new }
{
    let fit = set.judge(out.len() == set.jobs.len())?;
    fitting::place(&fit, out)?;
    let accepted = Accepted {
        deadlines: set.deadlines,
        criticals: set.criticals,
        local: out,
    };
    Ok(accepted.report())
}
