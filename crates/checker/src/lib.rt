// The checker of hand-set deadlines: it accepts exactly what meets the published conditions (6) and (7).
#![tactic(auto)]

ghost use Rattle.subjobs.specs.Sets.{subjobs_of};
ghost use Rattle.checker.specs.Answers.{Checks};

mod conditions;

use subjobs::{Reason, Set};

// Whether the proposed deadlines meet (6) and (7): numbers 1 to 4 first, then 6, then 7. Acceptance carries no number.
pub fn check(set: &Set<'_>, proposed: &[u32]) -> Result<(), Reason>
    ensures { Checks (subjobs_of set.now) proposed.now result }
{
    let fit = set.judge(proposed.len() == set.jobs.len())?;
    conditions::six(&fit, proposed)?;
    conditions::seven(&fit, proposed)
}
