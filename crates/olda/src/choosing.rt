// The base sub-job: the one of the base subset with the greatest upper bound. The tie rule of equal bounds stands in
// `behind` and nowhere else in the code; in the rules it is `lower`, and `lower_by` for raised bounds.
ghost use Rattle.std.specs.Prelude.{◌<◌, ◌≡◌, length};
ghost use Rattle.subjobs.specs.Sets.{subjobs_of, job, subtask, by_pair};
ghost use Rattle.olda.specs.Parts.{Choosing, Chosen};

use subjobs::FitSet;

// Of two sub-jobs with equal bounds, whether the first stands behind the second: the smaller job, of equal jobs the smaller
// subtask.
fn behind(fit: &FitSet<'_>, i: usize, j: usize) -> bool
    requires { (i < length fit.now.set.releases.now) × (j < length fit.now.set.releases.now) }
    ensures { result ≡ by_pair (job (subjobs_of fit.now.set)) (subtask (subjobs_of fit.now.set)) i j }
{
    let set = &fit.set;
    (set.jobs[i], set.subtasks[i]) < (set.jobs[j], set.subtasks[j])
}

// Where the base sub-job stands among the sub-jobs of the base subset, which are given by their places.
// Kept so: `max_by` is no plainer: std gives the last of equals where the rules' `choose` gives the first, so it would take a
// proof that no two sub-jobs of a set are equal.
pub(crate) fn base_job(order: &[u32], bounds: &[u32], fit: &FitSet<'_>) -> usize
    requires { Choosing order.now bounds.now (length fit.now.set.releases.now) }
    ensures { Chosen order.now bounds.now fit.now.set.jobs.now fit.now.set.subtasks.now result }
{
    let mut at = 0;
    let mut top = bounds[order[0] as usize];
    for i in 1..order.len() {
        let place = order[i] as usize;
        let bound = bounds[place];
        if top < bound || (top == bound && behind(fit, order[at] as usize, place)) {
            at = i;
            top = bound;
        }
    }
    at
}
