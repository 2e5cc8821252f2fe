// The steps of the method: as long as a sub-job is left, the base sub-job gets the completion and leaves.
ghost use Rattle.std.specs.Prelude.{ℕ, ◌-◌, ◌<◌, ◌≤◌, ◌≡◌, length, map, take};
ghost use Rattle.subjobs.specs.Sets.{subjobs_of};
ghost use Rattle.olda.specs.Parts.{at, rest, Leaving, Left, Placing, Placed};

use crate::bounding::{RAISE, signed};
use crate::choosing::base_job;
use crate::tailing::{base_tail, completions};
use subjobs::{FitSet, Reason};

// Takes out what stands at k; the numbers behind it move down by one, and the last place is free.
// Kept so: `rotate_left` calls memmove, which the archive must not need (include/charoktan.h).
fn remove(a: &mut [u32], k: usize)
    requires { k < length a.old }
    ensures { take (length a.old - 1) a.new ≡ rest k a.old }
{
    for i in k..a.len() - 1 {
        a[i] = a[i + 1];
    }
}

// Takes an execution off the completions of tails that the sub-job was in.
fn shorten(ends: &mut [u32], execution: u32)
    requires { (i : ℕ) → i < length ends.old → execution ≤ at ends.old i }
    ensures { ends.new ≡ map (λ e. e - execution) ends.old }
{
    for end in ends {
        *end -= execution;
    }
}

// Takes out the sub-job at k of those left, and the tail that starts with it.
// Kept so: `order` and `ends` as two parameters; a struct of both would need a ghost field over releases and executions too,
// and serve one loop alone.
fn take_out(order: &mut [u32], ends: &mut [u32], k: usize, execution: u32)
    requires { Leaving order.old ends.old k execution }
    ensures { Left order.old ends.old k execution order.new ends.new }
{
    shorten(&mut ends[..k], execution);
    remove(ends, k);
    remove(order, k);
}

// The steps over the sub-jobs of `order`, whose places stand there in release order. The deadlines go into `local`, each
// at its place.
pub(crate) fn place_all(
    fit: &FitSet<'_>,
    bounds: &[u32],
    order: &mut [u32],
    ends: &mut [u32],
    local: &mut [u32],
) -> Result<(), Reason>
    requires { Placing (subjobs_of fit.now.set) bounds.now order.old ends.old local.old (length order.old) }
    ensures { Placed (subjobs_of fit.now.set) bounds.now order.old local.old (length order.old) result local.new }
{
    let set = &fit.set;
    completions(order, set.releases, set.executions, ends);
    for left in (1..=order.len()).rev() {
        let start = base_tail(&ends[..left]);
        let completion = ends[start];
        let at = start + base_job(&order[start..left], bounds, fit);
        let place = order[at] as usize;
        if bounds[place] < completion + RAISE {
            return Err(Reason::Late {
                place,
                completion,
                bound: signed(bounds[place]),
            });
        }
        local[place] = completion;
        take_out(
            &mut order[..left],
            &mut ends[..left],
            at,
            set.executions[place],
        );
    }
    Ok(())
}
