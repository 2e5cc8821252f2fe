// Conditions (6) and (7) at the smallest place that fails them, of a set that passes refusals 1 to 4.
ghost use Rattle.std.specs.Prelude.{◌+◌, ◌<◌, ◌&&◌, ◌≡◌, leb, length, get_or};
ghost use Rattle.subjobs.specs.Sets.{subjobs_of, size};
ghost use Rattle.subjobs.specs.Judging.{first_refusal};
ghost use Rattle.checker.specs.Answers.{six, seven_at, seven};
ghost use Rattle.checker.specs.Parts.{meets};

use edf::Totals;
use subjobs::{FitSet, Reason};

// Whether a + b ≤ x, the sum taken in 64 bits.
fn at_most(a: u32, b: u32, x: u32) -> bool
    ensures { result ≡ leb (a + b) x }
{
    u64::from(a) + u64::from(b) <= u64::from(x)
}

// (6) of one sub-job with the proposed deadline d. The upper bound may be negative: d + critical time is held to the deadline.
fn meets(fit: &FitSet<'_>, place: usize, d: u32) -> bool
    requires { place < size (subjobs_of fit.now.set) }
    ensures { result ≡ meets (subjobs_of fit.now.set) place d }
{
    let set = &fit.set;
    at_most(set.releases[place], set.executions[place], d)
        && at_most(d, set.criticals[place], set.deadlines[place])
}

// The smallest place that fails (6).
// Kept so: tried: `find` here and in `late` misses the bar of speed (1692 -> 1731 at 4).
pub(crate) fn six(fit: &FitSet<'_>, proposed: &[u32]) -> Result<(), Reason>
    requires { length proposed.now ≡ size (subjobs_of fit.now.set) }
    ensures { result ≡ six (subjobs_of fit.now.set) proposed.now }
{
    for place in 0..proposed.len() {
        if !meets(fit, place, proposed[place]) {
            return Err(Reason::Unmet { place });
        }
    }
    Ok(())
}

// The smallest place that finishes after its proposed deadline.
// Kept so: tried: `find` here and in `six` misses the bar of speed (1692 -> 1731 at 4); `zip` with `position` wants a
// function more (13 lines -> 21) and two laws of what the search found.
fn late(finishes: &[u32], proposed: &[u32]) -> Result<(), Reason>
    requires { length proposed.now ≡ length finishes.now }
    ensures { result ≡ first_refusal
        (λ i. seven_at i (get_or finishes.now i 0) (get_or proposed.now i 0))
        (length finishes.now) }
{
    for place in 0..finishes.len() {
        if proposed[place] < finishes[place] {
            return Err(Reason::Missed { place });
        }
    }
    Ok(())
}

// The smallest place that the core finishes late when every ask equals execution.
// Kept so: an array of which a part is used, since the library has no heap.
pub(crate) fn seven(fit: &FitSet<'_>, proposed: &[u32]) -> Result<(), Reason>
    requires { length proposed.now ≡ size (subjobs_of fit.now.set) }
    ensures { result ≡ seven (subjobs_of fit.now.set) proposed.now }
{
    let set = &fit.set;
    let mut room = [0u32; 128];
    let finishes = &mut room[..set.jobs.len()];
    let none = Totals { busy: 0, idle: 0 };
    edf::simulate(set, proposed, set.executions, finishes, none);
    late(finishes, proposed)
}
