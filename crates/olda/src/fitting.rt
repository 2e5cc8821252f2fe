// The assignment of a set that fits, that is, one that passes refusals 1 to 4.
ghost use Rattle.std.specs.Prelude.{◌≡◌, ◌≤◌, length};
ghost use Rattle.subjobs.specs.Sets.{subjobs_of, size};
ghost use Rattle.olda.specs.Parts.{Places};

use crate::bounding::raise;
use crate::placing::place_all;
use crate::sorting::in_order;
use subjobs::{FitSet, Reason};

// Writes a list over another of its length.
// Kept so: `copy_from_slice`, and this loop where it is inlined beside the room that it reads, become a call of memcpy,
// which the archive needs nowhere else.
#[inline(never)]
fn copy(from: &[u32], to: &mut [u32])
    requires { length to.old ≡ length from.now }
    ensures { to.new ≡ from.now }
{
    for (place, number) in to.iter_mut().enumerate() {
        *number = from[place];
    }
}

// The steps, with room made here for up to N sub-jobs: the raised bounds, the local deadlines, the places in release
// order and the completions of their tails. The result list is written when all have their deadlines, and not before.
// Kept so: arrays of which `count` places are used, since the library has no heap.
fn place_in<const N: usize>(fit: &FitSet<'_>, out: &mut [u32]) -> Result<(), Reason>
    requires out { length out.old ≡ size (subjobs_of fit.now.set) }
    requires room { (size (subjobs_of fit.now.set) ≤ N) × (N ≤ 128) }
    ensures { Places (subjobs_of fit.now.set) out.old result out.new }
{
    let set = &fit.set;
    let count = set.releases.len();
    let mut bounds = [0u32; N];
    let mut local = [0u32; N];
    let mut order = [0u32; N];
    let mut ends = [0u32; N];
    raise(set.deadlines, set.criticals, &mut bounds);
    in_order(set.releases, &mut order);
    place_all(
        fit,
        &bounds,
        &mut order[..count],
        &mut ends[..count],
        &mut local,
    )?;
    copy(&local[..count], out);
    Ok(())
}

// Places a set that fits. For up to 8 sub-jobs less room is cleared before each call.
pub(crate) fn place(fit: &FitSet<'_>, out: &mut [u32]) -> Result<(), Reason>
    requires { length out.old ≡ size (subjobs_of fit.now.set) }
    ensures { Places (subjobs_of fit.now.set) out.old result out.new }
{
    if fit.set.jobs.len() <= 8 {
        place_in::<8>(fit, out)
    } else {
        place_in::<128>(fit, out)
    }
}
