// The parts of an event: who is to be served, when somebody is released next, and how long that holds.
ghost use Rattle.std.specs.Prelude.{◌<◌, ◌≡◌, IfSome, cond, unwrap_or};
ghost use Rattle.ticks.specs.Core.{active};
ghost use Rattle.ticks.specs.Events.{to_serve, next_release, stretch};
ghost use Rattle.edf.specs.Parts.{load_of, size_of, chosen, released};

use crate::work::Work;

impl Work<'_> {
    // Whether a place is released at or before tick t and still owed something.
    fn active(&self, served: &[u32; 128], t: u32, place: usize) -> bool
        requires { place < size_of self.now }
        ensures { result ≡ active (load_of self.now) t served.now place }
    {
        self.fit.set.releases[place] <= t && served[place] < self.owed(place)
    }

    // Whether the place i is served before the place j: smaller deadline, then smaller job, then smaller subtask.
    fn sooner(&self, i: usize, j: usize) -> bool
        requires { (i < size_of self.now) × (j < size_of self.now) }
        ensures { result ≡ (load_of self.now).before i j }
    {
        (
            self.local[i],
            self.fit.set.jobs[i],
            self.fit.set.subtasks[i],
        ) < (
            self.local[j],
            self.fit.set.jobs[j],
            self.fit.set.subtasks[j],
        )
    }

    // The one of two places that is served first.
    fn first(&self, best: usize, place: usize) -> usize
        requires { (best < size_of self.now) × (place < size_of self.now) }
        ensures { result ≡ cond ((load_of self.now).before place best) place best }
    {
        if self.sooner(place, best) {
            place
        } else {
            best
        }
    }

    // The place to serve in tick t: of those active the one that comes first.
    // A heap may stand here one day: callers know it by `to_serve` alone.
    // Kept so: tried: with `filter` and `reduce`, or `min_by_key`, the proof did not close at `reduce-requires-clause-callable`
    // (that all that comes out of the filter is below the number of places).
    pub(crate) fn to_serve(&self, served: &[u32; 128], t: u32) -> Option<usize>
        ensures { result
            ≡ chosen (size_of self.now) (to_serve (load_of self.now) (size_of self.now) t served.now) }
    {
        let mut best = None;
        for place in 0..self.fit.set.jobs.len() {
            if self.active(served, t, place) {
                best = match best {
                    Some(b) => Some(self.first(b, place)),
                    None => Some(place),
                };
            }
        }
        best
    }

    // The next release after moment t.
    pub(crate) fn next_release(&self, t: u32) -> Option<u32>
        ensures next { result
            ≡ released (next_release (load_of self.now).release (load_of self.now).on t) }
        ensures later { IfSome result (λ release. t < release) }
    {
        self.fit
            .set
            .releases
            .iter()
            .copied()
            .filter(|release| t < *release)
            .min()
    }
}

// How long the pick of moment t stays: until nothing is left to serve to it or somebody is released.
pub(crate) fn stretch(left: u32, t: u32, next: Option<u32>) -> u32
    requires { IfSome next (λ release. t < release) }
    ensures { result ≡ stretch left t (unwrap_or next 0) }
{
    match next {
        Some(release) => left.min(release - t),
        None => left,
    }
}
