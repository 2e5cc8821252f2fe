// A run, from event to event, and what is read off the core at its end.
ghost use Rattle.std.specs.Prelude.{◌+◌, ◌<◌, map, ◌≡◌, ltb, length, get_or};
ghost use Rattle.edf.specs.Parts.{load_of, size_of, finish_in, end_in, AtStart, RanOut, Settles};

use crate::events::stretch;
use crate::work::Work;
use crate::{Report, Simulated, Totals};
use subjobs::Reason;

// The core: of each place the ticks served to it and the end of the last of them, and the busy ticks.
// Kept so: arrays of which a part is used, since the library has no heap.
#[derive(Drop)]
pub(crate) struct Core {
    pub served: [u32; 128],
    pub finish: [u32; 128],
    pub busy: u32,
}

impl Work<'_> {
    // A run of single ticks, in jumps: somebody is served until nothing is left for it or somebody is released, or nobody
    // can be served until the next release. The caller has the core, so that no array is copied.
    pub(crate) fn run_out(&self, core: &mut Core)
        requires { AtStart core.old }
        ensures { RanOut self.now core.new }
    {
        let mut t: u32 = 0;
        loop {
            match (self.to_serve(&core.served, t), self.next_release(t)) {
                (Some(place), next) => {
                    let before = core.served[place];
                    let ticks = stretch(self.owed(place) - before, t, next);
                    core.served[place] = before + ticks;
                    core.busy += ticks;
                    t += ticks;
                    core.finish[place] = t;
                }
                (None, Some(release)) => t = release,
                (None, None) => return,
            }
        }
    }

    // The end of the run: the greatest finish among those owed something, 0 if there are none.
    fn end(&self, finish: &[u32; 128]) -> u32
        ensures { result ≡ end_in (load_of self.now) finish.now }
    {
        (0..self.fit.set.jobs.len())
            .filter(|place| 0 < self.owed(*place))
            .map(|place| finish[place])
            .max()
            .unwrap_or(0)
    }

    // The end of the last tick served to a place, or its release if it is owed nothing.
    fn finish_of(&self, place: usize, finish: &[u32; 128]) -> u32
        requires { place < size_of self.now }
        ensures { result ≡ finish_in (load_of self.now) finish.now place }
    {
        if self.owed(place) == 0 {
            self.fit.set.releases[place]
        } else {
            finish[place]
        }
    }

    // The finish moments, written to the result list.
    fn write_finishes(&self, finish: &[u32; 128], finishes: &mut [u32])
        requires { length finishes.old ≡ size_of self.now }
        ensures { finishes.new ≡ map (finish_in (load_of self.now) finish.now) (load_of self.now).on }
    {
        for (place, moment) in finishes.iter_mut().enumerate() {
            *moment = self.finish_of(place, finish);
        }
    }

    // The answer to a run that was served out, and the totals after it: number 8, or all that is read off the core.
    pub(crate) fn settle(&self, core: &Core, finishes: &mut [u32], totals: Totals) -> Simulated
        requires ran { RanOut self.now core.now }
        requires room { length finishes.old ≡ size_of self.now }
        ensures { Settles self.now finishes.old totals result finishes.new }
    {
        let end = self.end(&core.finish);
        let idle = end - core.busy;
        // `|`: one path for the check.
        if above(totals.busy, core.busy) | above(totals.idle, idle) {
            return Simulated {
                answer: Err(Reason::Totals),
                totals,
            };
        }
        self.write_finishes(&core.finish, finishes);
        let after = Totals {
            busy: totals.busy + u64::from(core.busy),
            idle: totals.idle + u64::from(idle),
        };
        Simulated {
            answer: Ok(Report { end }),
            totals: after,
        }
    }
}

// Whether a total and some ticks more stand above 1,000,000,000,000,000,000. Nothing wraps: a total may be any 64 bits.
fn above(total: u64, more: u32) -> bool
    ensures { result ≡ ltb 1_000_000_000_000_000_000 (total + more) }
{
    1_000_000_000_000_000_000 < total.saturating_add(u64::from(more))
}
