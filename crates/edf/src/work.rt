// The work of a run: what the simulator reads of a set that is accepted.
ghost use Rattle.std.specs.Prelude.{◌≡◌, length};
ghost use Rattle.subjobs.specs.Sets.{subjobs_of, size};

use subjobs::FitSet;

// A set that passes refusals 1 to 4, with lists of its length: the deadlines that order the service, and the asks.
#[derive(Clone, Copy)]
pub(crate) struct Work<'a> {
    pub fit: FitSet<'a>,
    pub local: &'a [u32],
    pub asks: &'a [u32],
    ghost each_local: { length local.now ≡ size (subjobs_of fit.set) },
    ghost each_ask: { length asks.now ≡ size (subjobs_of fit.set) },
}

impl Work<'_> {
    ghost use Rattle.std.specs.Prelude.{◌<◌, ◌≡◌};
    ghost use Rattle.edf.specs.Parts.{load_of, size_of};

    // A sub-job is owed the smaller of its ask and its execution.
    pub(crate) fn owed(&self, place: usize) -> u32
        requires { place < size_of self.now }
        ensures { result ≡ (load_of self.now).owed place }
    {
        self.asks[place].min(self.fit.set.executions[place])
    }
}
