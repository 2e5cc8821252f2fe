// The simulated core: one preemptive core under earliest deadline first, its finishes and its totals.
//
// The answer (specs/Answers.antt) is that of single ticks (Core and Runs of the crate `ticks`); the program jumps from event
// to event (Events there). What its parts are held to is said in specs/Parts.antt.
#![tactic(auto)]

ghost use Rattle.subjobs.specs.Sets.{subjobs_of};
ghost use Rattle.edf.specs.Answers.{Simulates, Runs};

mod events;
mod runs;
mod work;

use runs::Core;
use subjobs::{Reason, Set};
use work::Work;

// The ticks of runs so far, served and not.
#[derive(Clone, Copy, Debug, PartialEq, Eq)]
pub struct Totals {
    pub busy: u64,
    pub idle: u64,
}

// The end of a run.
#[derive(Clone, Copy, Debug, PartialEq, Eq)]
pub struct Report {
    pub end: u32,
}

// The answer, and what the record of totals holds afterwards.
// Kept so: by the definition `Simulates` the totals come back on a refusal too, which a `Result` would leave out.
#[derive(Clone, Copy, Debug, PartialEq, Eq)]
pub struct Simulated {
    pub answer: Result<Report, Reason>,
    pub totals: Totals,
}

// A run of a set with these local deadlines and asks. On acceptance the finishes are written and the totals that come back
// hold the run's ticks too; on a refusal list and totals are as they were.
pub fn simulate(
    set: &Set<'_>,
    local: &[u32],
    asks: &[u32],
    finishes: &mut [u32],
    totals: Totals,
) -> Simulated
    ensures { Simulates (subjobs_of set.now) local.now asks.now finishes.old totals result finishes.new }
{
    let n = set.jobs.len();
    // `&`: one path for the check.
    let others = (local.len() == n) & (asks.len() == n) & (finishes.len() == n);
    match set.judge(others) {
        Err(reason) => Simulated {
            answer: Err(reason),
            totals,
        },
        Ok(fit) => {
            let work = Work { fit, local, asks };
            let mut core = Core {
                served: [0; 128],
                finish: [0; 128],
                busy: 0,
            };
            work.run_out(&mut core);
            work.settle(&core, finishes, totals)
        }
    }
}

// The same with the record of totals lent: it holds what comes back, whether the run was accepted or refused.
// Kept so: the totals are lent to a thin function above a simulator by value ("Forms of the code", docs/RULES.md and
// docs/PROMISES.md).
pub fn run(
    set: &Set<'_>,
    local: &[u32],
    asks: &[u32],
    finishes: &mut [u32],
    totals: &mut Totals,
) -> Result<Report, Reason>
    ensures { Runs (subjobs_of set.now) local.now asks.now finishes.old totals.old result totals.new finishes.new }
{
    let simulated = simulate(set, local, asks, finishes, *totals);
    *totals = simulated.totals;
    simulated.answer
}
