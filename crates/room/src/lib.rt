// A room: the sets of several cores in one call. They stand one after another in the same six lists.
//
// `assign` tests the lists (1, 22) and then asks `olda::assign` set by set, each on its own stretch.
// Kept so: `adds_up`, `fitting`, `assign_each` and `assign` have twins in charoktan's rooms, on bytes. One walk for both
// takes a crate below them and closures, and is longer.
#![tactic(auto)]

ghost use Rattle.std.specs.Prelude.{◌+◌, ◌≤◌, ◌<◌, ◌≡◌, eqb, length};
ghost use Rattle.lists.specs.Places.{total};
ghost use Rattle.subjobs.specs.Sets.{subjobs_of};
ghost use Rattle.stretches.specs.Stretches.{replaced};
ghost use Rattle.stretches.specs.Answers.{room, answer_at, results_at, number, place, fitting, Assigns};
ghost use Rattle.room.specs.Parts.{Within, Sets, AllAssigned};

use olda::Report;
use subjobs::{Reason, Set, Told};

// The number of an answer and its place; both are 0 if the set is accepted.
fn told(answer: Result<Option<Report>, Reason>) -> (u32, u32)
    requires { place answer < 128 }
    ensures { (result.0 ≡ number answer) × (result.1 ≡ place answer) }
{
    match answer {
        Ok(_) => (0, 0),
        Err(reason) => {
            let refusal = Told::from(reason);
            (refusal.number, refusal.place as u32)
        }
    }
}

// One set: its stretch of each list is lent to the assignment, the middle of the result list too.
fn assign_at(
    sets: &Set<'_>,
    start: usize,
    count: usize,
    results: &mut [u32],
) -> Result<Option<Report>, Reason>
    requires { Within (subjobs_of sets.now) start count results.old }
    ensures { (result ≡ answer_at (subjobs_of sets.now) start count)
        × (results.new ≡ replaced start count
        (results_at (subjobs_of sets.now) results.old start count) results.old) }
{
    let end = start + count;
    // Kept so: the door's fields and a table's records lend a part too, but of arrays: a method on sets would serve here alone.
    let set = Set {
        jobs: &sets.jobs[start..end],
        subtasks: &sets.subtasks[start..end],
        releases: &sets.releases[start..end],
        executions: &sets.executions[start..end],
        deadlines: &sets.deadlines[start..end],
        criticals: &sets.criticals[start..end],
    };
    olda::assign(&set, &mut results[start..end])
}

// Every set in turn, whatever became of those before it.
// Kept so: `lengths`, `results`, `numbers` and `places` are lent one by one, here and in `fitting` and `assign` (docs/RULES.md,
// "Forms of the code"). A struct that holds the lent lists needs one more clause per function, that they still are the
// caller's.
fn assign_each(
    sets: &Set<'_>,
    lengths: &[u32],
    results: &mut [u32],
    numbers: &mut [u32],
    places: &mut [u32],
)
    requires { Sets (subjobs_of sets.now) lengths.now results.old numbers.old places.old }
    ensures { AllAssigned (subjobs_of sets.now) lengths.now results.old results.new numbers.new places.new }
{
    let mut start = 0;
    for (k, length) in lengths.iter().enumerate() {
        let count = *length as usize;
        let (number, place) = told(assign_at(sets, start, count, results));
        numbers[k] = number;
        places[k] = place;
        start += count;
    }
}

// Whether lengths add up to the number of places. They are taken off it, so no sum can wrap.
fn adds_up(lengths: &[u32], places: usize) -> bool
    ensures { result ≡ eqb (total lengths.now) places }
{
    let mut left = places;
    for length in lengths {
        let Some(rest) = left.checked_sub(*length as usize) else {
            return false;
        };
        left = rest;
    }
    left == 0
}

// Whether lists of one kind are of one length and the lengths add up, by the lengths of those that are written.
fn fitting(sets: &Set<'_>, lengths: &[u32], results: usize, numbers: usize, places: usize) -> bool
    ensures { result ≡ fitting (subjobs_of sets.now) lengths.now results numbers places }
{
    sets.one_length(results == sets.jobs.len())
        && numbers == lengths.len()
        && places == lengths.len()
        && adds_up(lengths, sets.jobs.len())
}

// Gives each sub-job of every set its local deadline, as one call of `olda::assign` per set would. A set that is refused
// keeps its stretch of the results, and the next one is assigned. After a refusal of the call all three lists hold what
// they held before.
pub fn assign(
    sets: &Set<'_>,
    lengths: &[u32],
    results: &mut [u32],
    numbers: &mut [u32],
    places: &mut [u32],
) -> Result<(), Reason>
    ensures { Assigns (room (subjobs_of sets.now) lengths.now results.old numbers.old places.old)
        result results.new numbers.new places.new }
{
    if !fitting(sets, lengths, results.len(), numbers.len(), places.len()) {
        return Err(Reason::Lengths);
    }
    if 32 < lengths.len() || 4_096 < sets.jobs.len() {
        return Err(Reason::TooLarge);
    }
    assign_each(sets, lengths, results, numbers, places);
    Ok(())
}
