// The engine's door: the assignment and the checker on the engine's own bytes, 24 for each sub-job; critical times from a
// graph, 4 for each sub-job and 12 for each arc; and all sets of a room, with 4 for each set's length. The crate
// `charoktan_c` exports these functions to C and C++ under their names.
#![tactic(auto)]

ghost use Rattle.std.specs.Prelude.{◌*◌, ◌/◌, ◌%◌, ◌≤◌, ◌≡◌, length};
ghost use Rattle.subjobs.specs.Sets.{subjobs_of};
ghost use Rattle.checker.specs.Answers.{answer};
ghost use Rattle.charoktan.specs.Records.{words, fitting, fitting_graph, Within, GraphWithin};
ghost use Rattle.charoktan.specs.Answers.{told, Small, AssignsSet, AssignsBytes, ChecksBytes, FindsBytes};
ghost use Rattle.charoktan.specs.Rooms.{room_bytes, RoomsBytes};

use bytes::Fields;
use graph::Graph;
use subjobs::{Reason, Set, Told};

mod bytes;
mod rooms;

// The number of a refusal and its place; both are 0 if there is none.
// Kept so: `Small` is a clause of every function here that hands on a reason. A type of the door's own that carries it would
// have to be made of std's `Result`, and taken apart again, at each `?`.
fn told(outcome: Result<(), Reason>) -> (u32, u32)
    requires { Small outcome }
    ensures { (result.0 ≡ told outcome % 65_536) × (result.1 ≡ told outcome / 65_536) }
{
    match outcome {
        Ok(()) => (0, 0),
        Err(reason) => {
            let refusal = Told::from(reason);
            (refusal.number, refusal.place as u32)
        }
    }
}

// The number returned: 0, or the number of a refusal and above it its place.
// Kept so: C is given one number.
fn code(outcome: Result<(), Reason>) -> u32
    requires { Small outcome }
    ensures { result ≡ told outcome }
{
    let (number, place) = told(outcome);
    number + 65_536 * place
}

// Whether the bytes are whole records and the results have 4 bytes for each.
fn fitting(records: &[u8], results: usize) -> bool
    ensures { result ≡ fitting records.now results }
{
    records.len() % 24 == 0 && results == 4 * (records.len() / 24)
}

// The assignment of a set, with a list lent for its results, into bytes. Both sizes of rooms call it, so that there is one
// copy of the assignment, which is built into it.
fn assign_set(set: &Set<'_>, local: &mut [u32], deadlines: &mut [u8]) -> Result<(), Reason>
    requires { length deadlines.old ≡ 4 * length local.old }
    ensures small { Small result }
    ensures assigns { AssignsSet (subjobs_of set.now) local.old deadlines.old result deadlines.new }
{
    if olda::assign(set, local)?.is_some() {
        bytes::put_all(local, deadlines);
    }
    Ok(())
}

// The assignment on whole records, with room for N of them. Not inlined, so that a room's loop holds what chooses between
// the two sizes: 3 percent of a room with 4 sub-jobs per set.
// Kept so: arrays of which a part is used, here and in `check_within` and `critical_within`, since the library has no heap.
#[inline(never)]
fn assign_within<const N: usize>(records: &[u8], deadlines: &mut [u8]) -> Result<(), Reason>
    requires { Within records.now deadlines.old N }
    ensures small { Small result }
    ensures assigns { AssignsBytes records.now deadlines.old (told result) deadlines.new }
{
    let mut fields = Fields::<N>::new();
    let mut local = [0; N];
    assign_set(
        &fields.read(records),
        &mut local[..records.len() / 24],
        deadlines,
    )
}

// The assignment, or why it is refused. Up to 8 sub-jobs work in rooms of their own, since these are cleared at each call.
// Kept so: each entry's slices go on as C lends them; and `check` and `critical` choose between two sizes alike: one
// function for all three would have to be handed a function that itself has a size to be chosen.
fn assign(records: &[u8], deadlines: &mut [u8]) -> Result<(), Reason>
    ensures small { Small result }
    ensures assigns { AssignsBytes records.now deadlines.old (told result) deadlines.new }
{
    if !fitting(records, deadlines.len()) {
        return Err(Reason::Lengths);
    }
    match records.len() / 24 {
        0..=8 => assign_within::<8>(records, deadlines),
        9..=128 => assign_within::<128>(records, deadlines),
        _ => Err(Reason::TooMany),
    }
}

// The assignment: 0, with the deadlines written, or a refusal's number, with every byte left as it was.
pub fn charoktan_assign(records: &[u8], deadlines: &mut [u8]) -> u32
    ensures { AssignsBytes records.now deadlines.old result deadlines.new }
{
    code(assign(records, deadlines))
}

// The checker of a set, with room lent for the proposed deadlines. Both sizes of rooms call it, as they call `assign_set`.
fn check_set(set: &Set<'_>, deadlines: &[u8], proposed: &mut [u32]) -> u32
    requires { length deadlines.now / 4 ≤ length proposed.old }
    ensures { result ≡ told (answer (subjobs_of set.now) (words deadlines.now (length deadlines.now / 4))) }
{
    code(checker::check(set, bytes::column::<4>(deadlines, 0, proposed)))
}

// The checker on whole records, with room for N of them.
fn check_within<const N: usize>(records: &[u8], deadlines: &[u8]) -> u32
    requires { Within records.now deadlines.now N }
    ensures { ChecksBytes records.now deadlines.now result }
{
    let mut fields = Fields::<N>::new();
    let mut proposed = [0; N];
    check_set(&fields.read(records), deadlines, &mut proposed)
}

// The checker: 0 if the proposed deadlines are accepted, or a refusal's number.
pub fn charoktan_check(records: &[u8], deadlines: &[u8]) -> u32
    ensures { ChecksBytes records.now deadlines.now result }
{
    if !fitting(records, deadlines.len()) {
        return code(Err(Reason::Lengths));
    }
    match records.len() / 24 {
        0..=8 => check_within::<8>(records, deadlines),
        9..=128 => check_within::<128>(records, deadlines),
        _ => code(Err(Reason::TooMany)),
    }
}

// Whether executions and arcs are whole, and the results have 4 bytes for each execution.
fn fitting_graph(executions: &[u8], arcs: &[u8], results: usize) -> bool
    ensures { result ≡ fitting_graph executions.now arcs.now results }
{
    executions.len() % 4 == 0 && arcs.len() % 12 == 0 && results == executions.len()
}

// Critical times of whole executions and arcs, with room for N sub-jobs and M arcs.
fn critical_within<const N: usize, const M: usize>(
    executions: &[u8],
    arcs: &[u8],
    results: &mut [u8],
) -> Result<(), Reason>
    requires { GraphWithin executions.now arcs.now results.old N M }
    ensures small { Small result }
    ensures finds { FindsBytes executions.now arcs.now results.old (told result) results.new }
{
    let mut times = [0; N];
    let mut befores = [0; M];
    let mut afters = [0; M];
    let mut hops = [0; M];
    let mut local = [0; N];
    let local = &mut local[..executions.len() / 4];
    let graph = Graph {
        executions: bytes::words(executions, &mut times),
        befores: bytes::column::<12>(arcs, 0, &mut befores),
        afters: bytes::column::<12>(arcs, 4, &mut afters),
        hops: bytes::column::<12>(arcs, 8, &mut hops),
    };
    graph::critical(&graph, local)?;
    bytes::put_all(local, results);
    Ok(())
}

// Critical times from a graph, or why it is refused. Up to 16 sub-jobs and 32 arcs have rooms of their own.
fn critical(executions: &[u8], arcs: &[u8], results: &mut [u8]) -> Result<(), Reason>
    ensures small { Small result }
    ensures finds { FindsBytes executions.now arcs.now results.old (told result) results.new }
{
    if !fitting_graph(executions, arcs, results.len()) {
        return Err(Reason::Lengths);
    }
    let n = executions.len() / 4;
    let m = arcs.len() / 12;
    if n <= 16 && m <= 32 {
        return critical_within::<16, 32>(executions, arcs, results);
    }
    if n <= 128 && m <= 1_024 {
        return critical_within::<128, 1_024>(executions, arcs, results);
    }
    Err(Reason::TooMany)
}

// Critical times from a graph: 0, with the results written, or a refusal's number, with every byte left as it was.
pub fn charoktan_critical(executions: &[u8], arcs: &[u8], results: &mut [u8]) -> u32
    ensures { FindsBytes executions.now arcs.now results.old result results.new }
{
    code(critical(executions, arcs, results))
}

// The sets of a room: 0, with each set's number and place written and the deadlines of those that are accepted; or a
// refusal of the whole, with every byte left as it was.
pub fn charoktan_room(
    records: &[u8],
    lengths: &[u8],
    deadlines: &mut [u8],
    numbers: &mut [u8],
    places: &mut [u8],
) -> u32
    ensures { RoomsBytes (room_bytes records.now lengths.now deadlines.old
        numbers.old places.old)
        result deadlines.new numbers.new places.new }
{
    code(rooms::assign(records, lengths, deadlines, numbers, places))
}
