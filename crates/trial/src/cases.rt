// The cases, one after another. A case is the number of its kind and what the entry is called with; a number that is no
// kind's ends the text.
use crate::printing::{Listed, Refusal};
use crate::reading::{Lists, Reader};
use graph::Graph;
use std::io;
use subjobs::Reason;

// The longest list of a set's or a graph's places that is asked. A longer list ends the text.
const PLACES: usize = 160;

// The same of a graph's arcs.
const ARCS: usize = 1_100;

// The same of a room's places.
const ROOM_PLACES: usize = 4_200;

// The same of a room's sets.
const ROOM_SETS: usize = 48;

// Room for every answer of a table, as `table::table` asks for it.
const ANSWER: usize = 7_203;

// The entry that a case calls.
#[derive(Clone, Copy, Debug, PartialEq, Eq)]
enum Kind {
    Assign,
    Simulate,
    Check,
    Table,
    Critical,
    Room,
}

// The kind with a number, if there is one.
impl TryFrom<u64> for Kind {
    type Error = ();

    fn try_from(number: u64) -> Result<Kind, ()> {
        match number {
            1 => Ok(Kind::Assign),
            2 => Ok(Kind::Simulate),
            3 => Ok(Kind::Check),
            4 => Ok(Kind::Table),
            5 => Ok(Kind::Critical),
            6 => Ok(Kind::Room),
            _ => Err(()),
        }
    }
}

// Every case of a text. A case takes at least a byte, so there are no more cases than bytes: to go over the bytes is what
// shows that the program ends. Behind the text the number is 0, no kind's.
pub(crate) fn all(rt: &HostRuntime, text: &[u8]) -> io::Result<()> {
    let mut reader = Reader::new(text, rt.alloc());
    for _ in text {
        let Ok(kind) = Kind::try_from(reader.number()) else {
            break;
        };
        one(rt, kind, &mut reader)?;
    }
    Ok(())
}

// A case whose kind is read.
fn one(rt: &HostRuntime, kind: Kind, reader: &mut Reader<'_>) -> io::Result<()> {
    match kind {
        Kind::Assign => assign(rt, reader),
        Kind::Simulate => simulate(rt, reader),
        Kind::Check => check(rt, reader),
        Kind::Table => table(rt, reader),
        Kind::Critical => critical(rt, reader),
        Kind::Room => room(rt, reader),
    }
}

// The assignment: its answer, and the results after the call. The further list is the results before.
fn assign(rt: &HostRuntime, reader: &mut Reader<'_>) -> io::Result<()> {
    let lists = Lists::read(reader, PLACES)?;
    let mut results = reader.list(PLACES)?;
    match olda::assign(&lists.set(), &mut results) {
        Ok(Some(report)) => print!(rt; "placed {} {}", report.slack, report.place)?,
        Ok(None) => print!(rt; "nothing")?,
        Err(reason) => rt.print(Refusal(reason))?,
    }
    println!(rt; " {}", Listed(&results))
}

// The simulator: its answer, and the totals and finishes after the call. A run's further lists are local deadlines, asks
// and the finishes before; then come the totals before.
fn simulate(rt: &HostRuntime, reader: &mut Reader<'_>) -> io::Result<()> {
    let lists = Lists::read(reader, PLACES)?;
    let local = reader.list(PLACES)?;
    let asks = reader.list(PLACES)?;
    let mut finishes = reader.list(PLACES)?;
    let totals = edf::Totals {
        busy: reader.number(),
        idle: reader.number(),
    };
    let run = edf::simulate(&lists.set(), &local, &asks, &mut finishes, totals);
    match run.answer {
        Ok(report) => print!(rt; "ran {}", report.end)?,
        Err(reason) => rt.print(Refusal(reason))?,
    }
    println!(rt;
        " : {} {} {}",
        run.totals.busy,
        run.totals.idle,
        Listed(&finishes)
    )
}

// The checker: its answer alone. The further list is the proposed deadlines.
fn check(rt: &HostRuntime, reader: &mut Reader<'_>) -> io::Result<()> {
    let lists = Lists::read(reader, PLACES)?;
    let proposed = reader.list(PLACES)?;
    passed(rt, checker::check(&lists.set(), &proposed), "accepted")?;
    println!(rt)
}

// The table: the count of the bytes of the output, and the output.
fn table(rt: &HostRuntime, reader: &mut Reader<'_>) -> io::Result<()> {
    let Some(text) = reader.text() else {
        return Ok(());
    };
    // Kept so: an array, since `table::table` writes to one.
    let mut out = [0u8; ANSWER];
    let length = table::table(text, &mut out);
    println!(rt; "{length}")?;
    rt.write_all(&out[..length])?;
    println!(rt)
}

// Critical times from a graph: its answer, and the results after the call. Executions, the three lists of the arcs and
// the results before are read.
fn critical(rt: &HostRuntime, reader: &mut Reader<'_>) -> io::Result<()> {
    let executions = reader.list(PLACES)?;
    let befores = reader.list(ARCS)?;
    let afters = reader.list(ARCS)?;
    let hops = reader.list(ARCS)?;
    let mut results = reader.list(PLACES)?;
    let graph = Graph {
        executions: &executions,
        befores: &befores,
        afters: &afters,
        hops: &hops,
    };
    passed(rt, graph::critical(&graph, &mut results), "found")?;
    println!(rt; " {}", Listed(&results))
}

// The room: its answer, and deadlines, numbers and places after the call. Beside the six lists the lengths of the sets,
// and deadlines, numbers and places before it are read.
fn room(rt: &HostRuntime, reader: &mut Reader<'_>) -> io::Result<()> {
    let lists = Lists::read(reader, ROOM_PLACES)?;
    let lengths = reader.list(ROOM_SETS)?;
    let mut results = reader.list(ROOM_PLACES)?;
    let mut numbers = reader.list(ROOM_SETS)?;
    let mut places = reader.list(ROOM_SETS)?;
    let answer = room::assign(
        &lists.set(),
        &lengths,
        &mut results,
        &mut numbers,
        &mut places,
    );
    passed(rt, answer, "assigned")?;
    println!(rt; " {}", Listed(&results))?;
    println!(rt; " {}", Listed(&numbers))?;
    println!(rt; " {}", Listed(&places))
}

// What is said of a call that answers with nothing more: the word for one that passed, or why it is refused.
fn passed(rt: &HostRuntime, answer: Result<(), Reason>, word: &str) -> io::Result<()> {
    match answer {
        Ok(()) => rt.print(word),
        Err(reason) => rt.print(Refusal(reason)),
    }
}
