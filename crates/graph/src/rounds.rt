// Rounds over the arcs until nothing changes. Each place has a value, 0 at first, which is always the weight of some path
// from it; a round raises each arc's start to what the arc asks.
ghost use Rattle.std.specs.Prelude.{◌<◌, ◌≤◌, ◌≡◌, length, take};
ghost use Rattle.graph.specs.Graphs.{graph_of, arcs};
ghost use Rattle.graph.specs.Parts.{arc_at, AtMost, Values, Raised, Rounded, Settles, Small};

use crate::guessing::guess;
use crate::lent::SoundGraph;
use subjobs::Reason;

// Raises the start of an arc to what the arc asks, which is its cost and the value of the place that it leads to. Whether
// it rose.
// Kept so: a struct of graph and values, tried, is no plainer. Its invariant could only be `∥ Attained ∥₁`, since `Attained`
// gives each value's path, so a bound stays in every clause; and eight facts come to them: that the graph stays, for raise,
// round, settle, guess, take and peel, and that it is the linked one, for take and peel.
pub(crate) fn raise(sound: &SoundGraph, found: &mut [u64; 128], arc: usize) -> bool
    requires { (arc < arcs (graph_of sound.now.graph)) × Values (graph_of sound.now.graph) 300 found.old }
    ensures { Raised (graph_of sound.now.graph) arc found.old found.new result }
{
    let graph = sound.graph;
    let before = graph.befores[arc] as usize;
    let after = graph.afters[arc] as usize;
    let asked = u64::from(graph.hops[arc]) + u64::from(graph.executions[after]) + found[after];
    if asked <= found[before] {
        return false;
    }
    found[before] = asked;
    true
}

// The k-th of m arcs that round `turn` looks at. Even rounds go backwards: one is enough where arcs are listed as paths
// run, and two where they are listed the other way round.
fn arc_at(turn: usize, m: usize, k: usize) -> usize
    requires { k < m }
    ensures { (result ≡ arc_at turn m k) × (result < m) }
{
    if turn % 2 == 0 { m - 1 - k } else { k }
}

// One round: whether any value rose.
fn round(sound: &SoundGraph, found: &mut [u64; 128], turn: usize) -> bool
    requires { Values (graph_of sound.now.graph) 299 found.old }
    ensures { Rounded (graph_of sound.now.graph) found.old found.new result }
{
    let m = sound.graph.befores.len();
    let mut rose = false;
    for k in 0..m {
        if raise(sound, found, arc_at(turn, m, k)) {
            rose = true;
        }
    }
    rose
}

// Rounds until nothing rises. One more than there are places shows a cycle, refusal 21, if they all raise something. Three
// are enough where the arcs are listed as paths run, either way; otherwise many of them are saved by a guess, unless they
// are few.
pub(crate) fn settle(sound: &SoundGraph, found: &mut [u64; 128]) -> Result<(), Reason>
    requires { AtMost 0 found.old }
    ensures { Settles (graph_of sound.now.graph) found.new result }
{
    let n = sound.graph.executions.len();
    for turn in 0..n + 1 {
        if !round(sound, found, turn) {
            return Ok(());
        }
        if (turn == 2) & (8 < n) {
            guess(sound, found);
        }
    }
    Err(Reason::Cycle)
}

// The values, in 32 bits. They fit, as `Small` says, so `try_from` would have an error that never comes.
// Kept so: tried `out.iter_mut().zip(found)`: the proof did not close at `returns`, since no fact ties what stands in `out`
// after such a loop to what the loop wrote.
pub(crate) fn write(found: &[u64], out: &mut [u32])
    requires { Small found.now (length out.old) }
    ensures { out.new ≡ take (length out.old) found.now }
{
    for (place, time) in out.iter_mut().enumerate() {
        *time = found[place] as u32;
    }
}
