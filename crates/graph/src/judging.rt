// Refusals 1, 2, 3 and 20 of a graph.
ghost use Rattle.std.specs.Prelude.{◌≤◌, ◌≡◌, ◌&&◌, leb, ltb, not, length, position, IfOk};
ghost use Rattle.std.specs.List.{zip};
ghost use Rattle.subjobs.specs.Judging.{judged, unless, first_refusal};
ghost use Rattle.subjobs.specs.declared.Reason.TheVariants.{Range, Stray};
ghost use Rattle.graph.specs.Graphs.{graph_of, size, arcs};
ghost use Rattle.graph.specs.Answers.{arc_at, judgement};
ghost use Rattle.graph.specs.Parts.{at};

use crate::lent::{Graph, SoundGraph};
use subjobs::{Field, Reason};

// The place of the first number that is not one of `low` to `high`.
fn first_outside(numbers: &[u32], low: u32, high: u32) -> Option<usize>
    ensures { result ≡ position (λ x. not (leb low x && leb x high)) numbers.now }
{
    numbers.iter().position(|x| !(low..=high).contains(x))
}

// 3: a number that is not one of `low` to `high`.
fn in_range(numbers: &[u32], low: u32, high: u32, field: Field) -> Result<(), Reason>
    ensures { result ≡ first_refusal
        (λ i. unless (leb low (at numbers.now i) && leb (at numbers.now i) high) (Range i field))
        (length numbers.now) }
{
    match first_outside(numbers, low, high) {
        Some(place) => Err(Reason::Range { place, field }),
        None => Ok(()),
    }
}

// The first arc that does not start from or does not lead to a sub-job.
fn first_stray(graph: &Graph) -> Option<usize>
    requires { size (graph_of graph.now) ≤ 128 }
    ensures { result ≡ position
        (λ arc. not (ltb arc.0 (size (graph_of graph.now)) && ltb arc.1 (size (graph_of graph.now))))
        (zip graph.now.befores.now graph.now.afters.now) }
{
    let n = graph.executions.len() as u32;
    let mut ends = graph.befores.iter().zip(graph.afters);
    ends.position(|(before, after)| !(*before < n && *after < n))
}

// 20: an arc that names no sub-job.
fn named(graph: &Graph) -> Result<(), Reason>
    requires { (size (graph_of graph.now) ≤ 128) × (length graph.now.afters.now ≡ length graph.now.befores.now) }
    ensures { result ≡ first_refusal (arc_at (graph_of graph.now)) (arcs (graph_of graph.now)) }
{
    match first_stray(graph) {
        Some(arc) => Err(Reason::Stray { arc }),
        None => Ok(()),
    }
}

// The refusals in their order; `results` is the length of the result list.
fn refusals(graph: &Graph<'_>, results: usize) -> Result<(), Reason>
    ensures { result ≡ judgement (graph_of graph.now) results }
{
    let n = graph.executions.len();
    let m = graph.befores.len();
    if !((results == n) & (graph.afters.len() == m) & (graph.hops.len() == m)) {
        return Err(Reason::Lengths);
    }
    if !((n <= 128) & (m <= 1_024)) {
        return Err(Reason::TooMany);
    }
    in_range(graph.executions, 1, 1_000_000, Field::Execution)?;
    in_range(graph.hops, 0, 100_000, Field::Hop)?;
    named(graph)
}

// The same graph, if it passes.
pub(crate) fn judge<'a>(graph: &Graph<'a>, results: usize) -> Result<SoundGraph<'a>, Reason>
    ensures answer { judged result ≡ judgement (graph_of graph.now) results }
    ensures same { IfOk result (λ sound. sound.graph ≡ graph.now) }
{
    refusals(graph, results)?;
    Ok(SoundGraph { graph: *graph })
}
