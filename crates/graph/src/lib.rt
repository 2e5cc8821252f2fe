// Critical times from a job's graph: for each sub-job the greatest sum of executions and hop delays along any path of its
// successors.
#![tactic(auto)]

ghost use Rattle.graph.specs.Graphs.{graph_of};
ghost use Rattle.graph.specs.Answers.{Finds};

pub use lent::Graph;
use subjobs::Reason;

mod guessing;
mod judging;
mod lent;
mod rounds;

// Writes each sub-job's critical time; or answers why there are none, with the results left as they were.
// Kept so: an array of which a part is used, since the library has no heap.
pub fn critical(graph: &Graph<'_>, results: &mut [u32]) -> Result<(), Reason>
    ensures { Finds (graph_of graph.now) results.old result results.new }
{
    let sound = judging::judge(graph, results.len())?;
    let mut found = [0u64; 128];
    rounds::settle(&sound, &mut found)?;
    rounds::write(&found, results);
    Ok(())
}
