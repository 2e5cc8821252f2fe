// A job's graph as it is lent, and one that is judged.
ghost use Rattle.graph.specs.Graphs.{graph_of, size};
ghost use Rattle.graph.specs.Faults.{Sound};

// Executions, one for each sub-job, and arcs by index in three lists: the place they start from, the place they lead to,
// their hop delay.
// Kept so: lent slices of numbers, not one list of arcs (docs/RULES.md, "Forms of the code").
#[derive(Clone, Copy)]
pub struct Graph<'a> {
    pub executions: &'a [u32],
    pub befores: &'a [u32],
    pub afters: &'a [u32],
    pub hops: &'a [u32],
}

// One that passed refusals 1, 2, 3 and 20.
#[derive(Clone, Copy)]
pub(crate) struct SoundGraph<'a> {
    pub(crate) graph: Graph<'a>,
    ghost sound: { Sound (graph_of graph) (size (graph_of graph)) },
}
