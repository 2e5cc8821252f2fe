// Tails: the sub-jobs released at or after one release, as parts of the executions in release order; their completions,
// and the search for the greatest. Callers know them by `completions` and `Greatest` alone, however they are added up.
ghost use Rattle.std.specs.Prelude.{◌+◌, ◌^◌, ◌<◌, ◌≡◌, map, sum, length, take};
ghost use Rattle.olda.specs.Parts.{at, completions, Ordering, Tails, Greatest};

// Writes the executions in release order.
// Kept so: by `iter_mut().zip` the invariant has no name for `ends`, as in `bounding::raise`.
fn executions_in_order(order: &[u32], executions: &[u32], ends: &mut [u32])
    requires { Ordering executions.now order.now ends.old }
    ensures { take (length order.now) ends.new ≡ map (at executions.now) order.now }
{
    for (i, place) in order.iter().enumerate() {
        ends[i] = executions[*place as usize];
    }
}

// The completion of one tail: the release of its first sub-job plus all its executions.
fn completion(release: u32, tail: &[u32]) -> u32
    requires { release + sum tail.now < 2 ^ 32 }
    ensures { result ≡ release + sum tail.now }
{
    release + tail.iter().sum::<u32>()
}

// The completion of each tail, where it starts: what stands before i are completions already, from i on executions
// still, the tail that is added next.
pub(crate) fn completions(order: &[u32], releases: &[u32], executions: &[u32], ends: &mut [u32])
    requires { Tails releases.now executions.now order.now ends.old }
    ensures { take (length order.now) ends.new
        ≡ completions (at releases.now) (at executions.now) order.now }
{
    executions_in_order(order, executions, ends);
    let n = order.len();
    for i in 0..n {
        ends[i] = completion(releases[order[i] as usize], &ends[i..n]);
    }
}

// Where the base subset starts: the tail of the greatest completion, of several the latest.
// Kept so: tried `max_by_key`: misses the bar of speed (6123 -> 6700 at 16, 173435 -> 188897 at 128).
pub(crate) fn base_tail(ends: &[u32]) -> usize
    requires { 0 < length ends.now }
    ensures { Greatest ends.now result }
{
    let mut start = 0;
    for i in 1..ends.len() {
        if ends[start] <= ends[i] {
            start = i;
        }
    }
    start
}
