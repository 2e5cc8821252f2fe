// Upper bounds. What is taken off a deadline is read in one place, `withheld`, and what bounds are raised by has one name,
// RAISE; the rules' words for them are `withheld` and `raise`.
ghost use Rattle.std.specs.Prelude.{◌<◌, [], ◌≡◌, length};
ghost use Rattle.std.proofs.Math.IntN.{sub_ℕ};
ghost use Rattle.olda.specs.Parts.{limits, raise, Raising, Raised};

// Bounds are held raised by this, so that none is negative.
pub(crate) const RAISE: u32 = 1_000_000_000;

// What is taken off the deadline of a sub-job for its upper bound.
pub(crate) fn withheld(criticals: &[u32], place: usize) -> u32
    requires { place < length criticals.now }
    ensures { result ≡ (limits [] criticals.now).withheld place }
{
    criticals[place]
}

// The upper bounds of all sub-jobs, raised.
// Kept so: tried `iter_mut().zip`: the invariant then has no name for `bounds`, of which it has to speak.
pub(crate) fn raise(deadlines: &[u32], criticals: &[u32], bounds: &mut [u32])
    requires { Raising deadlines.now criticals.now bounds.old }
    ensures { Raised (limits deadlines.now criticals.now) (length deadlines.now) bounds.new }
{
    for i in 0..deadlines.len() {
        bounds[i] = deadlines[i] + RAISE - withheld(criticals, i);
    }
}

// How much the first is above the second, signed.
// Kept so: `i64::from` takes no u64, and `i64::try_from` would need a branch for what `requires` rules out.
pub(crate) fn difference(a: u32, b: u64) -> i64
    requires { b < 8589934592 }
    ensures { result ≡ sub_ℕ a b }
{
    i64::from(a) - (b as i64)
}

// A raised bound as the signed upper bound that it stands for.
pub(crate) fn signed(bound: u32) -> i64
    ensures { result ≡ sub_ℕ bound raise }
{
    difference(bound, u64::from(RAISE))
}
