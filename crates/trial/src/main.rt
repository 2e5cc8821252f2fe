// The trial: it reads cases of the assignment, the simulator with its totals, the checker, the
// table, the graph and the room, and prints the answers, with the lists as they are afterwards. Its `stdin`
// and `stdout` are written by the second program, which shares no code with the library, so the
// gate holds the one to the other.
#![tactic(auto)]

ghost use Rattle.std.specs.Prelude.{◌≡◌, length};

mod cases;
mod printing;
mod reading;

use std::io;

// Text beyond two mebibytes is not read.
fn main(rt: HostRuntime) -> io::Result<()> {
    let mut text = room();
    let n = reading::fill(&rt, &mut text)?;
    cases::all(&rt, &text[..n])
}

// Room for every case, two mebibytes. The `ensures` gives only its length: a proof that saw the zeros
// would count them.
// Kept so: an array, since a `Vec` of this length needs 107 KiB more: its pages stand beside the stack's first ones, which
// an array takes too.
fn room() -> [u8; 2_097_152]
    ensures { 2097152 ≡ length result }
{
    [0; 2_097_152]
}
