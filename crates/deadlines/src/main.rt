// The table program.
#![tactic(auto)]

mod desk;

use std::io;

fn main(rt: HostRuntime) -> io::Result<()> {
    desk::serve(&rt)
}
