// The desk of the table program: standard input in, the answer out.
ghost use Rattle.std.specs.Prelude.{◌≤◌, IfOk, length};

use std::io::{self, Read};

// Room for the longest text that is a table, and for one byte more, by which a longer one is known.
const TEXT: usize = 16_384 + 1;

// Room for every answer, as `table::table` asks for it.
const ANSWER: usize = 7_203;

// Reads standard input to its end or until the room is full, and answers how many bytes came; or the error, if a read
// failed.
// Kept so: std's `read_to_end` says nothing of what stands in the room after an error, and the beginning of a table must not
// be taken for the whole. It also reads on where a read was interrupted, and there the program has to end with its line.
fn fill(rt: &HostRuntime, room: &mut [u8]) -> io::Result<usize>
    ensures { IfOk result (λ n. n ≤ length room.new) }
{
    let mut input = rt.stdin();
    let mut n = 0;
    while n < room.len() {
        let more = input.read(&mut room[n..])?;
        if more == 0 {
            return Ok(n);
        }
        n += more;
    }
    Ok(n)
}

// Reads standard input to its end or to one byte over 16,384, and prints the answer to that text. If it cannot be read
// there is no answer, and a line on standard error says so.
// Kept so: two arrays, since `table::table` writes to one and `fill` to a room.
pub(crate) fn serve(rt: &HostRuntime) -> io::Result<()> {
    let mut text = [0u8; TEXT];
    match fill(rt, &mut text) {
        Ok(n) => {
            let mut out = [0u8; ANSWER];
            let k = table::table(&text[..n], &mut out);
            rt.write_all(&out[..k])
        }
        Err(_) => rt.eprintln("deadlines: standard input could not be read"),
    }
}
