// Numbers in the engine's bytes, 32 bits little-endian.
ghost use Rattle.std.specs.Prelude.{◌+◌, ◌*◌, ◌/◌, ◌≤◌, ◌≡◌, ◌++◌, length, take, drop};
ghost use Rattle.subjobs.specs.Sets.{subjobs_of};
ghost use Rattle.charoktan.specs.Records.{word, column, words, count, records, bytes, encoded};

use subjobs::Set;

// The number whose four bytes begin at a byte.
// Kept so: by `as_chunks` the byte would have to be a place among whole numbers, and the definition `word` goes by the byte.
fn word(bytes: &[u8], at: usize) -> u32
    requires { at + 4 ≤ length bytes.now }
    ensures { result ≡ word bytes.now at }
{
    u32::from_le_bytes([bytes[at], bytes[at + 1], bytes[at + 2], bytes[at + 3]])
}

// One number of each record of WIDTH bytes, the one at byte `at` of it: read into a room, and lent from there.
pub(crate) fn column<'a, const WIDTH: usize>(
    bytes: &[u8],
    at: usize,
    room: &'a mut [u32],
) -> &'a [u32]
    requires inside { at + 4 ≤ WIDTH }
    requires narrow { WIDTH ≤ 24 }
    requires room { length bytes.now / WIDTH ≤ length room.old }
    ensures { result.now ≡ column bytes.now WIDTH at (length bytes.now / WIDTH) }
{
    let (records, _) = bytes.as_chunks::<WIDTH>();
    for (i, record) in records.iter().enumerate() {
        room[i] = word(record, at);
    }
    &room[..records.len()]
}

// The numbers of whole lists of 4 bytes.
// Not inlined, nor is `put_all`: beside the room that the numbers lie in, these loops become calls of memcpy, which the
// archive must not need.
#[inline(never)]
pub(crate) fn words<'a>(bytes: &[u8], room: &'a mut [u32]) -> &'a [u32]
    requires { length bytes.now / 4 ≤ length room.old }
    ensures { result.now ≡ words bytes.now (length bytes.now / 4) }
{
    column::<4>(bytes, 0, room)
}

// Room for the six fields of N records.
// Kept so: arrays of which a part is used, since the library has no heap; and beside `table`'s `Records`, since these are
// read in one pass, with no count and no Model, and those record by record: one type for both would have all of either.
#[derive(Drop)]
pub(crate) struct Fields<const N: usize> {
    jobs: [u32; N],
    subtasks: [u32; N],
    releases: [u32; N],
    executions: [u32; N],
    deadlines: [u32; N],
    criticals: [u32; N],
}

impl<const N: usize> Fields<N> {
    // All zeros: nothing is read yet.
    pub(crate) fn new() -> Fields<N> {
        Fields {
            jobs: [0; N],
            subtasks: [0; N],
            releases: [0; N],
            executions: [0; N],
            deadlines: [0; N],
            criticals: [0; N],
        }
    }

    // The set that records of 24 bytes hold: read into the room, and lent from there.
    // Kept so: tried: six passes of `column` in place of one miss the bar of speed (4, 16 and 64 accepted sub-jobs 1025 8719
    // 55623 -> 1092 9225 55709 instructions).
    pub(crate) fn read(&mut self, bytes: &[u8]) -> Set<'_>
        requires { count bytes.now ≤ N }
        ensures { subjobs_of result ≡ records bytes.now }
    {
        let (records, _) = bytes.as_chunks::<24>();
        for (i, record) in records.iter().enumerate() {
            self.jobs[i] = word(record, 0);
            self.subtasks[i] = word(record, 4);
            self.releases[i] = word(record, 8);
            self.executions[i] = word(record, 12);
            self.deadlines[i] = word(record, 16);
            self.criticals[i] = word(record, 20);
        }
        let n = records.len();
        Set {
            jobs: &self.jobs[..n],
            subtasks: &self.subtasks[..n],
            releases: &self.releases[..n],
            executions: &self.executions[..n],
            deadlines: &self.deadlines[..n],
            criticals: &self.criticals[..n],
        }
    }
}

// The four bytes of a number, at a byte.
pub(crate) fn put(out: &mut [u8], at: usize, v: u32)
    requires { at + 4 ≤ length out.old }
    ensures { out.new ≡ take at out.old ++ bytes v ++ drop (at + 4) out.old }
{
    out[at..at + 4].copy_from_slice(&v.to_le_bytes());
}

// The bytes of all numbers.
// Kept so: places are counted, here and in `assign_each` of the room, since of the slice behind `as_chunks_mut` std says
// nothing, once it is written.
#[inline(never)]
pub(crate) fn put_all(values: &[u32], out: &mut [u8])
    requires { length out.old ≡ 4 * length values.now }
    ensures { out.new ≡ encoded values.now }
{
    for (i, value) in values.iter().enumerate() {
        put(out, 4 * i, *value);
    }
}
