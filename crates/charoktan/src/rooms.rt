// A room at the door: its sets one after another, each by the door's own `assign` on its stretch of the bytes.
// Kept so: `adds_up`, `fitting`, `assign_each` and `assign` have twins in `room`, on lists. One walk for both takes a crate
// below them and closures, and is longer.
ghost use Rattle.std.specs.Prelude.{◌+◌, ◌*◌, ◌/◌, ◌<◌, ◌≡◌, eqb, length, get_or};
ghost use Rattle.lists.specs.Places.{total};
ghost use Rattle.stretches.specs.Stretches.{replaced};
ghost use Rattle.charoktan.specs.Answers.{told, Small};
ghost use Rattle.charoktan.specs.Rooms.{room_bytes, RoomsBytes, words_of, code_at, bytes_at, fitting_room, Stretch, Reads, AllRoomed};

use crate::bytes;
use subjobs::Reason;

// Whether lengths add up to the number of records. They are taken off it, so no sum can wrap.
fn adds_up(lengths: &[u8], records: usize) -> bool
    ensures { result ≡ eqb (total (words_of lengths.now)) records }
{
    let (lengths, _) = lengths.as_chunks::<4>();
    let mut left = records;
    for length in lengths {
        let Some(rest) = left.checked_sub(u32::from_le_bytes(*length) as usize) else {
            return false;
        };
        left = rest;
    }
    left == 0
}

// Whether the bytes are those of whole lists of one length each, and the lengths add up.
fn fitting(records: &[u8], lengths: &[u8], deadlines: usize, numbers: usize, places: usize) -> bool
    ensures { result ≡ fitting_room records.now lengths.now deadlines numbers places }
{
    crate::fitting(records, deadlines)
        && lengths.len() % 4 == 0
        && numbers == lengths.len()
        && places == lengths.len()
        && adds_up(lengths, records.len() / 24)
}

// One set: its stretch of the records and the middle of the deadlines are lent to the assignment.
fn assign_at(records: &[u8], start: usize, count: usize, deadlines: &mut [u8]) -> Result<(), Reason>
    requires { Stretch records.now deadlines.old start count }
    ensures small { Small result }
    ensures assigns { (told result ≡ code_at records.now start count)
        × (deadlines.new ≡ replaced (4 * start) (4 * count)
        (bytes_at records.now deadlines.old start count) deadlines.old) }
{
    let end = start + count;
    crate::assign(
        &records[24 * start..24 * end],
        &mut deadlines[4 * start..4 * end],
    )
}

// Every set in turn, whatever became of those before it.
fn assign_each(
    records: &[u8],
    lengths: &[u8],
    deadlines: &mut [u8],
    numbers: &mut [u8],
    places: &mut [u8],
)
    requires { Reads records.now lengths.now deadlines.old numbers.old places.old }
    ensures { AllRoomed records.now lengths.now deadlines.old
        deadlines.new numbers.new places.new }
{
    let (lengths, _) = lengths.as_chunks::<4>();
    let mut start = 0;
    for (k, length) in lengths.iter().enumerate() {
        let count = u32::from_le_bytes(*length) as usize;
        let (number, place) = crate::told(assign_at(records, start, count, deadlines));
        bytes::put(numbers, 4 * k, number);
        bytes::put(places, 4 * k, place);
        start += count;
    }
}

// The sets of a room, or why the whole is refused.
// Kept so: the five slices are those of the C interface.
pub(crate) fn assign(
    records: &[u8],
    lengths: &[u8],
    deadlines: &mut [u8],
    numbers: &mut [u8],
    places: &mut [u8],
) -> Result<(), Reason>
    ensures small { Small result }
    ensures rooms { RoomsBytes (room_bytes records.now lengths.now deadlines.old
        numbers.old places.old)
        (told result) deadlines.new numbers.new places.new }
{
    if !fitting(
        records,
        lengths,
        deadlines.len(),
        numbers.len(),
        places.len(),
    ) {
        return Err(Reason::Lengths);
    }
    if 32 < lengths.len() / 4 || 4_096 < records.len() / 24 {
        return Err(Reason::TooLarge);
    }
    assign_each(records, lengths, deadlines, numbers, places);
    Ok(())
}
