// The archive that the engine links, libcharoktan.a: the door's functions for C and C++, each with the clauses of the
// function of `charoktan` that it calls.
#![tactic(auto)]

ghost use Rattle.charoktan.specs.Answers.{AssignsBytes, ChecksBytes, FindsBytes};
ghost use Rattle.charoktan.specs.Rooms.{room_bytes, RoomsBytes};

// The assignment: 0, with the deadlines written, or a refusal's number, with every byte left as it was.
#[unsafe(no_mangle)]
pub extern "C" fn charoktan_assign(records: &[u8], deadlines: &mut [u8]) -> u32
    ensures { AssignsBytes records.now deadlines.old result deadlines.new }
{
    charoktan::charoktan_assign(records, deadlines)
}

// The checker: 0 if the proposed deadlines are accepted, or a refusal's number.
#[unsafe(no_mangle)]
pub extern "C" fn charoktan_check(records: &[u8], deadlines: &[u8]) -> u32
    ensures { ChecksBytes records.now deadlines.now result }
{
    charoktan::charoktan_check(records, deadlines)
}

// Critical times from a graph: 0, with the results written, or a refusal's number, with every byte left as it was.
#[unsafe(no_mangle)]
pub extern "C" fn charoktan_critical(executions: &[u8], arcs: &[u8], results: &mut [u8]) -> u32
    ensures { FindsBytes executions.now arcs.now results.old result results.new }
{
    charoktan::charoktan_critical(executions, arcs, results)
}

// The sets of a room: 0, with each set's number and place written and the deadlines of those that are accepted; or a
// refusal of the whole, with every byte left as it was.
#[unsafe(no_mangle)]
pub extern "C" fn charoktan_room(
    records: &[u8],
    lengths: &[u8],
    deadlines: &mut [u8],
    numbers: &mut [u8],
    places: &mut [u8],
) -> u32
    ensures { RoomsBytes (room_bytes records.now lengths.now deadlines.old
        numbers.old places.old)
        result deadlines.new numbers.new places.new }
{
    charoktan::charoktan_room(records, lengths, deadlines, numbers, places)
}
