// Numbers and lists of numbers in decimal text. Where the text is not as it should be, or has ended,
// numbers are 0 and lists are empty: a case of kind 0 ends the program.
ghost use Rattle.std.specs.Prelude.{◌≤◌, IfOk, length, vec_len};

use std::alloc::{AllocError, Global};
use std::io::{self, Read};
use std::slice::Iter;
use subjobs::Set;

// Reads standard input to its end or until the room is full, and answers how many bytes came; or the error of a read
// that failed.
// Kept so: a loop of `read` into one room, and no `read_to_end`. One read takes a whole message, and std's first ones ask for
// 512 bytes: of a longer message the rest is lost, where standard input keeps messages apart. It also reads on where a read
// was interrupted, and there the program has to end with that error. And its `Vec` doubles: two mebibytes took 2,296 KiB more.
pub(crate) fn fill(rt: &HostRuntime, room: &mut [u8]) -> io::Result<usize>
    ensures { IfOk result (λ n. n ≤ length room.new) }
{
    let mut input = rt.stdin();
    let mut n = 0;
    while n < room.len() {
        let more = input.read(&mut room[n..])?;
        if more == 0 {
            return Ok(n);
        }
        n += more;
    }
    Ok(n)
}

// The least room that a list is given, in numbers. Pieces of up to 1,032 bytes glibc keeps apart once they are freed. With none
// so small, what a case frees is one piece again, and the heap stays at the 132 KiB that it begins with, on every text.
const LEAST: usize = 300;

// A text that is read from front to back, and the allocator of its lists.
#[derive(Drop)]
pub(crate) struct Reader<'a> {
    bytes: Iter<'a, u8>,
    alloc: Global,
}

impl<'a> Reader<'a> {
    // Begins at the front of a text.
    pub(crate) fn new(text: &'a [u8], alloc: Global) -> Reader<'a> {
        Reader {
            bytes: text.iter(),
            alloc,
        }
    }

    // The number that stands next, read with the one byte that follows it; the largest where that is too large.
    pub(crate) fn number(&mut self) -> u64 {
        self.bytes
            .by_ref()
            .map_while(|byte| char::from(*byte).to_digit(10))
            .fold(0u64, |value, digit| {
                value.saturating_mul(10).saturating_add(u64::from(digit))
            })
    }

    // The list that stands next, its length and then its numbers. One longer than `limit` ends the text.
    // Kept so: no `collect`, which asks for as many numbers as come: lists of many lengths cut up the heap, which then grows by
    // 136 KiB.
    pub(crate) fn list(&mut self, limit: usize) -> Result<Vec<u32>, AllocError>
        ensures { IfOk result (λ list. vec_len list ≤ limit) }
    {
        let count = self.number() as usize;
        if limit < count {
            self.end();
            return Ok(Vec::new(self.alloc));
        }
        let mut list = Vec::with_capacity(self.alloc, limit.max(LEAST))?;
        for _ in 0..count {
            list.push(u32::try_from(self.number()).unwrap_or(u32::MAX))?;
        }
        Ok(list)
    }

    // The text that stands next, its length before it and one byte behind it. One that is cut off ends the text.
    pub(crate) fn text(&mut self) -> Option<&'a [u8]> {
        let length = self.number() as usize;
        let Some((text, [_, behind @ ..])) = self.bytes.as_slice().split_at_checked(length) else {
            self.end();
            return None;
        };
        self.bytes = behind.iter();
        Some(text)
    }

    // Nothing more stands in the text.
    fn end(&mut self) {
        self.bytes = [].iter();
    }
}

// The six lists of a set of sub-jobs.
#[derive(Drop)]
pub(crate) struct Lists {
    pub(crate) jobs: Vec<u32>,
    pub(crate) subtasks: Vec<u32>,
    pub(crate) releases: Vec<u32>,
    pub(crate) executions: Vec<u32>,
    pub(crate) deadlines: Vec<u32>,
    pub(crate) criticals: Vec<u32>,
}

impl Lists {
    // The six lists that stand next, each of at most `limit` numbers.
    pub(crate) fn read(reader: &mut Reader<'_>, limit: usize) -> Result<Lists, AllocError> {
        Ok(Lists {
            jobs: reader.list(limit)?,
            subtasks: reader.list(limit)?,
            releases: reader.list(limit)?,
            executions: reader.list(limit)?,
            deadlines: reader.list(limit)?,
            criticals: reader.list(limit)?,
        })
    }

    // The set, lent.
    pub(crate) fn set(&self) -> Set<'_> {
        Set {
            jobs: &self.jobs,
            subtasks: &self.subtasks,
            releases: &self.releases,
            executions: &self.executions,
            deadlines: &self.deadlines,
            criticals: &self.criticals,
        }
    }
}
