// The records of a table: the numbers of each field in an array of their own, which are lent as the lists of a set.
ghost use Rattle.std.specs.Prelude.{[], ◌<◌, ◌≤◌, ◌≡◌, take};
ghost use Rattle.subjobs.specs.Sets.{Subjobs, subjobs, subjobs_of, size};
ghost use Rattle.table.specs.Stores.{pushed};

use std::marker::Model;
use subjobs::Set;

// Room for 128 records, of which `count` are here.
// Kept so: arrays and a count, since the library has no heap; the invariant ties them. And beside the door's `Fields`, which
// are read in one pass.
#[derive(Drop)]
pub(crate) struct Records {
    jobs: [u32; 128],
    subtasks: [u32; 128],
    releases: [u32; 128],
    executions: [u32; 128],
    deadlines: [u32; 128],
    criticals: [u32; 128],
    count: usize,
}

// A clause sees the set of the sub-jobs that the records tell.
impl Model for Records {
    ghost Value = { Subjobs };

    ghost view = { λ r. subjobs
        (take r.count r.jobs) (take r.count r.subtasks) (take r.count r.releases)
        (take r.count r.executions) (take r.count r.deadlines) (take r.count r.criticals) };

    ghost invariant = { λ r. r.count ≤ 128 };
}

impl Records {
    pub(crate) fn new() -> Self
        ensures { result ≡ subjobs [] [] [] [] [] [] }
    {
        Records {
            jobs: [0; 128],
            subtasks: [0; 128],
            releases: [0; 128],
            executions: [0; 128],
            deadlines: [0; 128],
            criticals: [0; 128],
            count: 0,
        }
    }

    // How many records there are.
    pub(crate) fn len(&self) -> usize
        ensures size { result ≡ size self.now }
        ensures few { result ≤ 128 }
    {
        self.count
    }

    // One more record, its numbers in the header's order.
    pub(crate) fn push(&mut self, row: &[u32; 6])
        requires { size self.old < 128 }
        ensures { self.new ≡ pushed self.old row.now }
    {
        let i = self.count;
        self.jobs[i] = row[0];
        self.subtasks[i] = row[1];
        self.releases[i] = row[2];
        self.executions[i] = row[3];
        self.deadlines[i] = row[4];
        self.criticals[i] = row[5];
        self.count += 1;
    }

    // The set of the sub-jobs that they tell.
    pub(crate) fn set(&self) -> Set<'_>
        ensures { subjobs_of result ≡ self.now }
    {
        let n = self.count;
        Set {
            jobs: &self.jobs[..n],
            subtasks: &self.subtasks[..n],
            releases: &self.releases[..n],
            executions: &self.executions[..n],
            deadlines: &self.deadlines[..n],
            criticals: &self.criticals[..n],
        }
    }
}
