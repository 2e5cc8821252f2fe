// A set of sub-jobs, six lent lists of 32-bit numbers, and the reasons for which a set is refused.
#![tactic(auto)]

ghost use Rattle.std.specs.Prelude.{◌≡◌, IfOk, IsOk, true};
ghost use Rattle.subjobs.specs.Reasons.{at, field_number, tell};
ghost use Rattle.subjobs.specs.Sets.{subjobs_of};
ghost use Rattle.subjobs.specs.Judging.{one_length, judged, Judges};
ghost use Rattle.subjobs.specs.Faults.{Fit};

mod judging;

use judging::OneLengthSet;

// A set of sub-jobs: six lent lists of 32-bit numbers, one place per sub-job.
// Kept so: a lent slice for each field, not one list of sub-jobs (docs/RULES.md, "Forms of the code").
#[derive(Clone, Copy)]
pub struct Set<'a> {
    pub jobs: &'a [u32],
    pub subtasks: &'a [u32],
    pub releases: &'a [u32],
    pub executions: &'a [u32],
    pub deadlines: &'a [u32],
    pub criticals: &'a [u32],
}

// A set that passes refusals 1 to 4: `judge` makes one of each set that does.
#[derive(Clone, Copy)]
pub struct FitSet<'a> {
    pub set: Set<'a>,
    ghost fit: { Fit (subjobs_of set) true },
}

impl<'a> Set<'a> {
    // Whether all lists are of one length. `others` says it of the call's further lists.
    pub fn one_length(&self, others: bool) -> bool
        ensures { result ≡ one_length (subjobs_of self.now) others }
    {
        let n = self.jobs.len();
        self.subtasks.len() == n
            && self.releases.len() == n
            && self.executions.len() == n
            && self.deadlines.len() == n
            && self.criticals.len() == n
            && others
    }

    // Refusals 1 to 4, in the order of the numbers.
    fn refusals(&self, others: bool) -> Result<(), Reason>
        ensures { Judges (subjobs_of self.now) others result }
    {
        if !self.one_length(others) {
            return Err(Reason::Lengths);
        }
        if 128 < self.jobs.len() {
            return Err(Reason::TooMany);
        }
        let lists = OneLengthSet { set: *self };
        lists.ranges()?;
        lists.pairs()
    }

    // The same set, if it passes refusals 1 to 4. `others` says whether the further lists of the call, results included,
    // are as long as `jobs`.
    pub fn judge(self, others: bool) -> Result<FitSet<'a>, Reason>
        ensures judges { Judges (subjobs_of self.entry) others (judged result) }
        ensures same { IfOk result (λ fit. fit.set ≡ self.entry) }
        ensures further { IsOk result → others ≡ true }
    {
        self.refusals(others)?;
        Ok(FitSet { set: self })
    }
}

// A field with a range of its own. The order in which those of a sub-job are looked at is that of `range_at` (judging.rt); a
// hop delay is an arc's.
#[derive(Clone, Copy, Debug, PartialEq, Eq)]
pub enum Field {
    Release,
    Execution,
    Deadline,
    Critical,
    Hop,
}

// Why a set, a run, a proposal, a text, a graph or a room is refused, with the details that the table of refusals reports.
#[derive(Clone, Copy, Debug, PartialEq, Eq)]
pub enum Reason {
    Lengths,
    TooMany,
    Range {
        place: usize,
        field: Field,
    },
    Pair {
        place: usize,
    },
    Late {
        place: usize,
        completion: u32,
        bound: i64,
    },
    Unmet {
        place: usize,
    },
    Missed {
        place: usize,
    },
    Totals,
    TextTooLong,
    Header,
    Malformed {
        line: usize,
    },
    Stray {
        arc: usize,
    },
    Cycle,
    TooLarge,
}

// What the table of refusals says of a reason: number, place and details, 0 for a detail it does not carry.
// Kept so: `values`, by which the promises speak, gives all five numbers of every reason.
#[derive(Clone, Copy, Debug, PartialEq, Eq)]
pub struct Told {
    pub number: u32,
    pub place: usize,
    pub field: u32,
    pub completion: u32,
    pub bound: i64,
}

impl Told {
    // A reason that carries no detail but a place.
    fn at(number: u32, place: usize) -> Told
        ensures { result ≡ at number place }
    {
        Told {
            number,
            place,
            field: 0,
            completion: 0,
            bound: 0,
        }
    }
}

// The number by which number 3 reports a field.
impl From<Field> for u32 {
    ghost from_gives = { λ f n. n ≡ field_number f };

    fn from(field: Field) -> u32 {
        match field {
            Field::Release => 1,
            Field::Execution => 2,
            Field::Deadline => 3,
            Field::Critical => 4,
            Field::Hop => 5,
        }
    }
}

// The table of refusals, a line per reason.
impl From<Reason> for Told {
    ghost from_gives = { λ r t. t ≡ tell r };

    fn from(reason: Reason) -> Told {
        match reason {
            Reason::Lengths => Told::at(1, 0),
            Reason::TooMany => Told::at(2, 0),
            Reason::Range { place, field } => Told {
                field: u32::from(field),
                ..Told::at(3, place)
            },
            Reason::Pair { place } => Told::at(4, place),
            Reason::Late {
                place,
                completion,
                bound,
            } => Told {
                completion,
                bound,
                ..Told::at(5, place)
            },
            Reason::Unmet { place } => Told::at(6, place),
            Reason::Missed { place } => Told::at(7, place),
            Reason::Totals => Told::at(8, 0),
            Reason::TextTooLong => Told::at(10, 0),
            Reason::Header => Told::at(11, 1),
            Reason::Malformed { line } => Told::at(12, line),
            Reason::Stray { arc } => Told::at(20, arc),
            Reason::Cycle => Told::at(21, 0),
            Reason::TooLarge => Told::at(22, 0),
        }
    }
}
