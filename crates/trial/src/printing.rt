// Lists and refusals as the trial prints them.
use std::fmt;
use subjobs::{Reason, Told};

// The numbers of a list behind a colon.
#[derive(Drop)]
pub(crate) struct Listed<'a>(pub(crate) &'a [u32]);

impl fmt::Display for Listed<'_> {
    fn fmt<W: fmt::Write>(&self, f: &mut fmt::Formatter<W>) -> fmt::Result {
        write!(f, ":")?;
        for number in self.0 {
            write!(f, " {number}")?;
        }
        Ok(())
    }
}

// A refusal: its number and place, for number 3 the field, for number 5 completion and bound.
#[derive(Drop)]
pub(crate) struct Refusal(pub(crate) Reason);

impl fmt::Display for Refusal {
    fn fmt<W: fmt::Write>(&self, f: &mut fmt::Formatter<W>) -> fmt::Result {
        let told = Told::from(self.0);
        write!(f, "refused {} {}", told.number, told.place)?;
        match self.0 {
            Reason::Range { .. } => write!(f, " {}", told.field),
            Reason::Late { .. } => write!(f, " {} {}", told.completion, told.bound),
            _ => Ok(()),
        }
    }
}
