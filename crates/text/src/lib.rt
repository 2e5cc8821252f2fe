// Text of numbers in fields, records and lines, read and written. It knows no sub-job and no refusal; every public
// function takes whatever it is handed.
#![tactic(auto)]

pub mod reading;
pub mod writing;
