// The lines of the report: the header, the line of a record, the lines of a piece of an archive.
#![tactic(auto)]

mod fields;
mod records;

pub use records::{header, line_into, lines_into};
