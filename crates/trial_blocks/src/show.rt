// Lines of output.
use record::Reason;
use std::fmt;
use std::fmt::{Display, Write};

// Where the programs print to: a failure to write is not told.
#[derive(Drop)]
struct Output;

impl Write for Output {
    fn write_str(&mut self, s: &str) -> fmt::Result {
        io::write_all(1, s.as_bytes());
        Ok(())
    }
}

pub fn print(what: impl Display + Drop) {
    let _ = write!(Output, "{what}");
}

// A name and a count, a line of their own.
pub fn count(name: &str, n: usize) {
    print(format_args!("{name} {n}\n"));
}

// What an operation answered.
#[derive(Clone, Copy)]
pub struct Answered(pub Result<(), Reason>);

impl Display for Answered {
    fn fmt<W: Write>(&self, f: &mut fmt::Formatter<W>) -> fmt::Result {
        match self.0 {
            Ok(()) => f.write_str(" accepted"),
            Err(reason) => {
                let number = record::number_of(reason);
                let place = record::place_of(reason);
                write!(f, " refused {number} at {place}")
            }
        }
    }
}
