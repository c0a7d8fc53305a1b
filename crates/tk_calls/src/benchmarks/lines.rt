//! The lines of runs.
use crate::benchmarks::times::Time;
use crate::host::Host;
use std::fmt;

/// A value of a line.
#[derive(Clone, Copy)]
pub enum Value<'a> {
    Word(&'a str),
    Number(u128),
    Time(Time),
}

impl fmt::Display for Value<'_> {
    fn fmt<W: fmt::Write>(&self, f: &mut fmt::Formatter<W>) -> fmt::Result {
        match self {
            Value::Word(word) => f.write_str(word),
            Value::Number(number) => write!(f, "{number}"),
            Value::Time(time) => write!(f, "{time}"),
        }
    }
}

/// Prints a line of these values, with a blank between them.
pub fn print_line(host: &Host<'_>, values: &[Value<'_>]) {
    let mut blank = "";
    for value in values {
        print!(host; "{blank}{value}");
        blank = " ";
    }
    host.println("");
}
