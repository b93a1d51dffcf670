//! Why a script ends before its last line.
use crate::script::Side;
use crate::table::Field;
use std::alloc::{AllocError, AllocFailed};
use std::{fmt, io};

/// The greatest length of a script in bytes.
pub const LONGEST: u64 = 16777216;

/// What is wrong with a line.
#[derive(Drop)]
pub enum Fault {
    /// The line is no JSON. This is the column of the first byte that can't be read, from 1 on.
    NotJson(usize),
    /// The line is JSON, and no object.
    NotAnObject,
    /// A number anywhere in it has a point, an exponent, or more than 64 bits.
    Fraction,
    /// No agent was made on this side.
    NoAgent(Side),
    /// This field is missing.
    Missing(Field),
    /// The value of this field is not what it may be.
    Bad {
        field: Field,
        /// The value, as JSON.
        value: String,
    },
    /// No packet with this number was sent, but so many.
    NoPacket {
        number: u64,
        sent: usize,
    },
}

impl fmt::Display for Fault {
    fn fmt<W: fmt::Write>(&self, f: &mut fmt::Formatter<W>) -> fmt::Result {
        match self {
            Fault::NotJson(column) => write!(f, "not a script line: no JSON at column {column}"),
            Fault::NotAnObject => f.write_str("not a script line: no JSON object"),
            Fault::Fraction => {
                f.write_str("not a script line: a number in it is no whole number of 64 bits")
            }
            Fault::NoAgent(side) => write!(f, "no agent {side}: the call agent makes it"),
            Fault::Missing(Field(name, kind)) => write!(f, "missing {name}, which is {kind}"),
            Fault::Bad { field, value } => {
                write!(
                    f,
                    "bad {}: {} is not {}",
                    field.0,
                    Short(value.as_str()),
                    field.1
                )
            }
            Fault::NoPacket { number, sent } => {
                write!(f, "no packet {number}: so far {sent} were sent")
            }
        }
    }
}

/// How many characters of a value are printed.
const SHORT: usize = 60;

/// The beginning of a text, and two dots if there is more.
#[derive(Clone, Copy)]
struct Short<'a>(&'a str);

impl fmt::Display for Short<'_> {
    fn fmt<W: fmt::Write>(&self, f: &mut fmt::Formatter<W>) -> fmt::Result {
        let mut left = SHORT;
        for c in self.0.chars() {
            if left == 0 {
                return f.write_str("..");
            }
            left -= 1;
            f.write_char(c)?;
        }
        Ok(())
    }
}

/// Why no further line is played.
#[derive(Drop)]
pub enum Stop {
    /// The line has this fault.
    Line(Fault),
    OutOfMemory,
    /// The input is longer than [`LONGEST`].
    TooLong,
    NotUtf8,
    Reading(io::Error),
    Writing(io::Error),
}

impl Stop {
    /// The exit status.
    pub fn status(&self) -> u8 {
        match self {
            Stop::Line(_) => 1,
            _ => 2,
        }
    }

    /// The read failed with this error.
    pub fn of_reading(error: io::Error) -> Stop {
        match error.kind() {
            io::ErrorKind::OutOfMemory => Stop::OutOfMemory,
            _ => Stop::Reading(error),
        }
    }
}

impl fmt::Display for Stop {
    fn fmt<W: fmt::Write>(&self, f: &mut fmt::Formatter<W>) -> fmt::Result {
        match self {
            Stop::Line(fault) => write!(f, "{fault}"),
            Stop::OutOfMemory => f.write_str("out of memory"),
            Stop::TooLong => write!(f, "the input is longer than {LONGEST} bytes"),
            Stop::NotUtf8 => f.write_str("not UTF-8, so no line was played"),
            Stop::Reading(error) => write!(f, "reading failed: {error}"),
            Stop::Writing(error) => write!(f, "writing failed: {error}"),
        }
    }
}

impl From<Fault> for Stop {
    fn from(fault: Fault) -> Stop {
        Stop::Line(fault)
    }
}

impl From<AllocError> for Stop {
    fn from(_e: AllocError) -> Stop {
        Stop::OutOfMemory
    }
}

impl<T: Drop> From<AllocFailed<T>> for Stop {
    fn from(_e: AllocFailed<T>) -> Stop {
        Stop::OutOfMemory
    }
}

impl From<io::Error> for Stop {
    fn from(error: io::Error) -> Stop {
        Stop::Writing(error)
    }
}

/// Where and why a script ends early.
#[derive(Drop)]
pub struct Ended {
    /// The number of the line, from 1 on, if it is because of one.
    pub line: Option<u64>,
    pub stop: Stop,
}

impl fmt::Display for Ended {
    fn fmt<W: fmt::Write>(&self, f: &mut fmt::Formatter<W>) -> fmt::Result {
        if let Some(line) = self.line {
            write!(f, "line {line}: ")?;
        }
        write!(f, "{}", self.stop)
    }
}
