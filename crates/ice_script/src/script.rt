//! Script lines: each is one JSON object with the name of a call, an agent and the call's fields.
use crate::calls::{ScriptCall, Sent, call_of};
use crate::fault::{Fault, Stop};
use crate::fields::Fields;
use crate::table::{CALL, CallName, POLLS, Row, row_of};
use is_candidate::candidate::fraction::holds_fraction;
use serde_json::Value;
use std::alloc::Global;
use std::fmt;

/// The agent that gets a call.
#[derive(Clone, Copy, PartialEq, Eq)]
pub enum Side {
    A,
    B,
}

impl fmt::Display for Side {
    fn fmt<W: fmt::Write>(&self, f: &mut fmt::Formatter<W>) -> fmt::Result {
        f.write_str(match self {
            Side::A => "A",
            Side::B => "B",
        })
    }
}

/// A line whose agent and call are known, and whose other fields are still to be read.
#[derive(Drop)]
pub struct ScriptLine {
    pub side: Side,
    row: Row,
    polls: bool,
    object: Value,
}

impl ScriptLine {
    /// Which call of which agent the line is. Fails if it is no object, and if `on`, `polls` or `call` is bad.
    pub fn read(alloc: Global, text: &str) -> Result<ScriptLine, Stop> {
        let object = object_of(alloc, text)?;
        let fields = Fields::new(alloc, &object);
        let side = fields.side()?;
        let polls = fields.flag_or(POLLS, true)?;
        let row = named_row(fields)?;
        Ok(ScriptLine {
            side,
            row,
            polls,
            object,
        })
    }

    /// The call's word.
    pub fn word(&self) -> &'static str {
        self.row.0
    }

    /// Whether the line makes the agent that it names.
    pub fn makes_agent(&self) -> bool {
        self.row.1 == CallName::Agent
    }

    /// Whether packets, events and the next timeout are polled after the call.
    pub fn polls(&self) -> bool {
        self.polls && self.row.1 != CallName::Poll
    }

    /// The content of the line, if these packets were sent before. Fails if a field is missing, else if one is bad.
    pub fn call(&self, alloc: Global, sent: &[Sent]) -> Result<ScriptCall, Stop> {
        let fields = Fields::new(alloc, &self.object);
        fields.require(self.row.2)?;
        call_of(alloc, self.row.1, fields, self.side, sent)
    }
}

/// The JSON object of a line, in which no number is a fraction.
fn object_of(alloc: Global, text: &str) -> Result<Value, Stop> {
    match Value::from_str(alloc, text) {
        Ok(value) => checked(value),
        Err(e) => Err(if e.is_memory() {
            Stop::OutOfMemory
        } else {
            Stop::Line(Fault::NotJson(e.column()))
        }),
    }
}

fn checked(value: Value) -> Result<Value, Stop> {
    if !value.is_object() {
        return Err(Stop::Line(Fault::NotAnObject));
    }
    if holds_fraction(&value) {
        return Err(Stop::Line(Fault::Fraction));
    }
    Ok(value)
}

/// The row that `call` names.
fn named_row(fields: Fields<'_>) -> Result<Row, Stop> {
    match row_of(fields.line(CALL)?) {
        Some(row) => Ok(row),
        None => Err(fields.bad(CALL)),
    }
}
