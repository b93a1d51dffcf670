//! The fields of a script line, each read as the value that it encodes.
use crate::fault::{Fault, Stop};
use crate::preference::FixedPreference;
use crate::script::Side;
use crate::table::{Field, ON, PASS, UFRAG};
use hex::FromHexError;
use is::{Duration, IceCreds, Instant, Protocol, SocketText, Text};
use serde_json::Value;
use std::alloc::Global;
use std::net::SocketAddr;

/// The fields of a line, or of an object in it. Reading one fails with `Missing` if it is not there, and with `Bad` if its
/// value is not what it may be.
#[derive(Clone, Copy)]
pub struct Fields<'a> {
    alloc: Global,
    object: &'a Value,
}

impl<'a> Fields<'a> {
    pub fn new(alloc: Global, object: &'a Value) -> Fields<'a> {
        Fields { alloc, object }
    }

    /// Fails with `Missing` if one of these is missing.
    pub fn require(&self, fields: &[Field]) -> Result<(), Fault> {
        for field in fields {
            if !self.has(*field) {
                return Err(Fault::Missing(*field));
            }
        }
        Ok(())
    }

    pub fn has(&self, field: Field) -> bool {
        self.object.get(field.0).is_some()
    }

    /// The fault of a field that can't be read.
    pub fn bad(&self, field: Field) -> Stop {
        let Some(value) = self.object.get(field.0) else {
            return Stop::Line(Fault::Missing(field));
        };
        match value.to_string(self.alloc) {
            Ok(value) => Stop::Line(Fault::Bad { field, value }),
            Err(_) => Stop::OutOfMemory,
        }
    }

    /// The agent that the line names: A if it names none.
    pub fn side(&self) -> Result<Side, Stop> {
        match self.object.get(ON.0) {
            None => Ok(Side::A),
            Some(on) => match on.as_str() {
                Some("A") => Ok(Side::A),
                Some("B") => Ok(Side::B),
                _ => Err(self.bad(ON)),
            },
        }
    }

    /// A text as it is in the line.
    pub fn line(&self, field: Field) -> Result<&'a str, Stop> {
        match self.object.get(field.0).and_then(Value::as_str) {
            Some(text) => Ok(text),
            None => Err(self.bad(field)),
        }
    }

    /// The credentials of `ufrag` and `pass`.
    pub fn creds(&self) -> Result<IceCreds, Stop> {
        Ok(IceCreds {
            ufrag: self.text(UFRAG)?,
            pass: self.text(PASS)?,
        })
    }

    fn text(&self, field: Field) -> Result<Text, Stop> {
        Ok(Text::from_str(self.alloc, self.line(field)?)?)
    }

    /// A whole number of 64 bits.
    pub fn number(&self, field: Field) -> Result<u64, Stop> {
        match self.object.get(field.0).and_then(Value::as_u64) {
            Some(number) => Ok(number),
            None => Err(self.bad(field)),
        }
    }

    /// A Boolean value.
    pub fn flag(&self, field: Field) -> Result<bool, Stop> {
        match self.object.get(field.0).and_then(Value::as_bool) {
            Some(flag) => Ok(flag),
            None => Err(self.bad(field)),
        }
    }

    /// A Boolean value, or this one if there is no such field.
    pub fn flag_or(&self, field: Field, absent: bool) -> Result<bool, Stop> {
        if self.has(field) {
            self.flag(field)
        } else {
            Ok(absent)
        }
    }

    /// A whole number of 64 bits, or nothing if it is null.
    pub fn number_or_null(&self, field: Field) -> Result<Option<u64>, Stop> {
        match self.object.get(field.0) {
            Some(Value::Null) => Ok(None),
            _ => Ok(Some(self.number(field)?)),
        }
    }

    /// How many of something.
    pub fn count(&self, field: Field) -> Result<usize, Stop> {
        match usize::try_from(self.number(field)?) {
            Ok(count) => Ok(count),
            Err(_) => Err(self.bad(field)),
        }
    }

    /// How many of something, at least one.
    pub fn positive(&self, field: Field) -> Result<usize, Stop> {
        match self.count(field)? {
            0 => Err(self.bad(field)),
            count => Ok(count),
        }
    }

    /// How many of something at most; without a limit if it is null.
    pub fn limit(&self, field: Field) -> Result<Option<usize>, Stop> {
        match self.object.get(field.0) {
            Some(Value::Null) => Ok(None),
            _ => Ok(Some(self.count(field)?)),
        }
    }

    /// A local preference.
    pub fn preference(&self, field: Field) -> Result<FixedPreference, Stop> {
        match u16::try_from(self.number(field)?) {
            Ok(preference) => Ok(FixedPreference(preference)),
            Err(_) => Err(self.bad(field)),
        }
    }

    /// A length of time, in nanoseconds.
    pub fn duration(&self, field: Field) -> Result<Duration, Stop> {
        Ok(Duration(self.number(field)?))
    }

    /// A time, in nanoseconds.
    pub fn time(&self, field: Field) -> Result<Instant, Stop> {
        Ok(Instant(self.number(field)?))
    }

    /// The word of a protocol, in either case.
    pub fn protocol(&self, field: Field) -> Result<Protocol, Stop> {
        match Protocol::from_text(self.line(field)?) {
            Some(protocol) => Ok(protocol),
            None => Err(self.bad(field)),
        }
    }

    /// `IPv4:port` or `[IPv6]:port`.
    pub fn socket(&self, field: Field) -> Result<SocketAddr, Stop> {
        match SocketText::from_text(self.line(field)?) {
            Some(SocketText(address)) => Ok(address),
            None => Err(self.bad(field)),
        }
    }

    /// Bytes as two hexadecimal digits each, in either case.
    pub fn bytes(&self, field: Field) -> Result<Vec<u8>, Stop> {
        match hex::decode(self.alloc, self.line(field)?) {
            Ok(bytes) => Ok(bytes),
            Err(FromHexError::OutOfMemory) => Err(Stop::OutOfMemory),
            Err(_) => Err(self.bad(field)),
        }
    }
}
