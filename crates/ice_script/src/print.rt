//! What a script prints: results, packets, events and next timeouts, each as one line's text.
use is::{Answer, IceAgentEvent, IceError, Instant, SocketText};
use std::fmt;

/// The name of an error.
fn rejection_name(error: &IceError) -> &'static str {
    match error {
        IceError::BadCandidate(_) => "BadCandidate",
        IceError::OutOfMemory => "OutOfMemory",
        IceError::PairIdsExhausted => "PairIdsExhausted",
        IceError::MtuTooSmall => "MtuTooSmall",
        IceError::CredentialsTooLong => "CredentialsTooLong",
        IceError::PriorityTooHigh => "PriorityTooHigh",
        IceError::LiteStaysControlled => "LiteStaysControlled",
    }
}

/// A call's result. What polls return is printed in lines of its own.
#[derive(Clone, Copy)]
pub struct AnswerText<'a>(pub &'a Answer);

impl fmt::Display for AnswerText<'_> {
    fn fmt<W: fmt::Write>(&self, f: &mut fmt::Formatter<W>) -> fmt::Result {
        match self.0 {
            Answer::Done => f.write_str("ok"),
            Answer::Added => f.write_str("added"),
            Answer::NotAdded => f.write_str("none"),
            Answer::Flag(flag) => write!(f, "{flag}"),
            Answer::Unparsed(fault) => write!(f, "unparsed {fault:?}"),
            Answer::Refused(IceError::BadCandidate(reason)) => {
                write!(f, "refused BadCandidate {reason:?}")
            }
            Answer::Refused(error) => write!(f, "refused {}", rejection_name(error)),
            Answer::Transmit(Some(_)) | Answer::Event(Some(_)) | Answer::Wake(Some(_)) => {
                f.write_str("ok")
            }
            Answer::Transmit(None) | Answer::Event(None) | Answer::Wake(None) => {
                f.write_str("none")
            }
            _ => Ok(()),
        }
    }
}

/// Bytes as two hexadecimal digits each, in lower case.
#[derive(Clone, Copy)]
pub struct HexText<'a>(pub &'a [u8]);

impl fmt::Display for HexText<'_> {
    fn fmt<W: fmt::Write>(&self, f: &mut fmt::Formatter<W>) -> fmt::Result {
        for byte in self.0 {
            write!(f, "{byte:02x}")?;
        }
        Ok(())
    }
}

/// An event: its word and its values.
#[derive(Clone, Copy)]
pub struct EventText<'a>(pub &'a IceAgentEvent);

impl fmt::Display for EventText<'_> {
    fn fmt<W: fmt::Write>(&self, f: &mut fmt::Formatter<W>) -> fmt::Result {
        match self.0 {
            IceAgentEvent::IceRestart(creds) => write!(f, "restart {} {}", creds.ufrag, creds.pass),
            IceAgentEvent::IceConnectionStateChange(state) => write!(f, "state {state:?}"),
            IceAgentEvent::DiscoveredRecv { proto, source } => {
                write!(f, "discovered {proto} {}", SocketText(*source))
            }
            IceAgentEvent::NominatedSend {
                proto,
                source,
                destination,
            } => {
                let source = SocketText(*source);
                write!(f, "nominated {proto} {source} {}", SocketText(*destination))
            }
        }
    }
}

/// The next timeout, in nanoseconds.
#[derive(Clone, Copy)]
pub struct TimeoutText(pub Option<Instant>);

impl fmt::Display for TimeoutText {
    fn fmt<W: fmt::Write>(&self, f: &mut fmt::Formatter<W>) -> fmt::Result {
        match self.0 {
            Some(Instant(nanoseconds)) => write!(f, "{nanoseconds}"),
            None => f.write_str("none"),
        }
    }
}
