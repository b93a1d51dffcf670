//! Log entries as text.
use crate::names::{check_number, home};
use is::stun::{Class, StunMessage, TransId};
use is::{Answer, IceAgentEvent, Issued, Path, Protocol, Side, SocketText, Transmit};
use std::fmt;
use std::net::SocketAddr;

/// An address. `A` and `B` are the host candidates of the agents.
#[derive(Clone, Copy)]
pub struct AddressText(pub SocketAddr);

impl fmt::Display for AddressText {
    fn fmt<W: fmt::Write>(&self, f: &mut fmt::Formatter<W>) -> fmt::Result {
        if self.0 == home(Side::A) {
            f.write_str("A")
        } else if self.0 == home(Side::B) {
            f.write_str("B")
        } else {
            write!(f, "{}", SocketText(self.0))
        }
    }
}

/// A path. UDP is not named.
#[derive(Clone, Copy)]
pub struct PathText(pub Path);

impl fmt::Display for PathText {
    fn fmt<W: fmt::Write>(&self, f: &mut fmt::Formatter<W>) -> fmt::Result {
        let (source, destination) = (AddressText(self.0.source), AddressText(self.0.destination));
        if self.0.proto == Protocol::Udp {
            write!(f, "{source} to {destination}")
        } else {
            write!(f, "{} {source} to {destination}", self.0.proto)
        }
    }
}

/// A transaction: the number of the agents' check, or `r1` for B's request 1, which the story wrote, or its bytes.
#[derive(Clone, Copy)]
pub struct IdText(pub TransId);

impl fmt::Display for IdText {
    fn fmt<W: fmt::Write>(&self, f: &mut fmt::Formatter<W>) -> fmt::Result {
        if let Some(number) = check_number(self.0) {
            return write!(f, "{number}");
        }
        let TransId(bytes) = self.0;
        let [first, ..] = bytes;
        if bytes == [first; 12] {
            return write!(f, "r{first}");
        }
        for byte in bytes {
            write!(f, "{byte:02x}")?;
        }
        Ok(())
    }
}

fn class_text(class: Class) -> &'static str {
    match class {
        Class::Request => "request",
        Class::Indication => "indication",
        Class::Success => "success",
        Class::Failure => "failure",
        Class::Unknown => "unknown",
    }
}

/// A message that was sent or delivered.
#[derive(Clone, Copy)]
pub struct MessageText(pub Class, pub TransId);

impl fmt::Display for MessageText {
    fn fmt<W: fmt::Write>(&self, f: &mut fmt::Formatter<W>) -> fmt::Result {
        write!(f, "{} {}", class_text(self.0), IdText(self.1))
    }
}

/// Which agents are controlling.
fn roles_text(roles: [bool; 2]) -> &'static str {
    match roles {
        [true, true] => "A and B",
        [true, false] => "A",
        [false, true] => "B",
        [false, false] => "none",
    }
}

/// What an entry issues, which paths it selects, and the roles after it, of which those that are not compared are left out.
#[derive(Clone, Copy)]
pub struct EffectText {
    pub issued: Option<Issued>,
    pub selected: [Option<Path>; 2],
    pub roles: Option<[bool; 2]>,
}

impl fmt::Display for EffectText {
    fn fmt<W: fmt::Write>(&self, f: &mut fmt::Formatter<W>) -> fmt::Result {
        let mut before = "";
        if let Some(issued) = self.issued {
            let message = MessageText(issued.class, issued.id);
            write!(f, "issues {message} {}", PathText(issued.path))?;
            before = ", ";
        }
        for path in self.selected {
            if let Some(path) = path {
                write!(f, "{before}selects {}", PathText(path))?;
                before = ", ";
            }
        }
        match self.roles {
            Some(roles) => write!(f, "{before}controlling {}", roles_text(roles)),
            None => Ok(()),
        }
    }
}

/// An event that a poll returned.
#[derive(Clone, Copy)]
struct EventText<'a>(&'a IceAgentEvent);

impl fmt::Display for EventText<'_> {
    fn fmt<W: fmt::Write>(&self, f: &mut fmt::Formatter<W>) -> fmt::Result {
        match self.0 {
            IceAgentEvent::IceRestart(_) => f.write_str("restart"),
            IceAgentEvent::IceConnectionStateChange(state) => write!(f, "state {state:?}"),
            IceAgentEvent::DiscoveredRecv { proto, source } => {
                write!(f, "discovered {proto} {}", AddressText(*source))
            }
            IceAgentEvent::NominatedSend {
                proto,
                source,
                destination,
            } => {
                let path = Path {
                    proto: *proto,
                    source: *source,
                    destination: *destination,
                };
                write!(f, "nominated {}", PathText(path))
            }
        }
    }
}

/// A packet that a poll returned.
#[derive(Clone, Copy)]
struct PacketText<'a>(&'a Transmit);

impl fmt::Display for PacketText<'_> {
    fn fmt<W: fmt::Write>(&self, f: &mut fmt::Formatter<W>) -> fmt::Result {
        match StunMessage::parse(&self.0.contents) {
            Ok(message) => {
                let message = MessageText(message.class(), message.trans_id());
                write!(f, "sends {message}")
            }
            Err(_) => f.write_str("sends what is no message"),
        }
    }
}

/// The result of a call.
#[derive(Clone, Copy)]
pub struct AnswerText<'a>(pub &'a Answer);

impl fmt::Display for AnswerText<'_> {
    fn fmt<W: fmt::Write>(&self, f: &mut fmt::Formatter<W>) -> fmt::Result {
        match self.0 {
            Answer::Done => f.write_str("ok"),
            Answer::Added => f.write_str("added"),
            Answer::NotAdded => f.write_str("not added"),
            Answer::Flag(flag) => write!(f, "{flag}"),
            Answer::Transmit(Some(packet)) => write!(f, "{}", PacketText(packet)),
            Answer::Event(Some(event)) => write!(f, "{}", EventText(event)),
            Answer::Transmit(None) | Answer::Event(None) | Answer::Wake(None) => f.write_str(
                "none",
            ),
            Answer::Wake(Some(_)) => f.write_str("a time"),
            Answer::Unparsed(fault) => write!(f, "unparsed {fault:?}"),
            Answer::Refused(_) => f.write_str("an error"),
            Answer::NotCalled => f.write_str("not called"),
            Answer::NotInWorld => f.write_str("not in world"),
            Answer::NoSuchPacket => f.write_str("no such packet"),
        }
    }
}
