//! The first four words of a line.
ghost use Rattle.is_candidate.specs.Lines.{ReadsHead};
ghost use Rattle.is_candidate.specs.Scanned.{texts, head_answer};

use super::fault::Fault;
use super::words::{number, small_number};
use is_proto::Protocol;

/// Foundation, component, protocol and priority.
#[derive(Clone, Copy, Debug, PartialEq, Eq)]
pub(crate) struct Head<'a> {
    pub(crate) foundation: &'a str,
    pub(crate) component: u16,
    pub(crate) proto: Protocol,
    pub(crate) priority: u32,
}

/// Reads the first four words, or returns the first fault among them.
pub(crate) fn read_head<'a>(words: &[&'a str]) -> Result<Head<'a>, Fault<'a>>
    ensures { ReadsHead (texts words.now) (head_answer result) }
{
    let Some((foundation, words)) = words.split_first() else {
        return Err(Fault::MissingFoundation);
    };
    let Some((component, words)) = words.split_first() else {
        return Err(Fault::MissingComponent);
    };
    let Some(component) = small_number(component) else {
        return Err(Fault::BadComponent);
    };
    let Some((proto, words)) = words.split_first() else {
        return Err(Fault::MissingProtocol);
    };
    let Some(protocol) = Protocol::from_text(proto) else {
        return Err(Fault::InvalidProtocol(proto));
    };
    let Some((priority, _words)) = words.split_first() else {
        return Err(Fault::MissingPriority);
    };
    let Some(priority) = number(priority) else {
        return Err(Fault::BadPriority);
    };
    Ok(Head {
        foundation,
        component,
        proto: protocol,
        priority,
    })
}
