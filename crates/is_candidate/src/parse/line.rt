//! The words of a line, and the candidate that they describe.
ghost use Rattle.std.specs.Prelude.{◌≡◌, IfOk, drop};
ghost use Rattle.is_candidate.specs.Lines.{ReadsWords, related_address};
ghost use Rattle.is_candidate.specs.Scanned.{texts, candidate_of, line_answer};

use super::fault::Fault;
use super::head::{Head, read_head};
use super::keys::{Keys, read_keys};
use super::place::{Place, read_place};
use crate::candidate::Candidate;
use crate::candidate::address::plain_socket;
use std::alloc::{AllocError, Global};
use std::net::{IpAddr, SocketAddr};

/// The parts of a line.
#[derive(Clone, Copy, Debug, PartialEq, Eq)]
pub(crate) struct Line<'a> {
    pub(crate) head: Head<'a>,
    pub(crate) place: Place,
    pub(crate) keys: Keys<'a>,
}

/// Reads the parts from the words, or returns the first fault.
pub(crate) fn read_words<'a>(words: &[&'a str]) -> Result<Line<'a>, Fault<'a>>
    ensures { ReadsWords (texts words.now) (line_answer result) }
{
    let head = match read_head(words) {
        Ok(head) => head,
        Err(fault) => return Err(fault),
    };
    let place = match read_place(following(words, 4)) {
        Ok(place) => place,
        Err(fault) => return Err(fault),
    };
    match read_keys(following(words, 8)) {
        Ok(keys) => Ok(Line { head, place, keys }),
        Err(fault) => Err(fault),
    }
}

/// Returns the words after the first `count`.
fn following<'w, 'a>(words: &'w [&'a str], count: usize) -> &'w [&'a str]
    ensures { texts result.now ≡ drop count (texts words.now) }
{
    &words[count.min(words.len())..]
}

/// Makes the candidate of the parts.
pub(crate) fn candidate_of(alloc: Global, line: &Line<'_>) -> Result<Candidate, AllocError>
    ensures { IfOk result (λ c. c ≡ candidate_of line.now) }
{
    let Line { head, place, keys } = *line;
    Candidate::from_parts(
        alloc,
        head.foundation,
        head.component,
        head.proto,
        head.priority,
        plain_socket(place.ip, place.port),
        place.kind,
        related_address(keys.raddr, keys.rport),
        keys.tcptype,
        keys.ufrag,
    )
}

fn related_address(ip: Option<IpAddr>, port: Option<u16>) -> Option<SocketAddr>
    ensures { result ≡ related_address ip port }
{
    match (ip, port) {
        (Some(ip), Some(port)) => Some(plain_socket(ip, port)),
        _ => None,
    }
}
