//! The candidate of given fields, as a candidate attribute with them is read: so a caller writes no text itself.

ghost use Rattle.std.specs.Prelude.{◌≡◌};
ghost use Rattle.is_c.specs.FromFields.{kind_of, printed_socket, related_in, tcptype_in, Means, Drafts, DraftsBytes, ReturnsDrafted};

use crate::address::{protocol_of, socket_of};
use crate::candidate::role_of;
use crate::codes;
use crate::fields::{Fields, put_made_fields};
use crate::lines::{is_word, rejection};
use is_c_calls::Address;
use is_candidate::{Candidate, CandidateKind};
use is_proto::{IceError, Protocol, TcpType};
use std::alloc::Global;
use std::net::SocketAddr;

fn kind_of(number: u8) -> Option<CandidateKind>
    ensures { result ≡ kind_of number }
{
    match number {
        0 => Some(CandidateKind::Host),
        1 => Some(CandidateKind::ServerReflexive),
        2 => Some(CandidateKind::Relayed),
        3 => Some(CandidateKind::PeerReflexive),
        _ => None,
    }
}

/// The address as a text has it, without flow information and scope.
fn printed_socket(address: &Address) -> Option<SocketAddr>
    ensures { result ≡ printed_socket address.now }
{
    socket_of(&Address {
        family: address.family,
        bytes: address.bytes,
        port: address.port,
        flow: 0,
        scope: 0,
    })
}

/// The related address, if there is one. None: its family is unknown.
fn related_in(address: &Address) -> Option<Option<SocketAddr>>
    ensures { result ≡ related_in address.now }
{
    if address.family == 0 {
        return Some(None);
    }
    Some(Some(printed_socket(address)?))
}

/// The TCP type, if it is stated. None: its number is unknown.
fn tcptype_in(number: u8) -> Option<Option<TcpType>>
    ensures { result ≡ tcptype_in number }
{
    if number == 0 {
        return Some(None);
    }
    Some(Some(role_of(number)?))
}

/// What the numbers and addresses of fields mean.
#[derive(Clone, Copy)]
pub struct Meant {
    pub addr: SocketAddr,
    pub raddr: Option<SocketAddr>,
    pub proto: Protocol,
    pub kind: CandidateKind,
    pub tcptype: Option<TcpType>,
}

fn meant_by(fields: &Fields) -> Option<Meant>
    ensures { Means fields.now result }
{
    Some(Meant {
        addr: printed_socket(&fields.address)?,
        raddr: related_in(&fields.related)?,
        proto: protocol_of(fields.protocol)?,
        kind: kind_of(fields.kind)?,
        tcptype: tcptype_in(fields.tcptype)?,
    })
}

fn drafted(
    alloc: Global,
    fields: &Fields,
    meant: &Meant,
    foundation: &str,
) -> Result<Candidate, IceError>
    ensures { Drafts fields.now meant.now foundation.now result }
{
    if !is_word(foundation) {
        return Err(rejection(alloc, "foundation is not one word"));
    }
    Ok(Candidate::from_parts(
        alloc,
        foundation,
        fields.component,
        meant.proto,
        fields.priority,
        meant.addr,
        meant.kind,
        meant.raddr,
        meant.tcptype,
        None,
    )?)
}

fn drafted_bytes(
    alloc: Global,
    fields: &Fields,
    meant: &Meant,
    foundation: &[u8],
) -> Option<Result<Candidate, IceError>>
    ensures { DraftsBytes fields.now meant.now foundation.now result }
{
    match std::str::from_utf8(foundation) {
        Ok(foundation) => Some(drafted(alloc, fields, meant, foundation)),
        Err(_) => None,
    }
}

/// Writes the candidate attribute of these fields with this foundation, as it is signaled, and the fields that it is read with: without
/// a username fragment.
#[unsafe(no_mangle)]
pub extern "C" fn is_ice_fields_line(
    alloc: Global,
    given: &Fields,
    foundation: &[u8],
    buffer: &mut [u8],
    length: &mut usize,
    fields: &mut Fields,
) -> i32
    ensures { ReturnsDrafted given.now foundation.now buffer.old length.old fields.old result buffer.new length.new fields.new }
{
    let Some(meant) = meant_by(given) else {
        return codes::BAD_ADDRESS;
    };
    let made = drafted_bytes(alloc, given, &meant, foundation);
    put_made_fields(alloc, &made, codes::NOT_UTF8, buffer, length, fields)
}
