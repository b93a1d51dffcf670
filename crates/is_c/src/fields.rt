//! The fields of a candidate, with its text: a caller reads no text itself.
ghost use Rattle.std.specs.Prelude.{◌≡◌, Some, None, IfOk, IsOkUnless, length};
ghost use Rattle.std.specs.Option.{option_copied};
ghost use Rattle.is_proto.specs.declared.error.IceError.TheVariants.{OutOfMemory};
ghost use Rattle.is_candidate.specs.Foundations.{foundation_of};
ghost use Rattle.is_c.specs.Fields.{kind_number, role_number, AreFields, PutsFields, PutsMadeFields, ReturnsLineFields, ReturnsGivenFields};
ghost use Rattle.is_c.specs.Fields.{ReturnsListedFields};
ghost use Rattle.is_c.specs.Slots.{held_by};
ghost use Rattle.is_c_calls.specs.Held.{At};

use crate::address::{address_of, number_of};
use crate::candidate::{line_candidate, local_candidate};
use crate::codes;
use crate::questions::{local_at, put_line, remote_at};
use crate::slot::Slot;
use crate::stun_message::address_if;
use is_c_calls::{Address, LocalCandidate};
use is_candidate::candidate::foundation::Foundation;
use is_candidate::candidate::internals::{component, raddr};
use is_candidate::{Candidate, CandidateKind};
use is_proto::{IceError, TcpType};
use std::alloc::Global;

/// The fields of a candidate. Its foundation and its username fragment are parts of its text.
#[repr(C)]
#[derive(Clone, Copy)]
pub struct Fields {
    pub address: Address,
    /// The address of the local socket. Of a candidate that was read from a text and is no host: unspecified, with port 0.
    pub local: Address,
    /// The related address, or zero.
    pub related: Address,
    /// The foundation begins after `candidate:`.
    pub foundation_length: usize,
    /// The username fragment ends the text. 0: the candidate has none.
    pub ufrag_length: usize,
    pub priority: u32,
    pub component: u16,
    /// 0 for a host, 1 for a server-reflexive, 2 for a relayed and 3 for a peer-reflexive one.
    pub kind: u8,
    pub protocol: u8,
    /// Which side opens the connection of a TCP candidate: 1 active, 2 passive, 3 so; 0 if this is not stated.
    pub tcptype: u8,
}

pub(crate) fn kind_number(kind: CandidateKind) -> u8
    ensures { result ≡ kind_number kind }
{
    match kind {
        CandidateKind::Host => 0,
        CandidateKind::ServerReflexive => 1,
        CandidateKind::Relayed => 2,
        CandidateKind::PeerReflexive => 3,
    }
}

fn role_number(role: Option<TcpType>) -> u8
    ensures { result ≡ role_number role }
{
    match role {
        None => 0,
        Some(TcpType::Active) => 1,
        Some(TcpType::Passive) => 2,
        Some(TcpType::So) => 3,
    }
}

fn foundation_length(alloc: Global, candidate: &Candidate) -> Result<usize, IceError>
    ensures length { IfOk result (λ n. n ≡ length (foundation_of candidate.now)) }
    ensures rejection { IsOkUnless result OutOfMemory }
{
    let foundation = Foundation(candidate);
    let text = format!(in alloc; "{foundation}")?;
    Ok(text.len())
}

fn fields_of(candidate: &Candidate, foundation_length: usize) -> Fields
    requires { foundation_length ≡ length (foundation_of candidate.now) }
    ensures { AreFields candidate.now result }
{
    Fields {
        address: address_of(candidate.addr()),
        local: address_of(candidate.local()),
        related: address_if(raddr(candidate)),
        foundation_length,
        ufrag_length: candidate.ufrag().unwrap_or("").len(),
        priority: candidate.prio(),
        component: component(candidate),
        kind: kind_number(candidate.kind()),
        protocol: number_of(candidate.proto()),
        tcptype: role_number(candidate.tcptype()),
    }
}

/// Writes the candidate attribute of the candidate, if there is one, and its fields. If the attribute is not written, nothing is.
fn put_fields(
    alloc: Global,
    candidate: Option<&Candidate>,
    buffer: &mut [u8],
    length: &mut usize,
    fields: &mut Fields,
) -> i32
    ensures { PutsFields (option_copied candidate.entry) buffer.old length.old fields.old result buffer.new length.new fields.new }
{
    let Some(candidate) = candidate else {
        return codes::NOTHING;
    };
    match foundation_length(alloc, candidate) {
        Ok(foundation_length) => {
            let code = put_line(alloc, Some(candidate), buffer, length);
            if code == codes::OK {
                *fields = fields_of(candidate, foundation_length);
            }
            code
        }
        Err(_) => codes::OUT_OF_MEMORY,
    }
}

/// Writes the candidate attribute and the fields of a candidate that was made, or returns the code of why there is none.
pub(crate) fn put_made_fields(
    alloc: Global,
    made: &Option<Result<Candidate, IceError>>,
    why: i32,
    buffer: &mut [u8],
    length: &mut usize,
    fields: &mut Fields,
) -> i32
    ensures { PutsMadeFields why made.now buffer.old length.old fields.old result buffer.new length.new fields.new }
{
    match made {
        Some(Ok(candidate)) => put_fields(alloc, Some(candidate), buffer, length, fields),
        Some(Err(error)) => codes::code_of(error),
        None => why,
    }
}

/// Reads a candidate attribute, and writes it as the library prints it, with its fields.
#[unsafe(no_mangle)]
pub extern "C" fn is_ice_line_fields(
    alloc: Global,
    line: &[u8],
    buffer: &mut [u8],
    length: &mut usize,
    fields: &mut Fields,
) -> i32
    ensures { ReturnsLineFields line.now buffer.old length.old fields.old result buffer.new length.new fields.new }
{
    let made = line_candidate(alloc, line);
    put_made_fields(alloc, &made, codes::NOT_UTF8, buffer, length, fields)
}

/// Writes the candidate attribute of a gathered candidate, with its fields.
#[unsafe(no_mangle)]
pub extern "C" fn is_ice_candidate_fields(
    alloc: Global,
    candidate: &LocalCandidate,
    buffer: &mut [u8],
    length: &mut usize,
    fields: &mut Fields,
) -> i32
    ensures { ReturnsGivenFields candidate.now buffer.old length.old fields.old result buffer.new length.new fields.new }
{
    let made = local_candidate(alloc, candidate);
    put_made_fields(alloc, &made, codes::BAD_ADDRESS, buffer, length, fields)
}

/// Writes the candidate attribute of a local candidate, with its fields. Candidates are counted from 0, without the discarded
/// ones.
#[unsafe(no_mangle)]
pub extern "C" fn is_ice_local_fields(
    alloc: Global,
    slot: &mut Slot,
    index: usize,
    buffer: &mut [u8],
    length: &mut usize,
    fields: &mut Fields,
) -> i32
    ensures listed { At (ReturnsListedFields (λ a. a.local) index buffer.old length.old fields.old buffer.new length.new fields.new)
        (held_by slot.old) result (held_by slot.new) }
    ensures stays { held_by slot.new ≡ held_by slot.old }
    ensures without { held_by slot.old ≡ None → (buffer.new ≡ buffer.old) × (length.new ≡ length.old) × (fields.new ≡ fields.old) }
{
    let Some(held) = slot.held() else {
        return codes::NO_AGENT;
    };
    put_fields(alloc, local_at(held, index), buffer, length, fields)
}

/// Writes the candidate attribute of a remote candidate, with its fields. Candidates are counted from 0, without the discarded
/// ones.
#[unsafe(no_mangle)]
pub extern "C" fn is_ice_remote_fields(
    alloc: Global,
    slot: &mut Slot,
    index: usize,
    buffer: &mut [u8],
    length: &mut usize,
    fields: &mut Fields,
) -> i32
    ensures listed { At (ReturnsListedFields (λ a. a.remote) index buffer.old length.old fields.old buffer.new length.new fields.new)
        (held_by slot.old) result (held_by slot.new) }
    ensures stays { held_by slot.new ≡ held_by slot.old }
    ensures without { held_by slot.old ≡ None → (buffer.new ≡ buffer.old) × (length.new ≡ length.old) × (fields.new ≡ fields.old) }
{
    let Some(held) = slot.held() else {
        return codes::NO_AGENT;
    };
    put_fields(alloc, remote_at(held, index), buffer, length, fields)
}
