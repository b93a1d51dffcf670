//! The line of an event of a client, for a log.

ghost use Rattle.std.specs.Prelude.{◌≡◌, Some, IfOk, string_bytes};
ghost use Rattle.is_c.specs.ServersLines.{transport_word, why_word, mapped_text, code_text, unverified_text, said_text, line_text, why_of, mapped_in, said_of, line_of, PutsLine};

use crate::address::socket_of;
use crate::codes;
use crate::servers::ends::transport_of;
use crate::servers::events::Event;
use crate::text::put;
use is_servers::Transport;
use is_turn::Why;
use std::alloc::{AllocError, Global};
use std::fmt;
use std::net::SocketAddr;

/// What a line says of a client.
#[derive(Clone, Copy)]
pub enum Said {
    Maps(SocketAddr),
    /// The relayed address, and the mapped one.
    Allocates(SocketAddr, Option<SocketAddr>),
    /// The peer, and the code of the error response.
    Bars(SocketAddr, u16),
    /// The code of the error response, and that of one that nobody signed.
    Ends(Why, u16, u16),
}

/// A client, and what is said of it.
#[derive(Clone, Copy)]
pub struct Line {
    pub transport: Transport,
    pub local: SocketAddr,
    pub server: SocketAddr,
    pub said: Said,
}

// ---- the words

fn transport_word(transport: Transport) -> &'static str
    ensures { result.now ≡ transport_word transport }
{
    match transport {
        Transport::Udp => "udp",
        Transport::Tcp => "tcp",
    }
}

fn why_word(why: Why) -> &'static str
    ensures { result.now ≡ why_word why }
{
    match why {
        Why::Failed => "failed",
        Why::Lost => "lost",
        Why::Closed => "closed",
    }
}

// ---- the texts

#[derive(Clone, Copy)]
struct MappedTo(Option<SocketAddr>);

impl fmt::Display for MappedTo {
    ghost output = { λ t. Some (mapped_text t.0) };

    #[tactic(auto, unfolding(crate::specs::ServersLines::mapped_text))]
    fn fmt<W: fmt::Write>(&self, f: &mut fmt::Formatter<W>) -> fmt::Result {
        match self.0 {
            Some(mapped) => write!(f, ", mapped {mapped}"),
            None => Ok(()),
        }
    }
}

/// A code, if there was one.
#[derive(Clone, Copy)]
struct Code(u16);

impl fmt::Display for Code {
    ghost output = { λ t. Some (code_text t.0) };

    #[tactic(auto, unfolding(crate::specs::ServersLines::code_text))]
    fn fmt<W: fmt::Write>(&self, f: &mut fmt::Formatter<W>) -> fmt::Result {
        if self.0 == 0 {
            return Ok(());
        }
        let code = self.0;
        write!(f, ", {code}")
    }
}

#[derive(Clone, Copy)]
struct Unverified(u16);

impl fmt::Display for Unverified {
    ghost output = { λ t. Some (unverified_text t.0) };

    #[tactic(auto, unfolding(crate::specs::ServersLines::unverified_text))]
    fn fmt<W: fmt::Write>(&self, f: &mut fmt::Formatter<W>) -> fmt::Result {
        if self.0 == 0 {
            return Ok(());
        }
        let code = self.0;
        write!(f, ", unverified {code}")
    }
}

impl fmt::Display for Said {
    ghost output = { λ t. Some (said_text t) };

    #[tactic(auto, unfolding(crate::specs::ServersLines::said_text))]
    fn fmt<W: fmt::Write>(&self, f: &mut fmt::Formatter<W>) -> fmt::Result {
        match *self {
            Said::Maps(mapped) => write!(f, "mapped {mapped}"),
            Said::Allocates(relayed, mapped) => {
                let mapped = MappedTo(mapped);
                write!(f, "allocated {relayed}{mapped}")
            }
            Said::Bars(peer, code) => {
                let ip = peer.ip();
                let code = Code(code);
                write!(f, "not permitted {ip}{code}")
            }
            Said::Ends(why, code, unverified) => {
                let why = why_word(why);
                let code = Code(code);
                let unverified = Unverified(unverified);
                write!(f, "ended, {why}{code}{unverified}")
            }
        }
    }
}

fn written(alloc: Global, line: &Line) -> Result<String, AllocError>
    ensures { IfOk result (λ text. string_bytes text ≡ line_text line.now) }
{
    let server = line.server;
    let transport = transport_word(line.transport);
    let local = line.local;
    let said = line.said;
    let mut text = String::new(alloc);
    write!(text, "server {server} {transport} {local}: {said}")?;
    Ok(text)
}

// ---- what C passes

fn why_of(number: i32) -> Option<Why>
    ensures { result ≡ why_of number }
{
    match number {
        0 => Some(Why::Failed),
        1 => Some(Why::Lost),
        2 => Some(Why::Closed),
        _ => None,
    }
}

/// The mapped address of an allocation, if there is one. None: its family is unknown.
fn mapped_in(event: &Event) -> Option<Option<SocketAddr>>
    ensures { result ≡ mapped_in event.now }
{
    if event.has_mapped {
        Some(Some(socket_of(&event.mapped)?))
    } else {
        Some(None)
    }
}

/// What the line of an event says. None: C passed no event.
fn said_of(event: &Event) -> Option<Said>
    ensures { result ≡ said_of event.now }
{
    match event.kind {
        1 => Some(Said::Maps(socket_of(&event.mapped)?)),
        2 => Some(Said::Allocates(socket_of(&event.relayed)?, mapped_in(event)?)),
        3 => Some(Said::Bars(socket_of(&event.peer)?, event.code)),
        4 => Some(Said::Ends(why_of(event.why)?, event.code, event.unverified)),
        _ => None,
    }
}

fn line_of(event: &Event) -> Option<Line>
    ensures { result ≡ line_of event.now }
{
    Some(Line {
        transport: transport_of(event.protocol)?,
        local: socket_of(&event.local)?,
        server: socket_of(&event.server)?,
        said: said_of(event)?,
    })
}

fn put_line(alloc: Global, line: Option<Line>, buffer: &mut [u8], length: &mut usize) -> i32
    ensures { PutsLine line buffer.old length.old result buffer.new length.new }
{
    let Some(line) = line else {
        return codes::BAD_ADDRESS;
    };
    match written(alloc, &line) {
        Ok(text) => put(text.as_bytes(), buffer, length),
        Err(_) => codes::OUT_OF_MEMORY,
    }
}

/// Writes the line of an event.
#[unsafe(no_mangle)]
pub extern "C" fn is_ice_servers_event_line(
    alloc: Global,
    event: &Event,
    buffer: &mut [u8],
    length: &mut usize,
) -> i32
    ensures { PutsLine (line_of event.now) buffer.old length.old result buffer.new length.new }
{
    put_line(alloc, line_of(event), buffer, length)
}
