//! The candidate attribute, here also: the line of a candidate (RFC 5245, section 15.1).
ghost use Rattle.std.specs.Prelude.{◌≡◌, Some, IfOk, IsOkUnless, string_bytes};
ghost use Rattle.std.specs.Option.{option_copied};
ghost use Rattle.is_proto.specs.declared.error.IceError.TheVariants.{OutOfMemory};
ghost use Rattle.is_candidate.specs.Sdp.{front_text, place_text, related_text, role_text, fragment_text, sdp_text};

use super::Candidate;
use super::foundation::Foundation;
use super::internals::raddr;
use is_proto::{IceError, TcpType};
use std::alloc::Global;
use std::fmt;
use std::net::SocketAddr;

/// A capacity that is enough for most lines, in bytes.
const LINE_ROOM: usize = 128;

impl Candidate {
    /// Returns the candidate attribute: `candidate:`, foundation, component, protocol, priority, address, port, `typ`
    /// and kind, then `raddr` with `rport`, `tcptype` and `ufrag`, each if it is known.
    pub fn to_sdp_string(&self, alloc: Global) -> Result<String, IceError>
        ensures text { IfOk result (λ line. string_bytes line ≡ sdp_text self.now) }
        ensures rejection { IsOkUnless result OutOfMemory }
    {
        let mut line = String::with_capacity(alloc, LINE_ROOM)?;
        write!(line, "{self}")?;
        Ok(line)
    }
}

/// Writes the candidate attribute, as `to_sdp_string` returns it.
impl fmt::Display for Candidate {
    ghost output = { λ c. Some (sdp_text c) };

    fn fmt<W: fmt::Write>(&self, f: &mut fmt::Formatter<W>) -> fmt::Result {
        let front = Front(self);
        let place = Place(self);
        let related = Related(raddr(self));
        let role = Role(self.tcptype);
        let fragment = Fragment(self.ufrag());
        write!(f, "{front}{place}{related}{role}{fragment}")
    }
}

#[derive(Clone, Copy)]
struct Front<'a>(&'a Candidate);

impl fmt::Display for Front<'_> {
    ghost output = { λ t. Some (front_text t.0.now) };

    #[tactic(auto, unfolding(crate::specs::Sdp::front_text))]
    fn fmt<W: fmt::Write>(&self, f: &mut fmt::Formatter<W>) -> fmt::Result {
        let c = self.0;
        let foundation = Foundation(c);
        let component = c.component;
        let proto = c.proto;
        let priority = c.prio();
        write!(f, "candidate:{foundation} {component} {proto} {priority}")
    }
}

#[derive(Clone, Copy)]
struct Place<'a>(&'a Candidate);

impl fmt::Display for Place<'_> {
    ghost output = { λ t. Some (place_text t.0.now) };

    #[tactic(auto, unfolding(crate::specs::Sdp::place_text))]
    fn fmt<W: fmt::Write>(&self, f: &mut fmt::Formatter<W>) -> fmt::Result {
        let c = self.0;
        let ip = c.addr.ip();
        let port = c.addr.port();
        let kind = c.kind;
        write!(f, " {ip} {port} typ {kind}")
    }
}

#[derive(Clone, Copy)]
struct Related(Option<SocketAddr>);

impl fmt::Display for Related {
    ghost output = { λ t. Some (related_text t.0) };

    #[tactic(auto, unfolding(crate::specs::Sdp::related_text))]
    fn fmt<W: fmt::Write>(&self, f: &mut fmt::Formatter<W>) -> fmt::Result {
        match self.0 {
            Some(raddr) => {
                let ip = raddr.ip();
                let port = raddr.port();
                write!(f, " raddr {ip} rport {port}")
            }
            None => Ok(()),
        }
    }
}

#[derive(Clone, Copy)]
struct Role(Option<TcpType>);

impl fmt::Display for Role {
    ghost output = { λ t. Some (role_text t.0) };

    #[tactic(auto, unfolding(crate::specs::Sdp::role_text))]
    fn fmt<W: fmt::Write>(&self, f: &mut fmt::Formatter<W>) -> fmt::Result {
        match self.0 {
            Some(tcptype) => write!(f, " tcptype {tcptype}"),
            None => Ok(()),
        }
    }
}

#[derive(Clone, Copy)]
struct Fragment<'a>(Option<&'a str>);

impl fmt::Display for Fragment<'_> {
    ghost output = { λ t. Some (fragment_text (option_copied t.0)) };

    #[tactic(auto, unfolding(crate::specs::Sdp::fragment_text))]
    fn fmt<W: fmt::Write>(&self, f: &mut fmt::Formatter<W>) -> fmt::Result {
        match self.0 {
            Some(ufrag) => write!(f, " ufrag {ufrag}"),
            None => Ok(()),
        }
    }
}
