//! Candidates: addresses at which an agent can be reached.
ghost use Rattle.std.specs.Prelude.{◌≡◌, Some, OnOk, OnErr, IsOkUnless};
ghost use Rattle.std.specs.Option.{option_copied};
ghost use Rattle.is_proto.specs.declared.error.IceError.TheVariants.{OutOfMemory};

pub mod address;
pub mod builder;
pub mod copy;
pub mod equality;
pub mod flat;
pub mod foundation;
pub mod fraction;
pub mod info;
pub mod info_text;
pub mod internals;
pub mod kind;
pub mod making;
pub mod priority;
pub mod round_trip;
pub mod sdp;
pub mod source;
mod texts;

use is_proto::{IceError, Protocol, TcpType};
use kind::CandidateKind;
use source::{Source, signaled_local};
use std::alloc::Global;
use std::marker::Model;
use std::net::SocketAddr;
use texts::Texts;

/// An address at which an agent can be reached (RFC 8445, section 5.1). A host or relayed candidate is its own base.
#[derive(Debug, PartialEq, Eq, Hash, Drop)]
pub struct Candidate {
    texts: Texts,
    addr: SocketAddr,
    other: SocketAddr,
    priority: u32,
    local_preference: Option<u16>,
    component: u16,
    source: Source,
    kind: CandidateKind,
    proto: Protocol,
    tcptype: Option<TcpType>,
    discarded: bool,
}

impl Model for Candidate {
    ghost use Rattle.is_candidate.specs.Candidates.{CandidateRecord};

    ghost Value = { CandidateRecord };

    ghost use Rattle.std.specs.Prelude.{unwrap_or};
    ghost use Rattle.is_candidate.specs.Stored.{base_from, related_from, local_from, priority_from, FillsOther, FillsPriority};
    ghost use Rattle.is_candidate.specs.Stored.{source_of, other_of};
    ghost use Rattle.is_candidate.specs.Stored.{same_source, same_other, same_priority};

    ghost view = { λ c. record {
      foundation = c.texts.foundation;
      component = c.component;
      proto = c.proto;
      given_priority = priority_from c.source c.kind c.priority;
      addr = c.addr;
      given_base = base_from c.source c.kind c.addr c.other;
      kind = c.kind;
      raddr = related_from c.source c.kind c.addr c.other;
      tcptype = c.tcptype;
      ufrag = c.texts.ufrag;
      local = local_from c.source c.kind c.addr c.other;
      local_preference = c.local_preference;
      discarded = c.discarded;
    } };

    ghost invariant = { λ c. FillsOther c.source c.addr c.other × FillsPriority c.source c.kind c.priority };

    ghost inverse = { λ c. record {
      texts = record { foundation = c.foundation; ufrag = c.ufrag };
      addr = c.addr;
      other = other_of c.given_base c.raddr c.local c.addr;
      priority = unwrap_or c.given_priority 0;
      local_preference = c.local_preference;
      component = c.component;
      source = source_of c.given_base c.raddr;
      kind = c.kind;
      proto = c.proto;
      tcptype = c.tcptype;
      discarded = c.discarded;
    } };

    ghost inverse_ok = { λ c fills i. record {
      texts = c.texts;
      addr = c.addr;
      other = same_other c.source c.kind c.addr c.other fills.0 i;
      priority = same_priority c.source c.kind c.priority fills.1 i;
      local_preference = c.local_preference;
      component = c.component;
      source = same_source c.source c.kind c.addr c.other i;
      kind = c.kind;
      proto = c.proto;
      tcptype = c.tcptype;
      discarded = c.discarded;
    } };
}

impl Candidate {
    /// Returns the address at which the candidate can be reached.
    pub fn addr(&self) -> SocketAddr
        ensures { result ≡ self.now.addr }
    {
        self.addr
    }

    /// Returns the address of the local interface: the address of a host, the base of a reflexive candidate, and the
    /// address from which a relayed one was allocated. It is unspecified, with port 0, if the candidate was signaled
    /// and is no host.
    pub fn local(&self) -> SocketAddr
        ensures { result ≡ self.now.local }
    {
        match self.source {
            Source::Found => self.other,
            Source::Signaled | Source::Related => signaled_local(self.kind, self.addr),
        }
    }

    /// Returns the transport protocol.
    pub fn proto(&self) -> Protocol
        ensures { result ≡ self.now.proto }
    {
        self.proto
    }

    /// Returns which side opens the connection of a TCP candidate (RFC 6544, section 4.5).
    pub fn tcptype(&self) -> Option<TcpType>
        ensures { result ≡ self.now.tcptype }
    {
        self.tcptype
    }

    /// Returns how the candidate was found.
    pub fn kind(&self) -> CandidateKind
        ensures { result ≡ self.now.kind }
    {
        self.kind
    }

    /// Returns the username fragment of the session that the candidate belongs to, if it is known.
    pub fn ufrag(&self) -> Option<&str>
        ensures { option_copied result ≡ self.now.ufrag }
    {
        self.texts.ufrag()
    }

    /// Sets the username fragment. Fails only if an allocation fails, and then leaves the candidate unchanged.
    pub fn set_ufrag(&mut self, alloc: Global, ufrag: &str) -> Result<(), IceError>
        ensures ok { OnOk result (self.new ≡ record self.old { ufrag = Some ufrag.now }) }
        ensures err { OnErr result (self.new ≡ self.old) }
        ensures rejection { IsOkUnless result OutOfMemory }
    {
        self.texts = Texts::copy_of(alloc, self.texts.foundation(), Some(ufrag))?;
        Ok(())
    }
}
