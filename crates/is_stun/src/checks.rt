//! The three messages of connectivity checks (RFC 8445, section 7).

ghost use Rattle.std.specs.Prelude.{◌≡◌};
ghost use Rattle.is_stun.specs.declared.header.Method.TheVariants.{Binding};
ghost use Rattle.is_stun.specs.MessageView.{attributes_view, message_view};
ghost use Rattle.is_stun.specs.Builder.{built};

use crate::attributes::Attributes;
use crate::header::{Class, Method};
use crate::message::StunMessage;
use crate::trans_id::TransId;
use std::net::SocketAddr;

const ROLE_CONFLICT: u16 = 487;

fn built<'a>(class: Class, trans_id: TransId, attrs: Attributes<'a>) -> StunMessage<'a>
    ensures { message_view result ≡ built Binding class trans_id.0 (attributes_view attrs.entry) }
{
    StunMessage {
        method: Method::Binding,
        class,
        trans_id,
        attrs,
        integrity: None,
    }
}

impl<'a> StunMessage<'a> {
    ghost use Rattle.is_stun.specs.Checks.{binding_request, binding_reply, binding_role_conflict_reply, with_nomination};

    /// Returns a connectivity check: a Binding request (RFC 8445, section 7.2.2). USERNAME is the peer's username
    /// fragment, a colon and the local one. The tie-breaker goes into the attribute of the role. The priority is that
    /// of a peer-reflexive candidate. `use_candidate` nominates the pair.
    pub fn binding_request(
        username: &'a str,
        trans_id: TransId,
        controlling: bool,
        control_tie_breaker: u64,
        prio: u32,
        use_candidate: bool,
    ) -> StunMessage<'a>
        ensures { message_view result ≡ binding_request username.now trans_id.0 controlling control_tie_breaker prio use_candidate }
    {
        let role = Some(control_tie_breaker);
        let attrs = Attributes {
            username: Some(username),
            ice_controlled: if controlling { None } else { role },
            ice_controlling: if controlling { role } else { None },
            priority: Some(prio),
            use_candidate,
            ..Attributes::default()
        };
        built(Class::Request, trans_id, attrs)
    }

    /// Returns the check with NOMINATION, the number of its nomination, if there is one (draft-thatcher-ice-renomination).
    pub fn with_nomination(self, number: Option<u32>) -> StunMessage<'a>
        ensures { message_view result ≡ with_nomination number (message_view self.entry) }
    {
        let mut attrs = self.attrs;
        attrs.nomination = number;
        StunMessage { attrs, ..self }
    }

    /// Returns a Binding success response with the source address of the request (RFC 8445, section 7.3.1.2).
    pub fn binding_reply(trans_id: TransId, mapped_address: SocketAddr) -> StunMessage<'a>
        ensures { message_view result ≡ binding_reply trans_id.0 mapped_address }
    {
        let attrs = Attributes {
            xor_mapped_address: Some(mapped_address),
            ..Attributes::default()
        };
        built(Class::Success, trans_id, attrs)
    }

    /// Returns a Binding error response with code 487, "Role Conflict" (RFC 8445, section 7.3.1.1).
    pub fn binding_role_conflict_reply(trans_id: TransId) -> StunMessage<'a>
        ensures { message_view result ≡ binding_role_conflict_reply trans_id.0 }
    {
        let attrs = Attributes {
            error_code: Some((ROLE_CONFLICT, "Role Conflict")),
            ..Attributes::default()
        };
        built(Class::Failure, trans_id, attrs)
    }
}
