//! Accessors: the method, the class and the attributes of a message.

ghost use Rattle.std.specs.Prelude.{◌≡◌, ◌↔◌, IsTrue, is_some};
ghost use Rattle.std.specs.Option.{option_copied, option_map};
ghost use Rattle.is_stun.specs.declared.header.Class.TheVariants as classes;
ghost use Rattle.is_stun.specs.declared.header.Method.TheVariants as methods;
ghost use Rattle.is_stun.specs.ErrorCodeView.{error_view};
ghost use Rattle.is_stun.specs.Message.{split_username};
ghost use Rattle.is_stun.specs.MessageView.{message_view};

use crate::header::{Class, Method};
use crate::message::StunMessage;
use crate::trans_id::TransId;
use std::net::SocketAddr;

impl<'a> StunMessage<'a> {
    /// Returns the method; `Method::Unknown` for all except seven methods.
    pub fn method(&self) -> Method
        ensures { result ≡ (message_view self.now).method }
    {
        self.method
    }

    /// Returns the class. It is never `Class::Unknown` for a message that was parsed.
    pub fn class(&self) -> Class
        ensures { result ≡ (message_view self.now).class }
    {
        self.class
    }

    fn is(&self, method: Method, class: Class) -> bool
        ensures { IsTrue result ↔ (((message_view self.now).method ≡ method) × ((message_view self.now).class ≡ class)) }
    {
        method == self.method && class == self.class
    }

    /// Whether this is a Binding request: a connectivity check, or a STUN client that queries its own address.
    pub fn is_binding_request(&self) -> bool
        ensures { IsTrue result ↔ (((message_view self.now).method ≡ methods.Binding) × ((message_view self.now).class ≡ classes.Request)) }
    {
        self.is(Method::Binding, Class::Request)
    }

    /// Whether this is a success response to a Binding request.
    pub fn is_successful_binding_response(&self) -> bool
        ensures { IsTrue result ↔ (((message_view self.now).method ≡ methods.Binding) × ((message_view self.now).class ≡ classes.Success)) }
    {
        self.is(Method::Binding, Class::Success)
    }

    /// Whether this is an error response to a Binding request.
    pub fn is_failed_binding_response(&self) -> bool
        ensures { IsTrue result ↔ (((message_view self.now).method ≡ methods.Binding) × ((message_view self.now).class ≡ classes.Failure)) }
    {
        self.is(Method::Binding, Class::Failure)
    }

    /// Whether a TURN client requests a relayed address (RFC 8656, section 7).
    pub fn is_allocate_request(&self) -> bool
        ensures { IsTrue result ↔ (((message_view self.now).method ≡ methods.Allocate) × ((message_view self.now).class ≡ classes.Request)) }
    {
        self.is(Method::Allocate, Class::Request)
    }

    /// Whether a TURN client permits peers (RFC 8656, section 10).
    pub fn is_create_permission_request(&self) -> bool
        ensures { IsTrue result ↔ (((message_view self.now).method ≡ methods.CreatePermission) × ((message_view self.now).class ≡ classes.Request)) }
    {
        self.is(Method::CreatePermission, Class::Request)
    }

    /// Whether a TURN client binds a channel to a peer (RFC 8656, section 12).
    pub fn is_channel_bind_request(&self) -> bool
        ensures { IsTrue result ↔ (((message_view self.now).method ≡ methods.ChannelBind) × ((message_view self.now).class ≡ classes.Request)) }
    {
        self.is(Method::ChannelBind, Class::Request)
    }

    /// Whether a TURN client refreshes its allocation (RFC 8656, section 8).
    pub fn is_refresh_request(&self) -> bool
        ensures { IsTrue result ↔ (((message_view self.now).method ≡ methods.Refresh) × ((message_view self.now).class ≡ classes.Request)) }
    {
        self.is(Method::Refresh, Class::Request)
    }

    /// Whether a TURN client sends data to a peer (RFC 8656, section 11).
    pub fn is_send_indication(&self) -> bool
        ensures { IsTrue result ↔ (((message_view self.now).method ≡ methods.Send) × ((message_view self.now).class ≡ classes.Indication)) }
    {
        self.is(Method::Send, Class::Indication)
    }

    /// Returns the transaction ID. A response has the transaction ID of its request.
    pub fn trans_id(&self) -> TransId
        ensures { result.0 ≡ (message_view self.now).id }
    {
        self.trans_id
    }

    /// USERNAME (RFC 8489, section 14.3).
    pub fn username(&self) -> Option<&'a str>
        ensures { option_copied result ≡ (message_view self.now).attributes.username }
    {
        self.attrs.username
    }

    /// Returns the parts of USERNAME before and after its first colon. Returns `None` if there is no USERNAME, if it
    /// has no colon, or if nothing follows the first colon (RFC 8445, section 7.2.2).
    pub fn split_username(&self) -> Option<(&'a str, &'a str)>
        ensures { option_map (λ parts. (parts.0.now, parts.1.now)) result ≡ split_username (message_view self.now).attributes }
    {
        self.attrs.split_username()
    }

    /// XOR-MAPPED-ADDRESS (RFC 8489, section 14.2). A parsed IPv6 address has no flow information and no scope.
    pub fn mapped_address(&self) -> Option<SocketAddr>
        ensures { result ≡ (message_view self.now).attributes.xor_mapped_address }
    {
        self.attrs.xor_mapped_address
    }

    /// PRIORITY (RFC 8445, section 16.1).
    pub fn prio(&self) -> Option<u32>
        ensures { result ≡ (message_view self.now).attributes.priority }
    {
        self.attrs.priority
    }

    /// Whether the message has USE-CANDIDATE (RFC 8445, section 16.1).
    pub fn use_candidate(&self) -> bool
        ensures { result ≡ (message_view self.now).attributes.use_candidate }
    {
        self.attrs.use_candidate
    }

    /// CHANNEL-NUMBER (RFC 8656, section 18.1).
    pub fn channel_number(&self) -> Option<u16>
        ensures { result ≡ (message_view self.now).attributes.channel_number }
    {
        self.attrs.channel_number
    }

    /// LIFETIME, in seconds (RFC 8656, section 18.2).
    pub fn lifetime(&self) -> Option<u32>
        ensures { result ≡ (message_view self.now).attributes.lifetime }
    {
        self.attrs.lifetime
    }

    /// XOR-PEER-ADDRESS (RFC 8656, section 18.3).
    pub fn xor_peer_address(&self) -> Option<SocketAddr>
        ensures { result ≡ (message_view self.now).attributes.xor_peer_address }
    {
        self.attrs.xor_peer_address
    }

    /// XOR-RELAYED-ADDRESS (RFC 8656, section 18.5).
    pub fn xor_relayed_address(&self) -> Option<SocketAddr>
        ensures { result ≡ (message_view self.now).attributes.xor_relayed_address }
    {
        self.attrs.xor_relayed_address
    }

    /// The tie-breaker of ICE-CONTROLLED (RFC 8445, section 16.1).
    pub fn ice_controlled(&self) -> Option<u64>
        ensures { result ≡ (message_view self.now).attributes.ice_controlled }
    {
        self.attrs.ice_controlled
    }

    /// The tie-breaker of ICE-CONTROLLING (RFC 8445, section 16.1).
    pub fn ice_controlling(&self) -> Option<u64>
        ensures { result ≡ (message_view self.now).attributes.ice_controlling }
    {
        self.attrs.ice_controlling
    }

    /// NETWORK-COST: the ID of the sender's network, and its cost.
    pub fn network_cost(&self) -> Option<(u16, u16)>
        ensures { result ≡ (message_view self.now).attributes.network_cost }
    {
        self.attrs.network_cost
    }

    /// NOMINATION: the number of a nomination (draft-thatcher-ice-renomination).
    pub fn nomination(&self) -> Option<u32>
        ensures { result ≡ (message_view self.now).attributes.nomination }
    {
        self.attrs.nomination
    }

    /// ERROR-CODE (RFC 8489, section 14.8): the code and the reason. A parsed code is 300 to 699.
    pub fn error_code(&self) -> Option<(u16, &'a str)>
        ensures { error_view result ≡ (message_view self.now).attributes.error_code }
    {
        self.attrs.error_code
    }

    /// DATA (RFC 8656, section 18.4).
    pub fn data(&self) -> Option<&'a [u8]>
        ensures { option_copied result ≡ (message_view self.now).attributes.«data» }
    {
        self.attrs.data
    }

    /// REALM (RFC 8489, section 14.9).
    pub fn realm(&self) -> Option<&'a str>
        ensures { option_copied result ≡ (message_view self.now).attributes.realm }
    {
        self.attrs.realm
    }

    /// NONCE (RFC 8489, section 14.10).
    pub fn nonce(&self) -> Option<&'a str>
        ensures { option_copied result ≡ (message_view self.now).attributes.nonce }
    {
        self.attrs.nonce
    }

    /// SOFTWARE, as attribute type 0x0022.
    pub fn software(&self) -> Option<&'a str>
        ensures { option_copied result ≡ (message_view self.now).attributes.software }
    {
        self.attrs.software
    }

    /// FINGERPRINT (RFC 8489, section 14.7), which is read and not compared.
    pub fn fingerprint(&self) -> Option<u32>
        ensures { result ≡ (message_view self.now).attributes.fingerprint }
    {
        self.attrs.fingerprint
    }

    /// Whether the message was parsed and has MESSAGE-INTEGRITY (RFC 8489, section 14.5). `verify` says whether it is
    /// the one of a password.
    pub fn has_integrity(&self) -> bool
        ensures { result ≡ is_some (message_view self.now).integrity }
    {
        self.integrity.is_some()
    }
}
