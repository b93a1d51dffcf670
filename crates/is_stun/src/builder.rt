//! Builds messages, step by step: the method, the class, the attributes, the transaction ID. Each state is a type, so a
//! step out of order does not compile.

ghost use Rattle.std.specs.Prelude.{◌≡◌, Some, true};
ghost use Rattle.is_stun.specs.declared.header.Class.TheVariants as classes;
ghost use Rattle.is_stun.specs.declared.header.Method.TheVariants as methods;
ghost use Rattle.is_stun.specs.Message.{no_attributes};
ghost use Rattle.is_stun.specs.MessageView.{message_view};
ghost use Rattle.is_stun.specs.Builder.{built, attributes_so_far, method_so_far, kind_so_far};

use crate::attributes::Attributes;
use crate::header::{Class, Method};
use crate::message::StunMessage;
use crate::trans_id::TransId;
use std::net::SocketAddr;

/// The state of a builder that needs a method.
#[derive(Clone, Copy, Debug, Default)]
pub struct NoMethod;

/// The state of a builder that needs a class.
#[derive(Clone, Copy, Debug)]
pub struct HasMethod {
    method: Method,
}

/// The state of a builder that accepts attributes, and can build.
#[derive(Clone, Copy, Debug)]
pub struct HasClass {
    method: Method,
    class: Class,
}

/// A message that is being built. Building never allocates: texts and data are borrowed until the message is written.
/// The default builder of the state `NoMethod` is the empty one.
#[derive(Clone, Copy, Debug, Default)]
pub struct Builder<'a, State> {
    attrs: Attributes<'a>,
    state: State,
}

/// The builder, under its longer name.
pub type StunMessageBuilder<'a, State> = Builder<'a, State>;

impl<'a> Builder<'a, NoMethod> {
    /// Returns the empty builder.
    pub fn new() -> Self
        ensures { attributes_so_far result ≡ no_attributes }
    {
        Builder::default()
    }

    /// Sets STUN's only method, Binding (RFC 8489, section 18.2).
    pub fn binding(self) -> Builder<'a, HasMethod>
        ensures method { method_so_far result ≡ methods.Binding }
        ensures attributes { attributes_so_far result ≡ attributes_so_far self.entry }
    {
        self.with_method(Method::Binding)
    }

    /// TURN: requests a relayed address (RFC 8656, section 7).
    pub fn allocate(self) -> Builder<'a, HasMethod>
        ensures method { method_so_far result ≡ methods.Allocate }
        ensures attributes { attributes_so_far result ≡ attributes_so_far self.entry }
    {
        self.with_method(Method::Allocate)
    }

    /// TURN: refreshes an allocation (RFC 8656, section 8).
    pub fn refresh(self) -> Builder<'a, HasMethod>
        ensures method { method_so_far result ≡ methods.Refresh }
        ensures attributes { attributes_so_far result ≡ attributes_so_far self.entry }
    {
        self.with_method(Method::Refresh)
    }

    /// TURN: sends data to a peer (RFC 8656, section 11).
    pub fn send(self) -> Builder<'a, HasMethod>
        ensures method { method_so_far result ≡ methods.Send }
        ensures attributes { attributes_so_far result ≡ attributes_so_far self.entry }
    {
        self.with_method(Method::Send)
    }

    /// TURN: carries data from a peer (RFC 8656, section 11).
    pub fn data(self) -> Builder<'a, HasMethod>
        ensures method { method_so_far result ≡ methods.Data }
        ensures attributes { attributes_so_far result ≡ attributes_so_far self.entry }
    {
        self.with_method(Method::Data)
    }

    /// TURN: permits peers (RFC 8656, section 10).
    pub fn create_permission(self) -> Builder<'a, HasMethod>
        ensures method { method_so_far result ≡ methods.CreatePermission }
        ensures attributes { attributes_so_far result ≡ attributes_so_far self.entry }
    {
        self.with_method(Method::CreatePermission)
    }

    /// TURN: binds a channel to a peer (RFC 8656, section 12).
    pub fn channel_bind(self) -> Builder<'a, HasMethod>
        ensures method { method_so_far result ≡ methods.ChannelBind }
        ensures attributes { attributes_so_far result ≡ attributes_so_far self.entry }
    {
        self.with_method(Method::ChannelBind)
    }

    fn with_method(self, method: Method) -> Builder<'a, HasMethod>
        ensures method { method_so_far result ≡ method }
        ensures attributes { attributes_so_far result ≡ attributes_so_far self.entry }
    {
        Builder {
            attrs: self.attrs,
            state: HasMethod { method },
        }
    }
}

impl<'a> Builder<'a, HasMethod> {
    /// Makes it a request.
    pub fn request(self) -> Builder<'a, HasClass>
        ensures kind { kind_so_far result ≡ record { method = method_so_far self.entry; class = classes.Request } }
        ensures attributes { attributes_so_far result ≡ attributes_so_far self.entry }
    {
        self.with_class(Class::Request)
    }

    /// Makes it an indication, which has no response.
    pub fn indication(self) -> Builder<'a, HasClass>
        ensures kind { kind_so_far result ≡ record { method = method_so_far self.entry; class = classes.Indication } }
        ensures attributes { attributes_so_far result ≡ attributes_so_far self.entry }
    {
        self.with_class(Class::Indication)
    }

    /// Makes it a success response.
    pub fn success(self) -> Builder<'a, HasClass>
        ensures kind { kind_so_far result ≡ record { method = method_so_far self.entry; class = classes.Success } }
        ensures attributes { attributes_so_far result ≡ attributes_so_far self.entry }
    {
        self.with_class(Class::Success)
    }

    /// Makes it an error response.
    pub fn failure(self) -> Builder<'a, HasClass>
        ensures kind { kind_so_far result ≡ record { method = method_so_far self.entry; class = classes.Failure } }
        ensures attributes { attributes_so_far result ≡ attributes_so_far self.entry }
    {
        self.with_class(Class::Failure)
    }

    fn with_class(self, class: Class) -> Builder<'a, HasClass>
        ensures kind { kind_so_far result ≡ record { method = method_so_far self.entry; class = class } }
        ensures attributes { attributes_so_far result ≡ attributes_so_far self.entry }
    {
        Builder {
            attrs: self.attrs,
            state: HasClass {
                method: self.state.method,
                class,
            },
        }
    }
}

/// Each setter replaces an earlier value.
impl<'a> Builder<'a, HasClass> {
    /// Sets USERNAME (RFC 8489, section 14.3). At most 508 bytes can be written.
    pub fn username(self, username: &'a str) -> Self
        ensures kind { kind_so_far result ≡ kind_so_far self.entry }
        ensures attributes { attributes_so_far result ≡ record (attributes_so_far self.entry) { username = Some username.now } }
    {
        let mut attrs = self.attrs;
        attrs.username = Some(username);
        Builder {
            attrs,
            state: self.state,
        }
    }

    /// Sets ERROR-CODE (RFC 8489, section 14.8). The code must be 300 to 699 and the reason at most 128 bytes to be
    /// written.
    pub fn error_code(self, code: u16, reason: &'a str) -> Self
        ensures kind { kind_so_far result ≡ kind_so_far self.entry }
        ensures attributes { attributes_so_far result ≡ record (attributes_so_far self.entry) { error_code = Some (code, reason.now) } }
    {
        let mut attrs = self.attrs;
        attrs.error_code = Some((code, reason));
        Builder {
            attrs,
            state: self.state,
        }
    }

    /// Sets CHANNEL-NUMBER (RFC 8656, section 18.1). Any number is written, but only 0x4000 to 0x7FFF, the range of
    /// RFC 5766, can be parsed; that of RFC 8656 ends at 0x4FFF.
    pub fn channel_number(self, number: u16) -> Self
        ensures kind { kind_so_far result ≡ kind_so_far self.entry }
        ensures attributes { attributes_so_far result ≡ record (attributes_so_far self.entry) { channel_number = Some number } }
    {
        let mut attrs = self.attrs;
        attrs.channel_number = Some(number);
        Builder {
            attrs,
            state: self.state,
        }
    }

    /// Sets LIFETIME, in seconds (RFC 8656, section 18.2).
    pub fn lifetime(self, lifetime: u32) -> Self
        ensures kind { kind_so_far result ≡ kind_so_far self.entry }
        ensures attributes { attributes_so_far result ≡ record (attributes_so_far self.entry) { lifetime = Some lifetime } }
    {
        let mut attrs = self.attrs;
        attrs.lifetime = Some(lifetime);
        Builder {
            attrs,
            state: self.state,
        }
    }

    /// Sets XOR-PEER-ADDRESS (RFC 8656, section 18.3). Flow information and scope of an IPv6 address are not written.
    pub fn xor_peer_address(self, address: SocketAddr) -> Self
        ensures kind { kind_so_far result ≡ kind_so_far self.entry }
        ensures attributes { attributes_so_far result ≡ record (attributes_so_far self.entry) { xor_peer_address = Some address } }
    {
        let mut attrs = self.attrs;
        attrs.xor_peer_address = Some(address);
        Builder {
            attrs,
            state: self.state,
        }
    }

    /// Sets DATA (RFC 8656, section 18.4). At most 65535 bytes can be written.
    pub fn data(self, bytes: &'a [u8]) -> Self
        ensures kind { kind_so_far result ≡ kind_so_far self.entry }
        ensures attributes { attributes_so_far result ≡ record (attributes_so_far self.entry) { «data» = Some bytes.now } }
    {
        let mut attrs = self.attrs;
        attrs.data = Some(bytes);
        Builder {
            attrs,
            state: self.state,
        }
    }

    /// Sets REALM (RFC 8489, section 14.9). At most 128 bytes can be written.
    pub fn realm(self, realm: &'a str) -> Self
        ensures kind { kind_so_far result ≡ kind_so_far self.entry }
        ensures attributes { attributes_so_far result ≡ record (attributes_so_far self.entry) { realm = Some realm.now } }
    {
        let mut attrs = self.attrs;
        attrs.realm = Some(realm);
        Builder {
            attrs,
            state: self.state,
        }
    }

    /// Sets NONCE (RFC 8489, section 14.10). At most 128 bytes can be written.
    pub fn nonce(self, nonce: &'a str) -> Self
        ensures kind { kind_so_far result ≡ kind_so_far self.entry }
        ensures attributes { attributes_so_far result ≡ record (attributes_so_far self.entry) { nonce = Some nonce.now } }
    {
        let mut attrs = self.attrs;
        attrs.nonce = Some(nonce);
        Builder {
            attrs,
            state: self.state,
        }
    }

    /// Sets XOR-RELAYED-ADDRESS (RFC 8656, section 18.5). Flow information and scope of an IPv6 address are not
    /// written.
    pub fn xor_relayed_address(self, address: SocketAddr) -> Self
        ensures kind { kind_so_far result ≡ kind_so_far self.entry }
        ensures attributes { attributes_so_far result ≡ record (attributes_so_far self.entry) { xor_relayed_address = Some address } }
    {
        let mut attrs = self.attrs;
        attrs.xor_relayed_address = Some(address);
        Builder {
            attrs,
            state: self.state,
        }
    }

    /// Sets XOR-MAPPED-ADDRESS (RFC 8489, section 14.2). Flow information and scope of an IPv6 address are not written.
    pub fn xor_mapped_address(self, address: SocketAddr) -> Self
        ensures kind { kind_so_far result ≡ kind_so_far self.entry }
        ensures attributes { attributes_so_far result ≡ record (attributes_so_far self.entry) { xor_mapped_address = Some address } }
    {
        let mut attrs = self.attrs;
        attrs.xor_mapped_address = Some(address);
        Builder {
            attrs,
            state: self.state,
        }
    }

    /// Sets SOFTWARE, as attribute type 0x0022. At most 128 bytes can be written.
    pub fn software(self, software: &'a str) -> Self
        ensures kind { kind_so_far result ≡ kind_so_far self.entry }
        ensures attributes { attributes_so_far result ≡ record (attributes_so_far self.entry) { software = Some software.now } }
    {
        let mut attrs = self.attrs;
        attrs.software = Some(software);
        Builder {
            attrs,
            state: self.state,
        }
    }

    /// Sets PRIORITY (RFC 8445, section 16.1).
    pub fn prio(self, prio: u32) -> Self
        ensures kind { kind_so_far result ≡ kind_so_far self.entry }
        ensures attributes { attributes_so_far result ≡ record (attributes_so_far self.entry) { priority = Some prio } }
    {
        let mut attrs = self.attrs;
        attrs.priority = Some(prio);
        Builder {
            attrs,
            state: self.state,
        }
    }

    /// Sets USE-CANDIDATE (RFC 8445, section 16.1).
    pub fn use_candidate(self) -> Self
        ensures kind { kind_so_far result ≡ kind_so_far self.entry }
        ensures attributes { attributes_so_far result ≡ record (attributes_so_far self.entry) { use_candidate = true } }
    {
        let mut attrs = self.attrs;
        attrs.use_candidate = true;
        Builder {
            attrs,
            state: self.state,
        }
    }

    /// Sets ICE-CONTROLLED (RFC 8445, section 16.1).
    pub fn ice_controlled(self, tie_breaker: u64) -> Self
        ensures kind { kind_so_far result ≡ kind_so_far self.entry }
        ensures attributes { attributes_so_far result ≡ record (attributes_so_far self.entry) { ice_controlled = Some tie_breaker } }
    {
        let mut attrs = self.attrs;
        attrs.ice_controlled = Some(tie_breaker);
        Builder {
            attrs,
            state: self.state,
        }
    }

    /// Sets ICE-CONTROLLING (RFC 8445, section 16.1).
    pub fn ice_controlling(self, tie_breaker: u64) -> Self
        ensures kind { kind_so_far result ≡ kind_so_far self.entry }
        ensures attributes { attributes_so_far result ≡ record (attributes_so_far self.entry) { ice_controlling = Some tie_breaker } }
    {
        let mut attrs = self.attrs;
        attrs.ice_controlling = Some(tie_breaker);
        Builder {
            attrs,
            state: self.state,
        }
    }

    /// Sets NETWORK-COST: the ID of the sender's network, and its cost.
    pub fn network_cost(self, network: u16, cost: u16) -> Self
        ensures kind { kind_so_far result ≡ kind_so_far self.entry }
        ensures attributes { attributes_so_far result ≡ record (attributes_so_far self.entry) { network_cost = Some (network, cost) } }
    {
        let mut attrs = self.attrs;
        attrs.network_cost = Some((network, cost));
        Builder {
            attrs,
            state: self.state,
        }
    }

    /// Sets NOMINATION: the number of a nomination (draft-thatcher-ice-renomination).
    pub fn nomination(self, number: u32) -> Self
        ensures kind { kind_so_far result ≡ kind_so_far self.entry }
        ensures attributes { attributes_so_far result ≡ record (attributes_so_far self.entry) { nomination = Some number } }
    {
        let mut attrs = self.attrs;
        attrs.nomination = Some(number);
        Builder {
            attrs,
            state: self.state,
        }
    }

    /// Returns the message. It has no MESSAGE-INTEGRITY until it is written with a password.
    pub fn build(self, trans_id: TransId) -> StunMessage<'a>
        ensures { message_view result ≡ built (kind_so_far self.entry).method (kind_so_far self.entry).class trans_id.0
            (attributes_so_far self.entry) }
    {
        StunMessage {
            method: self.state.method,
            class: self.state.class,
            trans_id,
            attrs: self.attrs,
            integrity: None,
        }
    }
}
