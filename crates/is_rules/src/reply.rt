//! Signed messages that the agent writes, among them the responses to Binding requests.

ghost use Rattle.std.specs.Prelude.{◌≡◌, IfSome, Some, None, length};
ghost use Rattle.is_stun.specs.Checks.{binding_reply, binding_role_conflict_reply};
ghost use Rattle.is_stun.specs.Theorems.{IsClass, IsChannelNumber, IsPut, LONGEST_REPLY, plain};
ghost use Rattle.is_stun.specs.MessageView.{message_view};
ghost use Rattle.is_stun.specs.Writing.{written, rejection};
ghost use Rattle.is_rules.specs.Sending.{carried};

use is_proto::Sha1HmacProvider;
use is_stun::stun::{StunMessage, TransId};
use is_stun::theorems::replies_fit;
use std::net::SocketAddr;

/// The length of the longest response: header, an IPv6 address, MESSAGE-INTEGRITY and FINGERPRINT.
pub const REPLY_LEN: usize = 20 + 24 + 24 + 8;

/// Writes a message, signed with the password, to the start of the buffer, and cuts the buffer to its length.
pub fn write_signed<H: Sha1HmacProvider>(
    contents: &mut Vec<u8>,
    message: StunMessage<'_>,
    password: &str,
    provider: &H,
)
    requires fits { rejection (Some password.now) (length contents.old.items) (message_view message) ≡ None }
    requires class { IsClass (message_view message).class }
    requires channel { IfSome (message_view message).attributes.channel_number IsChannelNumber }
    ensures written { contents.new.items ≡ written (H.mac provider.now) (Some password.now) (message_view message.entry) }
    ensures put { IsPut (written (H.mac provider.now) (Some password.now) (message_view message.entry)) (plain (message_view message.entry)) }
{
    match message.to_bytes(Some(password.as_bytes()), contents, provider) {
        Ok(len) => contents.truncate(len),
        Err(_) => unreachable!(),
    }
}

/// Writes a success response, signed with the password, to the start of the buffer, and cuts the buffer to its length.
pub fn write_reply<H: Sha1HmacProvider>(
    reply: &mut Vec<u8>,
    id: TransId,
    mapped_address: SocketAddr,
    password: &str,
    provider: &H,
)
    requires { length reply.old.items ≡ LONGEST_REPLY }
    ensures written { reply.new.items ≡ written (H.mac provider.now) (Some password.now) (binding_reply id.0 mapped_address) }
    ensures put { IsPut (written (H.mac provider.now) (Some password.now) (binding_reply id.0 mapped_address))
        (binding_reply id.0 (carried mapped_address)) }
{
    replies_fit();
    let message = StunMessage::binding_reply(id, mapped_address);
    write_signed(reply, message, password, provider);
}

/// Writes the 487, signed with the password, to the start of the buffer, and cuts the buffer to its length.
pub fn write_conflict<H: Sha1HmacProvider>(
    reply: &mut Vec<u8>,
    id: TransId,
    password: &str,
    provider: &H,
)
    requires { length reply.old.items ≡ LONGEST_REPLY }
    ensures written { reply.new.items ≡ written (H.mac provider.now) (Some password.now) (binding_role_conflict_reply id.0) }
    ensures put { IsPut (written (H.mac provider.now) (Some password.now) (binding_role_conflict_reply id.0)) (binding_role_conflict_reply id.0) }
{
    replies_fit();
    let message = StunMessage::binding_role_conflict_reply(id);
    write_signed(reply, message, password, provider);
}
