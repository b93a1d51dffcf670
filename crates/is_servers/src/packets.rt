//! What goes to a server.

ghost use Rattle.std.specs.Prelude.{◌≡◌, ◌≤◌, ◌+◌, length, nat_le};
ghost use Rattle.is_servers.specs.Frames.{padded};
ghost use Rattle.is_servers.specs.Packets.{packet_over, outgoing_over, sent_over, padded_at};
ghost use Rattle.is_servers.specs.Calls.{PollsRelays, SendsIfRoom};

use crate::framing::padded;
use crate::transport::Transport;
use is_proto::{Instant, Sha1HmacProvider, StunError};
use is_stun::stun::TransId;
use is_turn::{Outbound, Outgoing, Relays};
use std::net::SocketAddr;

/// A packet at the front of the caller's buffer: a datagram, or what goes into a stream.
#[derive(Clone, Copy, Debug, PartialEq, Eq)]
pub struct ServerPacket {
    pub transport: Transport,
    /// The socket or connection that sends it.
    pub local: SocketAddr,
    pub server: SocketAddr,
    pub len: usize,
}

/// Where a packet goes.
#[derive(Clone, Copy, Debug, PartialEq, Eq)]
pub enum ServerOutgoing {
    /// The packet's source is no relayed address: it goes as it is.
    AsItIs,
    /// Through a server: the buffer has what to send.
    Through(ServerPacket),
    /// The relayed address is gone, or no packet goes from it to this peer.
    Nowhere,
}

/// The most bytes of padding after ChannelData.
const LONGEST_PADDING: usize = 3;

/// Returns a packet over this transport.
fn packet_over(transport: Transport, sent: Outbound) -> ServerPacket
    ensures { result ≡ packet_over transport sent }
{
    ServerPacket {
        transport,
        local: sent.local,
        server: sent.server,
        len: sent.len,
    }
}

fn outgoing_over(transport: Transport, sent: Outgoing) -> ServerOutgoing
    ensures { result ≡ outgoing_over transport sent }
{
    match sent {
        Outgoing::AsItIs => ServerOutgoing::AsItIs,
        Outgoing::Through(sent) => ServerOutgoing::Through(packet_over(transport, sent)),
        Outgoing::Nowhere => ServerOutgoing::Nowhere,
    }
}

/// Returns where a packet goes, over this transport.
pub(crate) fn sent_over(
    transport: Transport,
    sent: Result<Outgoing, StunError>,
) -> Result<ServerOutgoing, StunError>
    ensures { result ≡ sent_over transport sent }
{
    match sent {
        Ok(sent) => Ok(outgoing_over(transport, sent)),
        Err(error) => Err(error),
    }
}

/// Polls the next packet of the clients over this transport.
pub(crate) fn poll_over<H: Sha1HmacProvider>(
    relays: &mut Relays<H>,
    transport: Transport,
    buf: &mut [u8],
) -> Result<Option<ServerPacket>, StunError>
    ensures { PollsRelays transport (λ p. H.mac p) buf.old buf.new relays.old.relays.items result relays.new.relays.items }
{
    match relays.poll_transmit(buf) {
        Ok(Some(sent)) => Ok(Some(packet_over(transport, sent))),
        Ok(None) => Ok(None),
        Err(error) => Err(error),
    }
}

// ---- padding

/// Writes zeros after what is at the front of the buffer, up to a multiple of four bytes, and returns the length with them.
fn pad(len: usize, buf: &mut [u8]) -> usize
    requires { len + 3 ≤ length buf.old }
    ensures len { result ≡ padded len }
    ensures bytes { buf.new ≡ padded_at len buf.old }
{
    let end = padded(len);
    buf[len..end].fill(0);
    end
}

/// Writes a packet of a relayed address to the front of the buffer, with padding (RFC 8656, section 12.5).
pub(crate) fn send_padded<H: Sha1HmacProvider>(
    relays: &mut Relays<H>,
    now: Instant,
    source: SocketAddr,
    destination: SocketAddr,
    contents: &[u8],
    id: &TransId,
    buf: &mut [u8],
) -> Result<Outgoing, StunError>
    ensures { SendsIfRoom (nat_le 3 (length buf.old)) now source destination contents.now id.now buf.old buf.new
        relays.old.relays.items result relays.new.relays.items }
{
    if buf.len() < LONGEST_PADDING {
        return Err(StunError::BufferTooShort);
    }
    let room = buf.len() - LONGEST_PADDING;
    match relays.outgoing(now, source, destination, contents, id, &mut buf[..room]) {
        Ok(Outgoing::Through(sent)) => {
            let len = pad(sent.len, buf);
            Ok(Outgoing::Through(Outbound { len, ..sent }))
        }
        other => other,
    }
}
