//! What the last packet of an agent is, and the letters of events. No function here sees an agent.

use super::step::At;
use super::*;

/// The message of the packet.
fn message_of(sent: &Option<Transmit>) -> Option<StunMessage<'_>> {
    StunMessage::parse(&sent.as_ref()?.contents).ok()
}

/// How long the packet is; 0 if there is none.
fn length_of(sent: &Option<Transmit>) -> usize {
    match sent {
        Some(sent) => sent.contents.len(),
        None => 0,
    }
}

/// The id of the packet.
pub(super) fn sent_id(sent: &Option<Transmit>) -> Option<TransId> {
    Some(message_of(sent)?.trans_id())
}

/// The class and the length of the packet.
pub(super) fn class_and_length(sent: &Option<Transmit>) -> Option<(Class, usize)> {
    Some((message_of(sent)?.class(), length_of(sent)))
}

/// Whether the packet nominates.
pub(super) fn nominates(sent: &Option<Transmit>) -> Option<bool> {
    Some(message_of(sent)?.use_candidate())
}

/// The number of its nomination.
pub(super) fn nomination(sent: &Option<Transmit>) -> Option<u32> {
    message_of(sent)?.nomination()
}

/// The length of the packet, if it has the PRIORITY of a peer-reflexive candidate.
pub(super) fn check_length(sent: &Option<Transmit>) -> Option<usize> {
    if message_of(sent)?.prio() == Some(1862270719) {
        Some(length_of(sent))
    } else {
        None
    }
}

/// The packet claims the controlling role with this tie-breaker, and has this USERNAME.
pub(super) fn claims(sent: &Option<Transmit>, tie_breaker: u64, username: &str) -> bool {
    match message_of(sent) {
        Some(message) => {
            message.ice_controlling() == Some(tie_breaker)
                && message.ice_controlled().is_none()
                && message.username() == Some(username)
        }
        None => false,
    }
}

/// The packet is signed with the password.
pub(super) fn is_signed(sent: &Option<Transmit>, pass: &str) -> bool {
    match message_of(sent) {
        Some(message) => message.verify(pass.as_bytes(), &DefaultSha1HmacProvider),
        None => false,
    }
}

/// The packet is the response to the request of 100 bytes, signed with the password.
pub(super) fn is_reply(sent: &Option<Transmit>, pass: &str) -> bool {
    let Some(packet) = sent else {
        return false;
    };
    packet.contents.len() == 64 && packet.contents.starts_with(&REPLY) && is_signed(sent, pass)
}

/// The packet goes from the first address to the second.
pub(super) fn is_between(sent: &Option<Transmit>, source: At, destination: At) -> bool {
    match sent {
        Some(sent) => { sent.source == source.socket() && sent.destination == destination.socket() }
        None => false,
    }
}

/// The packet goes from the first address to the second, which are texts.
pub(super) fn is_on(sent: &Option<Transmit>, source: &str, destination: &str) -> bool {
    match sent {
        Some(sent) => is_at(sent.source, source) && is_at(sent.destination, destination),
        None => false,
    }
}

/// The text is this address.
fn is_at(address: SocketAddr, text: &str) -> bool {
    match text.parse::<SocketAddr>() {
        Ok(expected) => address == expected,
        Err(_) => false,
    }
}

/// The letter of the event.
pub(super) fn sign_of(event: &IceAgentEvent) -> char {
    match event {
        IceAgentEvent::IceRestart(_) => 'R',
        IceAgentEvent::IceConnectionStateChange(IceConnectionState::New) => '?',
        IceAgentEvent::IceConnectionStateChange(IceConnectionState::Checking) => 'c',
        IceAgentEvent::IceConnectionStateChange(IceConnectionState::Connected) => 'k',
        IceAgentEvent::IceConnectionStateChange(IceConnectionState::Completed) => 'C',
        IceAgentEvent::IceConnectionStateChange(IceConnectionState::Disconnected) => 'x',
        IceAgentEvent::DiscoveredRecv { .. } => 'D',
        IceAgentEvent::NominatedSend { .. } => 'N',
    }
}

/// The event reports a packet from this address as discovered.
pub(super) fn is_discovery(event: &Option<IceAgentEvent>, wanted: Protocol, from: At) -> bool {
    match event {
        Some(IceAgentEvent::DiscoveredRecv { proto, source }) => {
            *proto == wanted && *source == from.socket()
        }
        _ => false,
    }
}

/// The event reports this path over UDP as selected.
pub(super) fn is_selection(event: &Option<IceAgentEvent>, from: At, to: At) -> bool {
    match event {
        Some(
            IceAgentEvent::NominatedSend {
                proto: Protocol::Udp,
                source,
                destination,
            },
        ) => *source == from.socket() && *destination == to.socket(),
        _ => false,
    }
}

/// The event reports a restart with this username fragment.
pub(super) fn is_restart(event: &Option<IceAgentEvent>, ufrag: &str) -> bool {
    match event {
        Some(IceAgentEvent::IceRestart(creds)) => creds.ufrag.as_str() == ufrag,
        _ => false,
    }
}
