//! A TURN client with peers: it permits them, sends to them, and takes data of no others. Most of this is in tables of `sessions`.

use super::side::{Side, address, allocated, at};
use is_stun::channel_data::read_channel_data;
use is_stun::stun::*;
use is_turn::{Reason, TurnReceived, write_send};
use std::alloc::AllocError;
use std::net::{Ipv4Addr, Ipv6Addr, SocketAddr, SocketAddrV4, SocketAddrV6};
use std::test::*;

pub(super) const MEDIA: [u8; 3] = [0x80, 1, 2];

pub(super) fn peer(last: u8, port: u16) -> SocketAddr {
    SocketAddr::V4(SocketAddrV4::new(Ipv4Addr::new(203, 0, 113, last), port))
}

/// Answers the last request: method and class in the first byte pair, and its transaction ID.
pub(super) fn answer(side: &mut Side, now: u64, code: Option<u16>) -> TurnReceived<'static> {
    let id = side.id();
    let is_bind = side.packet[1] == 9;
    let message = match (is_bind, code) {
        (true, None) => Builder::new().channel_bind().success().build(id),
        (false, None) => Builder::new().create_permission().success().build(id),
        (true, Some(code)) => Builder::new()
            .channel_bind()
            .failure()
            .error_code(code, "")
            .build(id),
        (false, Some(code)) => Builder::new()
            .create_permission()
            .failure()
            .error_code(code, "")
            .build(id),
    };
    side.hear(now, true, message)
}

/// A Data indication of a peer, at this time; whether the client takes it.
pub(super) fn takes_data(side: &mut Side, now: u64, from: SocketAddr) -> bool {
    let mut buf = [0; 100];
    match write_send(from, &MEDIA, &TransId([7; 12]), &mut buf) {
        Ok(len) if len <= 100 => {
            buf[1] = 0x17;
            let received = side.client.receive(at(now), address(1), &buf[..len]);
            matches!(received, TurnReceived::Data(peer, contents) if peer == from && contents == MEDIA.as_slice())
        }
        _ => false,
    }
}

/// What is sent to the peer at this time: a Send indication, ChannelData with this number, or nothing.
pub(super) fn sends(side: &mut Side, now: u64, to: SocketAddr, contents: &[u8]) -> Option<u16> {
    let mut buf = [0; 100];
    match side
        .client
        .send(at(now), to, contents, &TransId([5; 12]), &mut buf)
    {
        Ok(Some(len)) if len <= 100 => match read_channel_data(&buf[..len]) {
            Some((number, read)) if read == contents => Some(number),
            _ => Some(u16::from_be_bytes([buf[0], buf[1]])),
        },
        _ => None,
    }
}

#[test]
fn another_version_is_not_permitted(rt: HostRuntime) -> Result<(), AllocError> {
    let mut side = allocated(rt.alloc())?;
    let other = SocketAddr::V6(SocketAddrV6::new(Ipv6Addr::LOCALHOST, 1000, 0, 0));
    assert!(rt;
        !side.client.permit(at(100), other) && sends(&mut side, 100, other, &MEDIA).is_none()
    );
    Ok(())
}

#[test]
fn data_of_no_channel_is_dropped(rt: HostRuntime) -> Result<(), AllocError> {
    let mut side = allocated(rt.alloc())?;
    let bytes = [0x40, 0x01, 0, 3, 0x80, 1, 2];
    let received = side.client.receive(at(140), address(1), &bytes);
    assert!(rt; matches!(received, TurnReceived::Dropped(Reason::NotPermitted)));
    Ok(())
}
