//! Data from and to a relayed address, over UDP and over TCP.

use super::program::*;
use is_servers::{Frame, ServerOutgoing, Transport, frame_length};
use is_stun::channel_data::channel_header;
use is_stun::stun::*;
use is_turn::write_send;

/// Whether a Data indication of the first server is left as data of the peer.
fn leaves_data(program: &mut Program) -> bool {
    let mut buf = [0; 100];
    match write_send(peer(), &MEDIA, &TransId([7; 12]), &mut buf) {
        Ok(len) if len <= 100 => {
            buf[1] = 0x17;
            match program.is_left_of(Transport::Udp, 1, &buf[..len]) {
                Some(datagram) => {
                    datagram.source == peer()
                        && datagram.destination == server(50)
                        && datagram.contents == MEDIA.as_slice()
                }
                None => false,
            }
        }
        _ => false,
    }
}

/// Whether media of the relayed address goes through the first server.
fn goes_through(program: &mut Program) -> bool {
    match program.goes(server(50)) {
        Some(ServerOutgoing::Through(packet)) => {
            packet.local == socket(5001) && packet.server == server(1)
        }
        _ => false,
    }
}

/// Media goes through the server in a Send indication, and data of the peer comes back as from the peer.
#[test]
fn data_goes_both_ways_over_udp(rt: HostRuntime) {
    let mut program = Program::new(rt.alloc());
    assert!(rt;
        program.adds(rt.alloc(), Transport::Udp, 1)
            && program.allocates(Transport::Udp, 1).is_some()
            && program.goes(socket(5001)) == Some(ServerOutgoing::AsItIs)
    );
    assert!(rt; goes_through(&mut program) && program.packet[1] == 0x16);
    assert!(rt; leaves_data(&mut program));
}

/// Whether timeouts of up to 55 ms send the request that binds a channel.
fn sends_bind(program: &mut Program) -> bool {
    for now in [20, 25, 30, 35, 40, 45, 50, 55] {
        if program.packet[1] != 9 {
            let _sent = program.sends_at(now);
        }
    }
    program.packet[1] == 9
}

/// Whether the server's success response to that is no datagram of the agent.
fn is_bound(program: &mut Program) -> bool {
    let bound = Builder::new().channel_bind().success().build(program.id());
    !program.answers(Transport::Tcp, 1, bound)
}

/// Media over the channel, and its padding.
fn frame() -> [u8; 12] {
    let mut frame = [0; 12];
    frame[..4].copy_from_slice(&channel_header(0x4001, 5));
    frame[4..9].copy_from_slice(&MEDIA);
    frame
}

/// Whether media goes over TCP as these 12 bytes.
fn goes_as(program: &mut Program, frame: &[u8; 12]) -> bool {
    program.packet = [0xFF; 200];
    match program.goes(server(50)) {
        Some(ServerOutgoing::Through(packet)) => {
            packet.len == 12
                && packet.transport == Transport::Tcp
                && program.packet[..12] == frame[..]
                && program.packet[12] == 0xFF
        }
        _ => false,
    }
}

/// Whether these bytes are left as data of the peer.
fn is_read(program: &mut Program, frame: &[u8; 12]) -> bool {
    match program.is_left_of(Transport::Tcp, 1, frame) {
        Some(datagram) => datagram.source == peer() && datagram.contents == MEDIA.as_slice(),
        None => false,
    }
}

/// Once its channel is bound, five bytes of media are four more, and three of padding (RFC 8656, section 12.5). What comes so is read.
#[test]
fn channel_data_is_padded_over_tcp(rt: HostRuntime) {
    let mut program = Program::new(rt.alloc());
    assert!(rt;
        program.adds(rt.alloc(), Transport::Tcp, 1)
            && program.allocates(Transport::Tcp, 1).is_some()
            && program.goes(server(50)).is_some()
    );
    let frame = frame();
    assert!(rt; sends_bind(&mut program) && is_bound(&mut program));
    assert!(rt; goes_as(&mut program, &frame) && is_read(&mut program, &frame));
    assert!(rt; frame_length(&frame) == Frame::Of(12));
}

/// The beginnings of messages and of channel data, and how long the whole is.
static FRAMES: [(&[u8], Frame); 6] = [
    (&[0, 1, 0], Frame::TooShort),
    (&[0, 1, 0, 8], Frame::Of(28)),
    (&[0x40, 0, 0, 8, 1], Frame::Of(12)),
    (&[0x4F, 0xFF, 0xFF, 0xFF], Frame::Of(65_540)),
    (&[0x50, 0, 0, 8], Frame::Neither),
    (b"SSH-2.0", Frame::Neither),
];

/// A message in a stream is as long as its header says (RFC 8489, section 5; RFC 8656, section 12.4).
#[test]
fn frames_have_their_lengths(rt: HostRuntime) {
    for (bytes, frame) in &FRAMES {
        assert!(rt; frame_length(bytes) == *frame);
    }
}
