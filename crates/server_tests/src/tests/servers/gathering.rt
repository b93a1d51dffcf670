//! From the first request to the end of each client.

use super::program::*;
use is_servers::{Happened, ServerEvent, Transport};
use is_stun::stun::*;
use is_turn::{Ending, Why};

fn ended(transport: Transport, n: u8, why: Why) -> Option<ServerEvent> {
    Some(ServerEvent {
        transport,
        local: socket(5000 + u16::from(n)),
        server: server(n),
        what: Happened::Ended(Ending {
            why,
            code: None,
            unverified: None,
        }),
    })
}

/// The first server answers with a mapped address, which ends gathering.
fn is_mapped(program: &mut Program) -> bool {
    let answer = Builder::new()
        .binding()
        .success()
        .xor_mapped_address(server(66))
        .build(program.id());
    if program.answers(Transport::Udp, 1, answer) || !program.servers.is_gathering() {
        return false;
    }
    match program.servers.poll_event() {
        Some(event) => {
            event.what == Happened::Mapped(server(66)) && !program.servers.is_gathering()
        }
        None => false,
    }
}

/// A STUN client at one socket and a TURN client at another: each sends, and each finds its addresses.
#[test]
fn two_servers_answer(rt: HostRuntime) {
    let mut program = Program::new(rt.alloc());
    assert!(rt; !program.servers.is_gathering() && program.adds_stun(0, 1));
    assert!(rt; program.servers.poll_timeout() == Some(at(0)) && program.sends_from(0, 1));
    assert!(rt; is_mapped(&mut program) && program.adds(rt.alloc(), Transport::Udp, 2));
    assert!(rt; program.servers.is_gathering() && program.is_allocated(Transport::Udp, 2));
    assert!(rt; !program.servers.is_gathering());
}

/// A second client of the same socket and server is not added: it would have no response.
#[test]
fn a_second_client_is_not_added(rt: HostRuntime) {
    let mut program = Program::new(rt.alloc());
    assert!(rt; program.adds_stun(0, 1) && program.adds_stun(0, 1));
    assert!(rt;
        program.adds(rt.alloc(), Transport::Tcp, 2) && program.adds(rt.alloc(), Transport::Tcp, 2)
    );
    assert!(rt; program.sends_at(0).is_some() && program.sends_at(0).is_some());
    assert!(rt; program.sends_at(0).is_none());
}

/// Whether media of the first server is the agent's.
fn leaves_media(program: &mut Program) -> bool {
    match program.is_left_of(Transport::Udp, 1, &MEDIA) {
        Some(datagram) => { datagram.source == server(1) && datagram.contents == MEDIA.as_slice() }
        None => false,
    }
}

/// What comes from a STUN server and is no response to it is the agent's.
#[test]
fn other_datagrams_are_the_agents(rt: HostRuntime) {
    let mut program = Program::new(rt.alloc());
    let other = Builder::new().binding().success().build(TransId([9; 12]));
    assert!(rt; program.adds_stun(0, 1) && program.sends_at(0).is_some());
    assert!(rt; leaves_media(&mut program) && program.answers(Transport::Udp, 1, other));
}

/// Over TCP a request is sent once, and the client waits for Ti (RFC 8489, section 6.2.2).
#[test]
fn over_tcp_a_request_is_sent_once(rt: HostRuntime) {
    let mut program = Program::new(rt.alloc());
    assert!(rt;
        program.adds(rt.alloc(), Transport::Tcp, 1) && program.sends_over(0, Transport::Tcp)
    );
    assert!(rt; program.servers.poll_timeout() == Some(at(39_500)));
    assert!(rt;
        program.sends_at(39_500).is_none() && program.reports(ended(Transport::Tcp, 1, Why::Failed))
    );
}

/// A connection that is gone ends its client without a packet; the client of the same port over UDP stays.
#[test]
fn a_connection_is_gone(rt: HostRuntime) {
    let mut program = Program::new(rt.alloc());
    assert!(rt;
        program.adds(rt.alloc(), Transport::Tcp, 1)
            && program.allocates(Transport::Tcp, 1).is_some()
            && program.adds(rt.alloc(), Transport::Udp, 1)
    );
    program.servers.lose(Transport::Tcp, socket(5001));
    assert!(rt;
        program.reports(ended(Transport::Tcp, 1, Why::Lost))
            && program.sends_over(10, Transport::Udp)
    );
    program.servers.lose(Transport::Udp, socket(5001));
    assert!(rt;
        program.reports(ended(Transport::Udp, 1, Why::Failed))
            && program.servers.poll_timeout().is_none()
    );
}

/// Each client ends: a STUN client at once, a TURN client after it freed its allocation, over TCP with one request.
#[test]
fn all_are_closed(rt: HostRuntime) {
    let mut program = Program::new(rt.alloc());
    assert!(rt;
        program.adds(rt.alloc(), Transport::Tcp, 1)
            && program.allocates(Transport::Tcp, 1).is_some()
            && program.adds_stun(10, 2)
    );
    program.servers.close(at(10));
    assert!(rt;
        program.reports(ended(Transport::Udp, 2, Why::Closed)) && program.sends_at(10).is_some()
    );
    assert!(rt; program.servers.poll_timeout() == Some(at(39_510)));
    assert!(rt;
        program.sends_at(39_510).is_none() && program.reports(ended(Transport::Tcp, 1, Why::Closed))
    );
}
