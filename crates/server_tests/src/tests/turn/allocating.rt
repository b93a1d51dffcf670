//! A TURN client: it allocates, renews and frees, and takes only what the server signed. What no table of `sessions` says.

use super::side::{Side, address, allocated, at};
use is_turn::{Credentials, TurnReceived, Why};
use std::alloc::AllocError;
use std::test::*;

/// Renewals are tried again until then.
#[test]
fn an_allocation_lapses_at_its_end(rt: HostRuntime) -> Result<(), AllocError> {
    let mut side = allocated(rt.alloc())?;
    let mut last = None;
    for _ in 0..100 {
        if side.client.poll_timeout().is_some() {
            last = side.step().0;
        }
    }
    assert!(rt; last == Some(at(600_010)) && side.ends(Why::Lost, None, None));
    Ok(())
}

/// RFC 8489, section 10: 192.0.2.2 is named by a 300, which nobody signed. It is asked at once, after 2 ms.
#[test]
fn a_redirection_is_followed(rt: HostRuntime) -> Result<(), AllocError> {
    let mut side = Side::new(rt.alloc(), Credentials::new("user", "pass"))?;
    assert!(rt; side.sends_at(0));
    let mut buf = [
        0x01, 0x13, 0x00, 20, 0x21, 0x12, 0xa4, 0x42, 0, 0, 0, 0, 0, 0, 0, 0, 0, 0, 0, 0, 0x00,
        0x09, 0x00, 0x04, 0, 0, 3, 0, 0x80, 0x23, 0x00, 0x08, 0, 1, 0x0d, 0x96, 192, 0, 2, 2,
    ];
    buf[8..20].copy_from_slice(&side.packet[8..20]);
    assert!(rt;
        side.client.receive(at(2), address(3), &buf) == TurnReceived::Other
            && side.client.receive(at(2), address(1), &buf) == TurnReceived::Own
            && side.client.server() == address(2)
            && side.sends_at(2)
            && side.sent(3, false)
    );
    Ok(())
}

#[test]
fn a_short_buffer_leaves_the_packet(rt: HostRuntime) -> Result<(), AllocError> {
    let mut side = Side::new(rt.alloc(), None)?;
    side.client.handle_timeout(at(0), &mut side.rng);
    let mut short = [0; 27];
    assert!(rt;
        side.client.poll_transmit(&mut short).is_err()
            && matches!(side.client.poll_transmit(&mut side.packet), Ok(Some(_)))
            && side.client.poll_transmit(&mut side.packet) == Ok(None)
    );
    Ok(())
}
