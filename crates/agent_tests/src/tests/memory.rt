//! Allocation failures: run with each allocation failing in turn (`rt try --test --fail-alloc N`).

use super::driver::Player;
use super::making::{creds, parsed};
use super::settled::{BOTH_MODERN, OTHER, SECOND};
use super::step::{At, Emitted, Setting, Start, Step};
use super::*;
use is::Profile;
use std::process::Abort;

/// The agent of the request, in a box.
fn made(alloc: Global) -> Result<Box<Agent>, IceError> {
    let agent = Agent::new(alloc, creds(alloc, "p9KA", PASSWORD)?, 1)?;
    Ok(Box::new(alloc, agent)?)
}

/// The agent of the request, in a box. If making it fails, it is made once more.
fn made_twice(alloc: Global) -> Option<Box<Agent>> {
    match made(alloc) {
        Ok(agent) => Some(agent),
        Err(_) => made(alloc).ok(),
    }
}

fn pass_creds(agent: &mut Agent, alloc: Global) -> Result<(), IceError> {
    agent.set_remote_credentials(creds(alloc, "SQAt", "x")?)
}

fn add_host(agent: &mut Agent, alloc: Global) -> Result<bool, IceError> {
    let host = Candidate::host(alloc, At(1, 1000).socket(), Protocol::Udp)?;
    Ok(agent.add_local_candidate(host)?.is_some())
}

/// Passes the peer's credentials; a call that fails is made once more.
fn pass_creds_with_retry(agent: &mut Agent, alloc: Global) -> bool {
    pass_creds(agent, alloc).is_ok() || pass_creds(agent, alloc).is_ok()
}

/// Adds a host candidate, likewise.
fn add_host_with_retry(agent: &mut Agent, alloc: Global) -> bool {
    matches!(add_host(agent, alloc), Ok(true)) || matches!(add_host(agent, alloc), Ok(true))
}

/// Passes the packet to the agent. A call that runs out of memory has no effect, and is made once more.
fn takes(agent: &mut Agent, packet: StunPacket<'_>) -> bool {
    match agent.handle_packet(Instant(0), packet) {
        Ok(answer) => answer,
        Err(error) => {
            error == IceError::OutOfMemory
                && agent.poll_transmit().is_none()
                && agent.poll_event().is_none()
                && matches!(agent.handle_packet(Instant(0), packet), Ok(true))
        }
    }
}

/// The request comes from 10.0.0.2:2000; whether the agent accepts it.
fn receive_request(agent: &mut Agent) -> bool {
    match StunMessage::parse(&REQUEST) {
        Ok(message) => takes(
            agent,
            StunPacket {
                proto: Protocol::Udp,
                source: At(2, 2000).socket(),
                destination: At(1, 1000).socket(),
                message,
            },
        ),
        Err(_) => false,
    }
}

fn replies(agent: &mut Agent) -> bool {
    match agent.poll_transmit() {
        Some(reply) => reply.contents.len() == 64 && reply.contents.starts_with(&REPLY),
        None => false,
    }
}

/// Plays with the agent, which it borrows.
fn play(rt: &impl Abort, agent: &mut Agent, alloc: Global) {
    assert!(rt; pass_creds_with_retry(agent, alloc));
    assert!(rt; add_host_with_retry(agent, alloc));
    assert!(rt; receive_request(agent));
    assert!(rt; replies(agent));
    assert!(rt; agent.poll_event().is_some());
    assert!(rt; agent.poll_event().is_none());
}

#[test]
fn a_failed_call_can_be_made_again(rt: HostRuntime) -> Result<(), Fail> {
    match made_twice(rt.alloc()) {
        Some(mut agent) => {
            play(&rt, &mut agent, rt.alloc());
            Ok(())
        }
        None => Err(IceError::OutOfMemory.into()),
    }
}

// ---- calls that take no memory

/// An agent with the profile `Modern` and two valid paths, of which the better one is selected.
fn with_two_paths(alloc: Global) -> Option<Player> {
    let mut player = Player::new(alloc, "near", "nearpass", 7).ok()?;
    let begins = [
        Step::Begin(Start::Unpaired),
        Step::Set(Setting::Profile(Profile::Modern)),
    ];
    for step in begins.iter().chain(BOTH_MODERN.iter()) {
        if !player.makes(step) {
            return None;
        }
    }
    Some(player)
}

/// The two candidates of the peer.
fn of_the_peer(alloc: Global) -> Option<(Candidate, Candidate)> {
    Some((parsed(alloc, PEER)?, parsed(alloc, OTHER)?))
}

/// Both paths are lost before an event is polled: room for their events was made when the candidates were added.
#[test]
fn invalidating_takes_no_memory(rt: HostRuntime) -> Result<(), Fail> {
    let (Some(mut player), Some((first, second))) = (
        with_two_paths(rt.alloc()),
        of_the_peer(rt.alloc()),
    ) else {
        return Err(IceError::OutOfMemory.into());
    };
    assert!(rt; player.agent.invalidate_candidate(&first));
    assert!(rt; player.agent.invalidate_candidate(&second));
    assert!(rt; !player.agent.invalidate_candidate(&first));
    assert!(rt; player.makes(&Step::Emits(Emitted::Selects(At(1, 1000), SECOND))));
    assert!(rt; player.makes(&Step::Emits(Emitted::Events("Cx"))));
    Ok(())
}
