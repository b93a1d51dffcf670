//! Sessions of a TURN client as tables: a row is a call or a message of the server, and what has to hold of it. Only the functions here
//! see a client, so that a session adds nothing to the proof.

mod allocating;
mod progress;
mod relaying;

use super::relaying::{MEDIA, answer, peer, sends, takes_data};
use super::side::{Side, address, allocated, allocation, at};
use is_stun::stun::*;
use is_turn::{Credentials, Reason, TurnEvent, TurnReceived, Why};
use std::alloc::{AllocError, Global};
use std::net::SocketAddr;
use std::process::Abort;
use std::test::*;

/// What the client makes of a message: it is taken, or dropped for this reason.
type Dropped = Option<Reason>;

/// A peer: the last byte of its address, and its port.
type Peer = (u8, u16);

/// A row of a session. Times are in milliseconds.
enum Step {
    /// A packet is due at this time, and sent then: a request of this type, signed with the key or not.
    Sends(u64, u8, bool),
    /// A timeout is due at this time, and sends nothing.
    Rests(u64),
    /// So many timeouts send a packet each.
    Steps(u32),
    /// So many timeouts send a keep-alive each.
    KeepsAlive(u32),
    /// So many timeouts, whatever they send, each if it is due by this time.
    Until(u32, u64),
    /// The last packet is a request of this type.
    Sent(u8),
    /// `handle_timeout` at this time sends a packet.
    Late(u64),
    /// A packet is due since the first time, and sent at the second: a request of this type, signed with the key or not.
    SendsLate(u64, u64, u8, bool),
    /// What is due since the first time sends nothing at the second.
    RestsLate(u64, u64),
    /// An error response to Allocate with this code and nonce.
    Challenged(u64, u16, &'static str, Dropped),
    /// An error response 438 to Refresh with a new nonce and this realm.
    Stale(u64, &'static str, Dropped),
    /// An error response to Allocate with this code, signed.
    Failed(u64, u16),
    /// A success response to Allocate, signed or not.
    Allocates(u64, bool),
    /// A success response to Refresh with this lifetime, signed.
    Refreshes(u64, u32),
    /// An error response to Refresh with this code, signed or not.
    Fails(u64, bool, u16, Dropped),
    /// The response to the last request, for a permission or a channel: with this code, or success.
    Answers(u64, Option<u16>),
    /// A 403 to a permission that nobody signed is dropped.
    Forged(u64),
    Probes(u64),
    Closes(u64),
    /// The event that there is an allocation comes next.
    Allocated,
    /// The event that this peer is not permitted comes next, with this code.
    Barred(u8, Option<u16>),
    /// There is no event.
    Quiet,
    /// There is an allocation, or not.
    Has(bool),
    /// The client ends so: the reason, the code, and a code that nobody signed.
    Ends(Why, Option<u16>, Option<u16>),
    /// `permit` at this time takes the peer, or not.
    Permits(u64, Peer, bool),
    /// A Data indication of the peer is taken, or not.
    Data(u64, Peer, bool),
    /// Media to the peer: in a Send indication, 0x16, or over the channel with this number.
    Media(u64, Peer, u16),
    /// What is no media goes in a Send indication.
    Other(u64, Peer),
    /// The peer has this channel.
    Channel(Peer, Option<u16>),
    /// Data of the channel 0x4001 is taken as that of the peer.
    OverChannel(u64, Peer),
    /// A timeout is due by this time.
    DueBy(u64),
}

/// What a session begins with.
enum Start {
    /// A client with credentials, which was started at 0.
    Known,
    /// A client without credentials, which was started at 0.
    Open,
    /// A client with credentials that has an allocation since 20 ms, requested at 10 ms.
    Allocated,
}

/// A session under its name.
struct Session {
    name: &'static str,
    start: Start,
    steps: &'static [Step],
}

fn is_taken(received: TurnReceived<'static>, dropped: &Dropped) -> bool {
    match (received, dropped) {
        (TurnReceived::Own, None) => true,
        (TurnReceived::Dropped(reason), Some(wanted)) => reason == *wanted,
        _ => false,
    }
}

fn are_steps(side: &mut Side, count: u32) -> bool {
    let mut all = true;
    for _ in 0..count {
        all = side.step().1 && all;
    }
    all
}

fn keeps_alive(side: &mut Side, count: u32) -> bool {
    let mut all = true;
    for _ in 0..count {
        all = side.step().1 && side.packet[1] == 0x11 && all;
    }
    all
}

fn runs_until(side: &mut Side, count: u32, time: u64) -> bool {
    for _ in 0..count {
        if side.client.poll_timeout() <= Some(at(time)) {
            let _sent = side.step();
        }
    }
    true
}

fn sends_late(side: &mut Side, now: u64) -> bool {
    side.client.handle_timeout(at(now), &mut side.rng);
    matches!(side.client.poll_transmit(&mut side.packet), Ok(Some(_)))
}

/// Whether a packet is due since the first time, and sent at the second.
fn sends_since(side: &mut Side, due: u64, now: u64) -> bool {
    if side.client.poll_timeout() != Some(at(due)) {
        return false;
    }
    side.client.handle_timeout(at(now), &mut side.rng);
    match side.client.poll_transmit(&mut side.packet) {
        Ok(Some(len)) => {
            side.len = len;
            true
        }
        _ => false,
    }
}

fn closes(side: &mut Side, now: u64) -> bool {
    side.client.close(at(now));
    true
}

fn stale(side: &mut Side, now: u64, realm: &str) -> TurnReceived<'static> {
    let message = Builder::new()
        .refresh()
        .failure()
        .error_code(438, "")
        .realm(realm)
        .nonce("next")
        .build(side.id());
    side.hear(now, false, message)
}

fn error_response(side: &mut Side, now: u64, code: u16) -> TurnReceived<'static> {
    let message = Builder::new()
        .allocate()
        .failure()
        .error_code(code, "")
        .build(side.id());
    side.hear(now, true, message)
}

fn forged(side: &mut Side, now: u64) -> TurnReceived<'static> {
    let message = Builder::new()
        .create_permission()
        .failure()
        .error_code(403, "")
        .build(side.id());
    side.hear(now, false, message)
}

fn has(side: &Side, wanted: bool) -> bool {
    let found = side.client.allocation();
    if wanted {
        found == Some(allocation())
    } else {
        found.is_none()
    }
}

fn probes(side: &mut Side, now: u64) -> bool {
    side.client.probe(at(now));
    true
}

fn permits(side: &mut Side, now: u64, to: Peer) -> bool {
    side.client.permit(at(now), peer(to.0, to.1))
}

fn is_barred(side: &mut Side, last: u8, code: Option<u16>) -> bool {
    side.reports(Some(TurnEvent::NotPermitted(peer(last, 0).ip(), code)))
}

fn takes_channel_data(side: &mut Side, now: u64, from: SocketAddr) -> bool {
    let bytes = [0x40, 0x01, 0, 3, 0x80, 1, 2];
    let received = side.client.receive(at(now), address(1), &bytes);
    matches!(received, TurnReceived::Data(peer, contents) if peer == from && contents == MEDIA.as_slice())
}

fn has_channel(side: &Side, to: Peer, number: Option<u16>) -> bool {
    side.client.channel(peer(to.0, to.1)) == number
}

/// Whether a timeout, what the client sent or what it says is as the row has it.
fn is_seen(side: &mut Side, step: &Step) -> bool {
    match step {
        Step::Sends(time, typ, signs) => side.sends_at(*time) && side.sent(*typ, *signs),
        Step::Rests(time) => side.step() == (Some(at(*time)), false),
        Step::Steps(count) => are_steps(side, *count),
        Step::KeepsAlive(count) => keeps_alive(side, *count),
        Step::Until(count, time) => runs_until(side, *count, *time),
        Step::Sent(typ) => side.packet[1] == *typ,
        Step::Late(time) => sends_late(side, *time),
        Step::Allocated => side.reports(Some(TurnEvent::Allocated(allocation()))),
        Step::Barred(last, code) => is_barred(side, *last, *code),
        Step::Quiet => side.reports(None),
        Step::Has(wanted) => has(side, *wanted),
        Step::Ends(why, code, unverified) => side.ends(*why, *code, *unverified),
        Step::Channel(to, number) => has_channel(side, *to, *number),
        Step::DueBy(time) => side.client.poll_timeout() <= Some(at(*time)),
        _ => false,
    }
}

/// Whether the client takes the server's message as the row has it.
fn is_heard(side: &mut Side, step: &Step) -> bool {
    match step {
        Step::Challenged(now, code, nonce, dropped) => {
            is_taken(side.challenge(*now, *code, nonce), dropped)
        }
        Step::Stale(now, realm, dropped) => is_taken(stale(side, *now, realm), dropped),
        Step::Failed(now, code) => is_taken(error_response(side, *now, *code), &None),
        Step::Allocates(now, signs) => is_taken(side.allocate(*now, *signs), &None),
        Step::Refreshes(now, lifetime) => is_taken(side.refresh(*now, *lifetime), &None),
        Step::Fails(now, signs, code, dropped) => is_taken(side.fail(*now, *signs, *code), dropped),
        Step::Answers(now, code) => is_taken(answer(side, *now, *code), &None),
        Step::Forged(now) => is_taken(forged(side, *now), &Some(Reason::Unauthentic)),
        _ => is_seen(side, step),
    }
}

/// Whether the client closes, or what is due when it is called late is as the row has it.
fn is_late(side: &mut Side, step: &Step) -> bool {
    match step {
        Step::SendsLate(due, now, typ, signs) => {
            sends_since(side, *due, *now) && side.sent(*typ, *signs)
        }
        Step::RestsLate(due, now) => !sends_since(side, *due, *now),
        Step::Closes(now) => closes(side, *now),
        _ => is_heard(side, step),
    }
}

/// Whether the row holds.
fn holds(side: &mut Side, step: &Step) -> bool {
    match step {
        Step::Probes(now) => probes(side, *now),
        Step::Permits(now, to, wanted) => permits(side, *now, *to) == *wanted,
        Step::Data(now, from, wanted) => takes_data(side, *now, peer(from.0, from.1)) == *wanted,
        Step::Media(now, to, number) => {
            sends(side, *now, peer(to.0, to.1), &MEDIA) == Some(*number)
        }
        Step::OverChannel(now, from) => takes_channel_data(side, *now, peer(from.0, from.1)),
        Step::Other(now, to) => sends(side, *now, peer(to.0, to.1), &[0, 1, 2]) == Some(0x16),
        _ => is_late(side, step),
    }
}

/// How many rows hold, up to the first that does not.
fn held(side: &mut Side, steps: &[Step]) -> usize {
    for (number, step) in steps.iter().enumerate() {
        if !holds(side, step) {
            return number;
        }
    }
    steps.len()
}

fn begun(alloc: Global, start: &Start) -> Result<Side, AllocError> {
    match start {
        Start::Known => Side::new(alloc, Credentials::new("user", "pass")),
        Start::Open => Side::new(alloc, None),
        Start::Allocated => allocated(alloc),
    }
}

fn played(alloc: Global, session: &Session) -> usize {
    match begun(alloc, &session.start) {
        Ok(mut side) => held(&mut side, session.steps),
        Err(_) => 0,
    }
}

/// Fails with the number of a row that does not hold.
fn plays(rt: &impl Abort, alloc: Global, session: &Session) {
    let number = played(alloc, session);
    assert!(rt;
        number == session.steps.len(),
        "{}: row {number} does not hold",
        session.name
    );
}

/// A 401 that is answered: the request is signed from then on.
const CHALLENGED: Step = Step::Challenged(10, 401, "nonce", None);

const ASKS: Step = Step::Sends(0, 3, false);

const SIGNS: Step = Step::Sends(10, 3, true);
