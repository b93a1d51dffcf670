//! Why accepted requests get no response.

use super::step::Call::*;
use super::step::Emitted::*;
use super::step::Packet::*;
use super::step::Setting::*;
use super::step::Shown::*;
use super::step::Start::*;
use super::step::Step::*;
use super::step::{At, Message, Whose};
use super::story::{Story, play};
use super::*;
use is::Unserved as Reason;

#[test]
fn requests_without_a_response_have_a_reason(rt: HostRuntime) -> Result<(), Fail> {
    play(rt.alloc(), &ROLES)?;
    play(rt.alloc(), &PLACES)
}

const HERE: At = At(1, 1000);

const THERE: At = At(2, 2000);

/// An address without a candidate.
const ELSEWHERE: At = At(3, 3000);

/// The agent's own candidate.
const OWN: &str = "candidate:1 1 udp 2130706431 10.0.0.1 1000 typ host";

const ROLES: [Story; 4] = [
    Story(
        "an_early_request_waits",
        &[
            Begin(Early),
            Write(Message::Numbered(1), PASSWORD),
            Shows(LeavesUnserved(THERE, HERE, Some(Reason::Early))),
            // wherever it is sent to
            Shows(LeavesUnserved(THERE, ELSEWHERE, Some(Reason::Early))),
            Takes(super::step::Packet::Unserved(0, THERE)),
            Does(Creds(Whose::Remote, "SQAt", "x")),
            Shows(LeavesUnserved(THERE, HERE, None)),
            Takes(Served(10, THERE)),
        ],
    ),
    Story(
        "a_rejected_packet_and_a_response_have_no_such_reason",
        &[
            Begin(Early),
            Write(Message::Numbered(1), "wrong"),
            Shows(LeavesUnserved(THERE, HERE, None)),
            Drops(Next(0)),
            Begin(Paired),
            Does(Check(0)),
            Write(Message::Success(HERE), "farpass"),
            Shows(LeavesUnserved(THERE, HERE, None)),
            Write(Message::Indication, "nearpass"),
            Shows(LeavesUnserved(THERE, HERE, None)),
        ],
    ),
    Story(
        "a_controlling_agent_takes_no_nomination",
        &[
            Begin(Paired),
            Write(Message::Request(false, true), "nearpass"),
            Shows(LeavesUnserved(THERE, HERE, Some(Reason::UseCandidate))),
            Takes(super::step::Packet::Unserved(10, THERE)),
            Write(Message::Request(false, false), "nearpass"),
            Shows(LeavesUnserved(THERE, HERE, None)),
            Takes(Served(20, THERE)),
        ],
    ),
    Story(
        "a_role_conflict_is_resolved_first",
        &[
            // the peer's tie-breaker is 10: the agent becomes controlled
            Begin(Paired),
            Write(Message::Request(true, true), "nearpass"),
            Shows(LeavesUnserved(THERE, HERE, None)),
            Takes(Served(10, THERE)),
            Shows(super::step::Shown::Controlling(false)),
            // the agent keeps its role, and sends 487
            Begin(Paired),
            Set(TieBreaker(11)),
            Write(Message::Request(true, true), "nearpass"),
            Shows(LeavesUnserved(THERE, HERE, None)),
            Takes(Next(10)),
            Emits(Sends),
            // the greater tie-breaker keeps the controlled role too: the agent becomes controlling
            Begin(Paired),
            Does(Control(false)),
            Write(Message::Request(false, true), "nearpass"),
            Shows(LeavesUnserved(THERE, HERE, Some(Reason::UseCandidate))),
            Takes(super::step::Packet::Unserved(10, THERE)),
        ],
    ),
];

const PLACES: [Story; 4] = [
    Story(
        "a_request_has_to_be_to_a_local_candidate",
        &[
            Begin(Paired),
            Write(Message::Request(true, true), "nearpass"),
            Shows(LeavesUnserved(THERE, ELSEWHERE, Some(Reason::OtherDestination))),
            Takes(Between(10, THERE, ELSEWHERE)),
            Emits(NoPacket),
            Shows(LeavesUnserved(ELSEWHERE, HERE, None)),
            Takes(Served(20, ELSEWHERE)),
        ],
    ),
    Story(
        "an_invalidated_sender_gets_no_response",
        &[
            Begin(Paired),
            Does(Invalidate(PEER)),
            Write(Message::Request(false, false), "nearpass"),
            Shows(LeavesUnserved(THERE, HERE, Some(Reason::SenderInvalidated))),
            Takes(super::step::Packet::Unserved(10, THERE)),
            // another sender gets one
            Shows(LeavesUnserved(ELSEWHERE, HERE, None)),
            Takes(Served(20, ELSEWHERE)),
        ],
    ),
    Story(
        "at_the_limit_an_unknown_sender_gets_no_response",
        &[
            Begin(Paired),
            Set(MaxDiscovered(Some(1))),
            Write(Message::Request(false, false), "nearpass"),
            Shows(LeavesUnserved(ELSEWHERE, HERE, None)),
            Takes(Served(10, ELSEWHERE)),
            Shows(LeavesUnserved(At(4, 4000), HERE, Some(Reason::SendersAtLimit))),
            Takes(super::step::Packet::Unserved(20, At(4, 4000))),
            Shows(LeavesUnserved(ELSEWHERE, HERE, None)),
            Shows(LeavesUnserved(THERE, HERE, None)),
            Takes(Served(30, THERE)),
        ],
    ),
    Story(
        "an_invalidated_local_candidate_gets_no_new_pair",
        &[
            Begin(Paired),
            Does(Invalidate(OWN)),
            Write(Message::Request(false, false), "nearpass"),
            Shows(LeavesUnserved(THERE, HERE, Some(Reason::LocalInvalidated))),
            Takes(super::step::Packet::Unserved(10, THERE)),
            Shows(LeavesUnserved(ELSEWHERE, HERE, Some(Reason::LocalInvalidated))),
            Does(Host(HERE)),
            Shows(LeavesUnserved(THERE, HERE, None)),
            Takes(Served(20, THERE)),
        ],
    ),
];

#[test]
fn these_reasons_have_texts(rt: HostRuntime) -> Result<(), Fail> {
    let alloc = rt.alloc();
    let why = Reason::OtherDestination;
    assert_eq!(rt;
        format!(in alloc; "{why}")?.as_str(),
        "request to an address that no local candidate has"
    );
    Ok(())
}
