//! Why packets are not accepted.

use super::step::Call::*;
use super::step::Held::*;
use super::step::Packet::*;
use super::step::Shown::*;
use super::step::Start::*;
use super::step::Step::*;
use super::step::{At, Message, Whose};
use super::story::{Story, play};
use super::*;
use is::Rejection;

#[test]
fn rejected_packets_have_a_reason(rt: HostRuntime) -> Result<(), Fail> {
    play(rt.alloc(), &REQUESTS)?;
    play(rt.alloc(), &RESPONSES)
}

const HERE: At = At(1, 1000);

const THERE: At = At(2, 2000);

/// An address without a candidate.
const ELSEWHERE: At = At(3, 3000);

const REQUESTS: [Story; 5] = [
    Story(
        "a_wrong_password_is_named_after_the_first_packet",
        &[
            Begin(Paired),
            Does(Timeout(0)),
            Write(Message::Request(false, false), "wrong"),
            Shows(Rejects(THERE, HERE, Some(Rejection::OtherLocalPassword))),
            // wherever it comes from
            Shows(Rejects(ELSEWHERE, ELSEWHERE, Some(Rejection::OtherLocalPassword))),
            // the peer's own password is a wrong one too
            Write(Message::Request(false, false), "farpass"),
            Shows(Rejects(THERE, HERE, Some(Rejection::OtherLocalPassword))),
            Drops(Next(10)),
            Write(Message::Request(false, false), "nearpass"),
            Shows(Rejects(THERE, HERE, None)),
            Takes(Next(20)),
        ],
    ),
    Story(
        "the_fragments_are_named_before_the_password",
        &[
            Begin(Paired),
            Write(Message::Numbered(1), "wrong"),
            Shows(Rejects(THERE, HERE, Some(Rejection::OtherLocalUfrag))),
            Drops(Next(0)),
            Does(Creds(Whose::Remote, "next", "farpass")),
            Write(Message::Request(false, false), "wrong"),
            Shows(Rejects(THERE, HERE, Some(Rejection::OtherRemoteUfrag))),
            Drops(Next(0)),
        ],
    ),
    Story(
        "an_early_request_names_any_peer",
        &[
            Begin(Early),
            Write(Message::Numbered(1), PASSWORD),
            Shows(Rejects(THERE, HERE, None)),
            Write(Message::Numbered(1), "x"),
            Shows(Rejects(THERE, HERE, Some(Rejection::OtherLocalPassword))),
            Write(Message::Request(false, false), PASSWORD),
            Shows(Rejects(THERE, HERE, Some(Rejection::OtherLocalUfrag))),
        ],
    ),
    Story(
        "a_restart_leaves_requests_to_the_old_fragment",
        &[
            Begin(Paired),
            Write(Message::Request(false, false), "nearpass"),
            Shows(Rejects(THERE, HERE, None)),
            Does(Creds(Whose::Restarted, "new1", "nearpass")),
            Shows(Rejects(THERE, HERE, Some(Rejection::OtherLocalUfrag))),
        ],
    ),
    Story(
        "other_messages_are_none_of_an_agent",
        &[
            Begin(Paired),
            Write(Message::Allocate, "nearpass"),
            Shows(Rejects(THERE, HERE, Some(Rejection::OtherMethod))),
            Drops(Next(0)),
            Write(Message::Indication, "nearpass"),
            Shows(Rejects(THERE, HERE, Some(Rejection::OtherClass))),
            Drops(Next(0)),
        ],
    ),
];

const RESPONSES: [Story; 3] = [
    Story(
        "a_response_has_to_be_on_its_path",
        &[
            Begin(Paired),
            Does(Check(0)),
            // signed or not, the path is named first
            Write(Message::Success(HERE), "wrong"),
            Shows(Rejects(ELSEWHERE, HERE, Some(Rejection::OtherPath))),
            Shows(Rejects(THERE, ELSEWHERE, Some(Rejection::OtherPath))),
            Shows(Rejects(THERE, HERE, Some(Rejection::OtherRemotePassword))),
            Drops(Next(50)),
            Write(Message::BadRequest, "nearpass"),
            Shows(Rejects(THERE, HERE, Some(Rejection::OtherRemotePassword))),
            Write(Message::BadRequest, "farpass"),
            Shows(Rejects(THERE, HERE, None)),
            Write(Message::Success(HERE), "farpass"),
            Shows(Rejects(THERE, HERE, None)),
            Takes(Next(60)),
            // while the pair stores the check, a repeated response counts
            Shows(Rejects(THERE, HERE, None)),
        ],
    ),
    Story(
        "a_response_to_no_check_is_named_before_its_path",
        &[
            Begin(Paired),
            Does(Check(0)),
            Write(Message::Stray, "farpass"),
            Shows(Rejects(THERE, HERE, Some(Rejection::NoPendingCheck))),
            Shows(Rejects(ELSEWHERE, HERE, Some(Rejection::NoPendingCheck))),
            Drops(Next(50)),
        ],
    ),
    Story(
        "a_response_of_an_earlier_session_is_to_no_check",
        &[
            Begin(Paired),
            Does(Check(0)),
            Takes(Answer(50, THERE)),
            Does(Creds(Whose::Restarted, "new1", "newpass")),
            Shows(Rejects(THERE, HERE, Some(Rejection::NoPendingCheck))),
            Drops(Next(60)),
            Holds(Remotes(&[])),
        ],
    ),
];

#[test]
fn reasons_have_texts(rt: HostRuntime) -> Result<(), Fail> {
    let alloc = rt.alloc();
    let why = Rejection::OtherLocalPassword;
    assert_eq!(rt;
        format!(in alloc; "{why}")?.as_str(),
        "request signed with another password than the agent's"
    );
    Ok(())
}
