//! Which packets report their source with the profile `Modern`.

use super::step::Call::*;
use super::step::Count::*;
use super::step::Emitted::*;
use super::step::Packet::*;
use super::step::Start::*;
use super::step::Step::*;
use super::step::{At, Message, Setting};
use super::story::{Story, play};
use super::*;
use is::Profile;

#[test]
fn sources_are_reported_or_not(rt: HostRuntime) -> Result<(), Fail> {
    play(rt.alloc(), &DROPPED)?;
    play(rt.alloc(), &REPORTED)
}

const HERE: At = At(1, 1000);

const THERE: At = At(2, 2000);

const DROPPED: [Story; 5] = [
    Story(
        "a_request_to_no_local_candidate_reports_nothing",
        &[
            Begin(Known),
            Set(Setting::Profile(Profile::Modern)),
            Takes(Request(0, At(1, 1001))),
            Emits(Nothing),
            Counts(Discovered, 0),
            // its sender is reported once a request of it is served
            Takes(Request(1, HERE)),
            Emits(Discovers(Protocol::Udp, THERE)),
            Takes(Request(2, HERE)),
            Emits(Events("")),
            Counts(Discovered, 1),
        ],
    ),
    Story(
        "a_request_to_a_discarded_candidate_reports_nothing",
        &[
            Begin(Known),
            Set(Setting::Profile(Profile::Modern)),
            Does(Invalidate("candidate:1 1 udp 1 10.0.0.1 1000 typ host")),
            Takes(Request(0, HERE)),
            Emits(Nothing),
            Counts(Requests, 1),
        ],
    ),
    Story(
        "a_request_of_a_discarded_sender_reports_nothing",
        &[
            Begin(Known),
            Set(Setting::Profile(Profile::Modern)),
            Does(Peer(PEER)),
            Does(Invalidate(PEER)),
            Takes(Request(0, HERE)),
            Emits(Nothing),
            Counts(Requests, 1),
        ],
    ),
    Story(
        "a_nomination_to_a_controlling_agent_reports_nothing",
        &[
            Begin(Unpaired),
            Set(Setting::Profile(Profile::Modern)),
            Write(Message::Nomination, "nearpass"),
            Takes(Next(0)),
            Emits(Nothing),
            Counts(Requests, 0),
        ],
    ),
    Story(
        "a_sender_past_the_limit_is_not_reported",
        &[
            Begin(Unpaired),
            Set(Setting::Profile(Profile::Modern)),
            Set(Setting::MaxDiscovered(Some(1))),
            Write(Message::NoRole, "nearpass"),
            Takes(Served(0, At(2, 2000))),
            Emits(Events("D")),
            Takes(Unserved(0, At(2, 2001))),
            Emits(Events("")),
            Counts(Discovered, 1),
        ],
    ),
];

const REPORTED: [Story; 4] = [
    Story(
        "an_early_request_reports_its_source_when_it_arrives",
        &[
            Begin(Early),
            Set(Setting::Profile(Profile::Modern)),
            Takes(Request(0, HERE)),
            Emits(Discovers(Protocol::Udp, THERE)),
        ],
    ),
    Story(
        "a_request_that_gets_a_487_reports_its_source",
        &[
            Begin(Unpaired),
            Set(Setting::Profile(Profile::Modern)),
            Set(Setting::TieBreaker(20)),
            Write(Message::Request(true, false), "nearpass"),
            Takes(Next(0)),
            Emits(Events("D")),
            Emits(Sends),
        ],
    ),
    Story(
        "a_success_response_reports_its_source",
        &[
            Begin(Paired),
            Set(Setting::Profile(Profile::Modern)),
            Does(Check(0)),
            Takes(Answer(10, THERE)),
            Emits(Events("RcNCD")),
        ],
    ),
    Story(
        "an_error_response_reports_its_source",
        &[
            Begin(Paired),
            Set(Setting::Profile(Profile::Modern)),
            Does(Check(0)),
            Write(Message::BadRequest, "farpass"),
            Takes(Next(10)),
            Emits(Events("RcD")),
        ],
    ),
];
