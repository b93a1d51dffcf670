//! Early requests: requests received before the remote credentials. 100 are stored, and each `handle_timeout` call
//! serves one.

use super::step::Call::*;
use super::step::Emitted::*;
use super::step::Held::*;
use super::step::Packet::*;
use super::step::Shown::*;
use super::step::Start::*;
use super::step::Step::*;
use super::step::{At, Count, Setting, Whose};
use super::story::{Story, play};
use super::*;
use is::Profile;

#[test]
fn requests_wait(rt: HostRuntime) -> Result<(), Fail> {
    play(rt.alloc(), &STORIES)
}

const STORIES: [Story; 9] = [
    Story(
        "the_last_100_requests_wait",
        &[
            Begin(Early),
            Takes(Many(101)),
            Emits(Events("D")),
            Emits(NoPacket),
            Does(Creds(Whose::Remote, "SQAt", "x")),
            Emits(RepliesInOrder(100)),
            Counts(Count::Requests, 100),
            // a call that served a request does not count as the last `handle_timeout` call
            Shows(NoNext),
            Does(Check(0)),
            Emits(Sent(Class::Request, 88)),
        ],
    ),
    Story(
        "a_request_waits_as_long_as_a_pair_is_checked",
        &[
            Begin(Early),
            Takes(Request(0, At(1, 1000))),
            Emits(Events("D")),
            Does(Creds(Whose::Remote, "SQAt", "x")),
            Does(Check(21499)),
            Emits(Replied(PASSWORD)),
        ],
    ),
    // a request of the session before; the original serves it in the new one
    Story(
        "a_restart_drops_early_requests",
        &[
            Begin(Early),
            Set(Setting::Profile(Profile::Modern)),
            Takes(Request(0, At(1, 1000))),
            Does(Creds(Whose::Restarted, "new1", "newpass")),
            Does(Creds(Whose::Remote, "SQAt", "x")),
            Does(Timeout(0)),
            Emits(NoPacket),
            Begin(Early),
            Set(Setting::Profile(Profile::Original)),
            Takes(Request(0, At(1, 1000))),
            Does(Creds(Whose::Restarted, "new1", "newpass")),
            Does(Creds(Whose::Remote, "SQAt", "x")),
            Does(Check(0)),
            Emits(Replied("newpass")),
        ],
    ),
    Story(
        "an_old_request_is_dropped",
        &[
            Begin(Early),
            Takes(Request(0, At(1, 1000))),
            Emits(Events("D")),
            Does(Creds(Whose::Remote, "SQAt", "x")),
            Does(Timeout(21500)),
            Emits(NoPacket),
            Shows(NextAt(24500)),
        ],
    ),
    Story(
        "without_delays_no_request_waits",
        &[
            Begin(Early),
            Takes(Request(0, At(1, 1000))),
            Emits(Events("D")),
            Does(Creds(Whose::Remote, "SQAt", "x")),
            Set(Setting::MaxRto(0)),
            Does(Timeout(0)),
            Emits(NoPacket),
        ],
    ),
    Story(
        "a_timeout_that_fails_changes_nothing",
        &[
            Begin(Early),
            Takes(Request(0, At(1, 1000))),
            Emits(Events("D")),
            Does(Creds(Whose::Remote, "SQAt", "x")),
            // the request needs a pair, and no number is left
            Set(Setting::FirstNumber(18446744073709551615)),
            Fails(Timeout(0)),
            Emits(Nothing),
            Shows(State(IceConnectionState::New)),
            // it is still stored, until it is too old
            Fails(Timeout(21499)),
            Does(Timeout(21500)),
            Emits(Events("Rc")),
        ],
    ),
    Story(
        "a_waiting_request_needs_to_be_served_soon",
        &[
            Begin(Early),
            Does(Timeout(10)),
            Shows(NextAt(3010)),
            Takes(Request(20, At(1, 1000))),
            Shows(NextAt(60)),
        ],
    ),
    Story(
        "a_call_that_serves_a_request_is_followed_by_another",
        &[
            Begin(Early),
            Set(Setting::Profile(Profile::Modern)),
            Takes(Many(3)),
            Does(Creds(Whose::Remote, "SQAt", "x")),
            Shows(NoNext),
            Does(Check(10)),
            Emits(Sent(Class::Success, 64)),
            Shows(NextAt(20)),
            Does(Check(20)),
            Emits(Sent(Class::Success, 64)),
            // the others are served at once, and the first check follows
            Shows(NextAt(20)),
            Does(Check(20)),
            Emits(Sent(Class::Success, 64)),
            Shows(NextAt(20)),
            Does(Check(20)),
            Emits(Sent(Class::Request, 88)),
            // after an earlier call
            Begin(Early),
            Set(Setting::Profile(Profile::Modern)),
            Does(Timeout(0)),
            Takes(Many(2)),
            Does(Creds(Whose::Remote, "SQAt", "x")),
            Shows(NextAt(10)),
            Does(Check(70)),
            Emits(Sent(Class::Success, 64)),
            Shows(NextAt(10)),
            Does(Check(70)),
            Emits(Sent(Class::Success, 64)),
            Shows(NextAt(10)),
            Does(Check(70)),
            Emits(Sent(Class::Request, 88)),
            // with the original
            Begin(Early),
            Set(Setting::Profile(Profile::Original)),
            Takes(Many(1)),
            Does(Creds(Whose::Remote, "SQAt", "x")),
            Does(Check(10)),
            Emits(Sent(Class::Success, 64)),
            Shows(NoNext),
        ],
    ),
    Story(
        "a_waiting_request_outlives_a_restart",
        &[
            Begin(Early),
            Takes(Request(0, At(1, 1000))),
            Does(Creds(Whose::Restarted, "new1", "newpass")),
            // the request was signed with the old password; its response is signed with the new one
            Does(Creds(Whose::Remote, "SQAt", "x")),
            Does(Check(10)),
            Emits(Replied("newpass")),
        ],
    ),
];
