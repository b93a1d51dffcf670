//! Credentials: how long username fragments may be, and which ones candidates and responses use.

use super::step::Call::*;
use super::step::Emitted::*;
use super::step::Held::*;
use super::step::Packet::*;
use super::step::Shown::*;
use super::step::Start::*;
use super::step::Step::*;
use super::step::{At, Outcome, Whose};
use super::story::{Story, play};
use super::*;

#[test]
fn credentials_fit_and_are_used(rt: HostRuntime) -> Result<(), Fail> {
    play(rt.alloc(), &LENGTHS)?;
    play(rt.alloc(), &IN_USE)
}

const LENGTHS: [Story; 3] = [
    // both fragments and the colon between them have 508 bytes at most
    Story(
        "ufrags_leave_room_for_a_check",
        &[
            Begin(New("near", "nearpass", 1)),
            Errs(Long(Whose::Local, 508), Outcome::CredentialsTooLong),
            Does(Long(Whose::Local, 507)),
            Errs(Long(Whose::Remote, 1), Outcome::CredentialsTooLong),
            Does(Long(Whose::Local, 254)),
            Errs(Long(Whose::Remote, 254), Outcome::CredentialsTooLong),
            Does(Long(Whose::Remote, 253)),
            Errs(Long(Whose::Local, 255), Outcome::CredentialsTooLong),
            Errs(Long(Whose::Restarted, 508), Outcome::CredentialsTooLong),
            // a restart clears the other fragment
            Does(Long(Whose::Restarted, 507)),
            Shows(LocalNameLength(507)),
            Shows(NoRemoteName),
            Emits(Events("Rc")),
        ],
    ),
    Story(
        "an_agent_is_made_under_507_letters",
        &[Errs(LongAgent(508), Outcome::CredentialsTooLong)],
    ),
    Story(
        "the_longest_check_round_trips",
        &[
            Begin(Paired),
            Does(Long(Whose::Local, 254)),
            Does(Long(Whose::Remote, 253)),
            Does(Check(0)),
            Takes(Answer(50, At(2, 2000))),
            Does(Check(50)),
            // it parses as a check of this length with USE-CANDIDATE
            Emits(Checked(588, true)),
            Emits(Signed("farpass")),
        ],
    ),
];

// ---- which are in use

const IN_USE: [Story; 2] = [
    Story(
        "candidates_keep_their_fragment_until_a_restart",
        &[
            Begin(Paired),
            Holds(FirstNamed("near")),
            Does(Creds(Whose::Local, "new1", "pass")),
            Shows(LocalName("new1")),
            Holds(FirstNamed("near")),
            Does(Creds(Whose::Restarted, "new2", "pass")),
            Holds(FirstNamed("new2")),
        ],
    ),
    Story(
        "requests_are_taken_under_the_present_credentials",
        &[
            Begin(Unpaired),
            Does(Creds(Whose::Remote, "SQAt", "x")),
            Drops(Request(0, At(1, 1000))),
            Does(Creds(Whose::Local, "p9KA", PASSWORD)),
            Takes(Request(0, At(1, 1000))),
            Emits(Sends),
            Emits(Replied(PASSWORD)),
        ],
    ),
];
