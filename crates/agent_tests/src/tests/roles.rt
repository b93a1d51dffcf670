//! Role conflicts: two agents at 10.0.0.1:1000 and 10.0.0.2:2000. The test delivers the packets between them.

use super::driver::Player;
use super::roles::Turn::*;
use super::step::Call::*;
use super::step::Emitted::*;
use super::step::Held::*;
use super::step::Packet::*;
use super::step::Shown::*;
use super::step::Start::*;
use super::step::Step::*;
use super::step::{At, Count, Message, Outcome, Setting, Start, Step, Whose};
use super::story::{Missed, report};
use super::*;
use is::Profile;
use is::pair::CheckState;

/// A step of two agents.
#[derive(Clone, Copy)]
enum Turn {
    /// New agents with these tie-breakers claim one role, the controlling one or the other. Each sends a check at 0.
    Claim(u64, u64, bool),
    /// A new full agent and a new lite one with these tie-breakers are both controlled. The first one sends a check at 0.
    Serve(u64, u64),
    /// The first agent does this.
    One(Step),
    /// The second agent does this.
    Two(Step),
    /// The last packet of the second agent arrives at the first, which accepts it.
    ToOne(u64),
    /// The last packet of the first agent arrives at the second, which accepts it.
    ToTwo(u64),
    /// Which of them is controlling.
    Roles(bool, bool),
}

/// A story of two agents.
#[derive(Clone, Copy)]
struct Conflict(&'static str, &'static [Turn]);

#[test]
fn roles_are_settled(rt: HostRuntime) -> Result<(), Fail> {
    let (missed, difference) = played(rt.alloc())?;
    report(rt.alloc(), missed, difference)
}

/// Plays the stories with two agents. Returns the first step that does not hold, and a comparison that failed.
fn played(alloc: Global) -> Result<(Option<Missed>, Option<String>), Fail> {
    let mut one = Box::new(alloc, Player::new(alloc, "AAAA", "passA", 10)?)?;
    let Some(mut two) = second(alloc) else {
        return Err(IceError::OutOfMemory.into());
    };
    let missed = first_missed(&mut one, &mut two);
    Ok((missed, first_difference(&mut one, &mut two)))
}

/// The first comparison of either that failed.
fn first_difference(one: &mut Player, two: &mut Player) -> Option<String> {
    match one.difference.take() {
        Some(text) => Some(text),
        None => two.difference.take(),
    }
}

/// A second agent.
fn second(alloc: Global) -> Option<Box<Player>> {
    Box::new(alloc, Player::new(alloc, "BBBB", "passB", 5).ok()?).ok()
}

/// The first step that does not hold.
fn first_missed(one: &mut Player, two: &mut Player) -> Option<Missed> {
    for story in &CONFLICTS {
        let mut step: usize = 0;
        for turn in story.1 {
            step = step.saturating_add(1);
            if !makes(one, two, turn) {
                return Some(Missed {
                    story: story.0,
                    step,
                });
            }
        }
    }
    None
}

/// Whether the step holds.
fn makes(one: &mut Player, two: &mut Player, turn: &Turn) -> bool {
    match *turn {
        Claim(first, second, controlling) => {
            claims(one, New("AAAA", "passA", first), controlling, &FIRST_CLAIM)
                && claims(
                    two,
                    New("BBBB", "passB", second),
                    controlling,
                    &SECOND_CLAIM,
                )
        }
        Serve(first, second) => {
            claims(one, New("AAAA", "passA", first), false, &FIRST_CLAIM)
                && claims(two, New("BBBB", "passB", second), false, &LITE_CLAIM)
        }
        One(step) => one.makes(&step),
        Two(step) => two.makes(&step),
        ToOne(ms) => one.gets(ms, two),
        ToTwo(ms) => two.gets(ms, one),
        Roles(first, second) => {
            one.makes(&Shows(Controlling(first))) && two.makes(&Shows(Controlling(second)))
        }
    }
}

/// A new agent takes the role, and then these steps.
fn claims(player: &mut Player, start: Start, controlling: bool, steps: &[Step]) -> bool {
    if !player.makes(&Begin(start)) || !player.makes(&Set(Setting::Controlling(controlling))) {
        return false;
    }
    for step in steps {
        if !player.makes(step) {
            return false;
        }
    }
    true
}

/// The candidates of both, with low priority.
const FIRST: &str = "candidate:1 1 udp 100 10.0.0.1 1000 typ host";

const SECOND: &str = "candidate:1 1 udp 100 10.0.0.2 2000 typ host";

const FIRST_CLAIM: [Step; 5] = [
    Does(Creds(Whose::Remote, "BBBB", "passB")),
    Does(Host(At(1, 1000))),
    Does(Peer(SECOND)),
    Does(Check(0)),
    Emits(Events("Rc")),
];

const SECOND_CLAIM: [Step; 5] = [
    Does(Creds(Whose::Remote, "AAAA", "passA")),
    Does(Host(At(2, 2000))),
    Does(Peer(FIRST)),
    Does(Check(0)),
    Emits(Events("Rc")),
];

const LITE_CLAIM: [Step; 5] = [
    Set(Setting::Lite),
    Does(Creds(Whose::Remote, "AAAA", "passA")),
    Does(Host(At(2, 2000))),
    Does(Peer(FIRST)),
    Does(Timeout(0)),
];

const CONFLICTS: [Conflict; 10] = [
    Conflict(
        "the_lesser_tie_breaker_switches",
        &[
            Claim(10, 5, true),
            ToOne(10),
            ToTwo(10),
            One(Emits(Sends)),
            Two(Emits(Sends)),
            One(Emits(Sent(Class::Failure, 76))),
            Two(Emits(Sent(Class::Success, 64))),
            Roles(true, false),
            // the check was sent in the earlier role: the 487 has no effect now, even when repeated
            ToTwo(20),
            ToTwo(30),
            Roles(true, false),
            Claim(10, 5, false),
            ToOne(10),
            ToTwo(10),
            One(Emits(Sends)),
            Two(Emits(Sends)),
            One(Emits(Sent(Class::Failure, 76))),
            Two(Emits(Sent(Class::Success, 64))),
            Roles(false, true),
            // the check was sent in the earlier role: the 487 has no effect now, even when repeated
            ToTwo(20),
            ToTwo(30),
            Roles(false, true),
        ],
    ),
    Conflict(
        "a_487_switches_the_role_of_its_check_once",
        &[
            Claim(10, 5, true),
            ToOne(10),
            One(Emits(Sends)),
            One(Emits(Sent(Class::Failure, 76))),
            One(Emits(SentFrom(At(1, 1000), At(2, 2000)))),
            One(Emits(Signed("passA"))),
            Roles(true, true),
            ToTwo(20),
            Roles(true, false),
            // the repeated 487 has no effect
            ToTwo(30),
            Roles(true, false),
            Claim(10, 5, false),
            ToOne(10),
            One(Emits(Sends)),
            One(Emits(Sent(Class::Failure, 76))),
            One(Emits(SentFrom(At(1, 1000), At(2, 2000)))),
            One(Emits(Signed("passA"))),
            Roles(false, false),
            ToTwo(20),
            Roles(false, true),
            // the repeated 487 has no effect
            ToTwo(30),
            Roles(false, true),
        ],
    ),
    Conflict(
        "equal_tie_breakers_both_switch",
        &[
            Claim(7, 7, true),
            ToOne(10),
            ToTwo(10),
            One(Emits(Sends)),
            Two(Emits(Sends)),
            Roles(true, true),
            One(Emits(Sent(Class::Failure, 76))),
            Two(Emits(Sent(Class::Failure, 76))),
            ToOne(20),
            ToTwo(20),
            Roles(false, false),
        ],
    ),
    Conflict(
        "a_switch_computes_priorities_again",
        &[
            Claim(10, 5, true),
            ToOne(10),
            One(Emits(Sends)),
            One(Emits(Sent(Class::Failure, 76))),
            One(Emits(SentFrom(At(1, 1000), At(2, 2000)))),
            One(Emits(Signed("passA"))),
            // the second's check is unanswered, and its pair's priority is that of the current role
            Two(Holds(Prio(FIRST, 433758141951))),
            Two(Holds(PairState(FIRST, CheckState::InProgress))),
            ToTwo(20),
            Two(Holds(Prio(FIRST, 433758141950))),
            Two(Holds(PairState(FIRST, CheckState::InProgress))),
            // no success response is counted, and the next check is due as before
            Two(Counts(Count::Responses, 0)),
            Two(Emits(Events("D"))),
            Two(Shows(NextAt(250))),
        ],
    ),
    Conflict(
        "a_487_off_its_path_does_nothing",
        &[
            Claim(10, 5, true),
            Two(Write(Message::Conflict, "passA")),
            Two(Shows(Accepts(true))),
            Two(Shows(AcceptsFrom(At(3, 1000), At(2, 2000), false))),
            Two(Drops(Between(20, At(3, 1000), At(2, 2000)))),
            Two(Emits(Nothing)),
            Two(Shows(Controlling(true))),
            Two(Takes(Between(20, At(1, 1000), At(2, 2000)))),
            Two(Shows(Controlling(false))),
        ],
    ),
    Conflict(
        "a_lite_agent_keeps_its_role_whatever_the_tie_breakers_are",
        &[
            Serve(10, 5),
            Two(Set(Setting::Profile(Profile::Modern))),
            ToTwo(10),
            Two(Emits(Sends)),
            Two(Emits(Sent(Class::Failure, 76))),
            Two(Emits(Signed("passB"))),
            Roles(false, false),
            ToOne(20),
            Roles(true, false),
            One(Does(Check(250))),
            ToTwo(260),
            Two(Emits(Sends)),
            Two(Emits(Sent(Class::Success, 64))),
            Roles(true, false),
            // an equal tie-breaker
            Serve(5, 5),
            Two(Set(Setting::Profile(Profile::Modern))),
            ToTwo(10),
            Two(Emits(Sends)),
            Two(Emits(Sent(Class::Failure, 76))),
            Roles(false, false),
        ],
    ),
    Conflict(
        "with_the_original_it_may_switch",
        &[
            Serve(10, 5),
            ToTwo(10),
            Two(Emits(Sends)),
            Two(Emits(Sent(Class::Success, 64))),
            Roles(false, true),
        ],
    ),
    Conflict(
        "a_full_modern_agent_may_switch",
        &[
            Claim(10, 5, false),
            Two(Set(Setting::Profile(Profile::Modern))),
            ToTwo(10),
            Two(Emits(Sends)),
            Two(Emits(Sent(Class::Success, 64))),
            Roles(false, true),
        ],
    ),
    Conflict(
        "a_lite_agent_that_keeps_its_role_is_not_made_controlling",
        &[
            Serve(10, 5),
            Two(Shows(KeepsRole(false))),
            Two(Does(Control(true))),
            Roles(false, true),
            Two(Does(Control(false))),
            Two(Set(Setting::Profile(Profile::Modern))),
            Two(Shows(KeepsRole(true))),
            Two(Does(Control(true))),
            Roles(false, false),
            Two(Does(Control(false))),
            Roles(false, false),
            One(Set(Setting::Profile(Profile::Modern))),
            One(Does(Control(true))),
            Roles(true, false),
        ],
    ),
    // it sent the check while it was a full agent
    Conflict(
        "a_487_leaves_a_lite_agent_its_role",
        &[
            Claim(10, 5, false),
            Two(Set(Setting::Lite)),
            Two(Set(Setting::Profile(Profile::Modern))),
            ToOne(10),
            One(Emits(Sends)),
            One(Emits(Sent(Class::Failure, 76))),
            ToTwo(20),
            Roles(false, false),
            Two(Set(Setting::Profile(Profile::Original))),
            ToTwo(30),
            Roles(false, true),
        ],
    ),
];
