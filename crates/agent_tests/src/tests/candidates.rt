//! Local candidates and their preferences; which candidates are stored, listed, invalidated and enabled again.

use super::driver::Player;
use super::step::Call::*;
use super::step::Held::*;
use super::step::Start::*;
use super::step::Step::*;
use super::step::{At, Outcome, Setting, Whose};
use super::story::{Story, play};
use super::*;
use is::{LocalPreference, Profile};

#[test]
fn candidates_stay_or_not(rt: HostRuntime) -> Result<(), Fail> {
    play(rt.alloc(), &LOCALS)?;
    play(rt.alloc(), &REMOTES)
}

const OWN: &str = "candidate:1 1 udp 1 10.0.0.1 1000 typ host";

const LOCALS: [Story; 7] = [
    Story(
        "the_greatest_priority_is_rejected",
        &[
            Begin(New("aaaa", "p", 1)),
            Errs(OwnGreatest, Outcome::PriorityTooHigh),
            Holds(Locals(&[])),
        ],
    ),
    Story(
        "equal_candidates_supersede_unless_they_are_less",
        &[
            Begin(New("aaaa", "p", 1)),
            Does(Own("candidate:1 1 udp 100 10.0.0.1 1000 typ host")),
            Fails(Own("candidate:1 1 udp 99 10.0.0.1 1000 typ host")),
            Does(Own("candidate:1 1 udp 100 10.0.0.1 1000 typ host")),
            Does(Own("candidate:1 1 udp 101 10.0.0.1 1000 typ host")),
            Does(Own("candidate:1 1 udp 99 10.0.0.1 1001 typ host")),
            Does(Own("candidate:1 1 tcp 99 10.0.0.1 1000 typ host")),
            // the fourth line enabled the first candidate again, in addition to the third
            Holds(Locals(&[At(1, 1000), At(1, 1000), At(1, 1001), At(1, 1000)])),
        ],
    ),
    Story(
        "a_candidate_that_comes_again_is_as_it_was",
        &[
            Begin(Paired),
            Does(Invalidate(OWN)),
            Fails(Invalidate(OWN)),
            Holds(Locals(&[])),
            Holds(HasPair(PEER, false)),
            Does(Creds(Whose::Local, "new1", "pass")),
            Does(Host(At(1, 1000))),
            // a new candidate would get the second preference of its kind
            Holds(Locals(&[At(1, 1000)])),
            Holds(FirstIs("near", 2130706175)),
            Holds(HasPair(PEER, true)),
        ],
    ),
    Story(
        "discarded_candidates_count_for_preference",
        &[
            Begin(Unpaired),
            Does(Invalidate(OWN)),
            Does(HostOf(At(1, 1001), 2130705663)),
        ],
    ),
    Story(
        "the_first_equal_candidate_decides_though_discarded",
        &[
            Begin(New("aaaa", "p", 1)),
            Does(Own("candidate:1 1 udp 200 10.0.0.1 1000 typ host")),
            Does(Invalidate(OWN)),
            // of another kind, and with a lower priority
            Fails(Own("candidate:1 1 udp 199 10.0.0.1 1000 typ srflx")),
            Does(Own("candidate:1 1 udp 200 10.0.0.1 1000 typ srflx")),
            Holds(Locals(&[At(1, 1000)])),
        ],
    ),
    Story(
        "with_modern_a_listed_candidate_can_be_invalidated",
        &[
            Begin(New("aaaa", "p", 1)),
            Does(Own("candidate:1 1 udp 100 10.0.0.1 1000 typ host")),
            Does(Own("candidate:1 1 udp 101 10.0.0.1 1000 typ host")),
            // the first equal one was superseded
            Fails(Invalidate(OWN)),
            Holds(Locals(&[At(1, 1000)])),
            Set(Setting::Profile(Profile::Modern)),
            Does(Invalidate(OWN)),
            Holds(Locals(&[])),
            Fails(Invalidate(OWN)),
        ],
    ),
    Story(
        "a_lite_agent_has_hosts_only",
        &[
            Begin(New("aaaa", "p", 1)),
            Set(Setting::Lite),
            Fails(Own("candidate:1 1 udp 100 10.0.0.1 1000 typ srflx")),
            Does(Host(At(1, 1001))),
            Holds(Locals(&[At(1, 1001)])),
        ],
    ),
];

// ---- remote candidates

const REMOTES: [Story; 3] = [
    // the agent knows only the peer's host candidate, with the username fragment `farr`
    Story(
        "some_remote_candidates_are_ignored",
        &[
            Begin(Paired),
            Does(Peer("candidate:1 2 udp 2130706174 10.0.0.2 2001 typ host")),
            Holds(Remotes(&[At(2, 2000)])),
            Does(Peer("candidate:1 1 udp 2130706175 10.0.0.2 2001 typ host ufrag near")),
            Holds(Remotes(&[At(2, 2000)])),
            Does(Peer(PEER)),
            Holds(Remotes(&[At(2, 2000)])),
            Does(Peer("candidate:1 1 udp 2130706175 10.0.0.2 2001 typ host ufrag farr")),
            Holds(RemotesUnnamed),
            Holds(Remotes(&[At(2, 2000), At(2, 2001)])),
        ],
    ),
    Story(
        "a_candidate_without_a_pair_is_stored_again",
        &[
            Begin(Unpaired),
            Set(Setting::MaxPairs(0)),
            Does(Peer(PEER)),
            Does(Peer(PEER)),
            Holds(Remotes(&[At(2, 2000), At(2, 2000)])),
        ],
    ),
    Story(
        "lists_skip_what_was_taken_back",
        &[
            Begin(Paired),
            Does(Peer("candidate:1 1 udp 7 10.0.0.3 3000 typ host")),
            Does(Host(At(1, 1001))),
            Does(Invalidate(PEER)),
            Holds(Remotes(&[At(3, 3000)])),
            Does(Invalidate(OWN)),
            Holds(Locals(&[At(1, 1001)])),
            // exactly one of each kind is left
            Fails(Invalidate("candidate:1 1 udp 7 10.0.0.3 3000 typ srflx")),
        ],
    ),
];

// ---- preferences

/// 65535, less one for each earlier candidate of the kind.
#[derive(Drop)]
struct Falling;

impl LocalPreference for Falling {
    ghost use Rattle.std.specs.Prelude.{◌≡◌, ◌-◌, min};

    ghost answers = { λ _ _ before r. r ≡ 65535 - min before 65535 };

    fn calculate(&self, _c: &Candidate, same_kind: usize) -> u32 {
        65535 - same_kind.min(65535) as u32
    }
}

/// Sets falling preferences for the candidates that follow.
fn prefers_falling(player: &mut Player) -> bool {
    match Box::new(player.alloc, Falling) {
        Ok(falling) => {
            player.agent.set_local_preference(falling);
            true
        }
        Err(_) => false,
    }
}

// A test of its own: the player may hold such an object, so a step can't make it.
#[test]
fn a_boxed_object_prefers(rt: HostRuntime) -> Result<(), Fail> {
    let alloc = rt.alloc();
    let mut player = Box::new(alloc, Player::new(alloc, "aaaa", "p", 1)?)?;
    assert!(rt; prefers_falling(&mut player));
    assert!(rt; player.makes(&Does(HostOf(At(1, 1000), 2130706431))));
    assert!(rt; player.makes(&Does(HostOf(At(1, 1001), 2130706175))));
    // the priority of the third one would be less than that of the second
    assert!(rt; player.makes(&Fails(Host(At(1, 1001)))));
    Ok(())
}
