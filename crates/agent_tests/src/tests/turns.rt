//! Kinds of pairs take turns, and a host candidate with a public address counts as a server-reflexive one.

use super::step::Call::*;
use super::step::Setting;
use super::step::Start::*;
use super::step::Step::*;
use super::story::{Story, play};
use super::*;
use is::Profile;

#[test]
fn a_public_host_counts_as_reflexive(rt: HostRuntime) -> Result<(), Fail> {
    play(rt.alloc(), &LOCAL)?;
    play(rt.alloc(), &REMOTE)
}

/// The host candidate that the agent begins with. The pairs of those below have lower priorities than its pairs.
const HOST: &str = "10.0.0.1:1000";

/// A host candidate with a public address.
const PUBLIC: &str = "candidate:1 1 udp 100 203.0.113.1 1000 typ host";

const OUTER: &str = "203.0.113.1:1000";

/// One with a private address.
const PRIVATE: &str = "candidate:1 1 udp 100 172.16.0.1 1000 typ host";

const INNER: &str = "172.16.0.1:1000";

/// One in the subnet of the peer's candidates.
const NEAR: &str = "candidate:1 1 udp 100 10.0.0.202 1000 typ host";

const NEIGHBOR: &str = "10.0.0.202:1000";

/// A relayed candidate.
const RELAYED: &str = "candidate:2 1 udp 50 10.0.0.201 1000 typ relay";

const RELAY: &str = "10.0.0.201:1000";

/// The peer's candidates, the one with the greatest priority first.
const FIRST: &str = "10.0.0.2:2000";

const SECOND: &str = "10.0.0.3:2000";

const THIRD: &str = "10.0.0.4:2000";

const FOURTH: &str = "10.0.0.5:2000";

// ---- of the agent: packets from its base reach the outside

const LOCAL: [Story; 6] = [
    // The kinds are 7, of the public base, and 8, of the other one. The checks at 50, 150 and 250 ms go ahead: kind 7, then 8, then 7.
    Story(
        "pairs_of_a_public_base_come_before_the_others",
        &[
            Begin(Unpaired),
            Set(Setting::Profile(Profile::Modern)),
            Does(Own(PUBLIC)),
            Does(Peers(3)),
            Does(CheckOn(0, HOST, FIRST)),
            Does(CheckOn(50, OUTER, FIRST)),
            Does(CheckOn(100, HOST, SECOND)),
            Does(CheckOn(150, HOST, THIRD)),
            Does(CheckOn(200, OUTER, SECOND)),
            Does(CheckOn(250, OUTER, THIRD)),
        ],
    ),
    Story(
        "without_turns_they_come_last",
        &[
            Begin(Unpaired),
            Set(Setting::Profile(Profile::Original)),
            Does(Own(PUBLIC)),
            Does(Peers(3)),
            Does(CheckOn(0, HOST, FIRST)),
            Does(CheckOn(50, HOST, SECOND)),
            Does(CheckOn(100, HOST, THIRD)),
            Does(CheckOn(150, OUTER, FIRST)),
        ],
    ),
    // nothing is known of the bases, and all pairs are within one subnet: of kind 8
    Story(
        "of_private_bases_none_comes_first",
        &[
            Begin(Unpaired),
            Set(Setting::Profile(Profile::Modern)),
            Does(Own(NEAR)),
            Does(Peers(3)),
            Does(CheckOn(0, HOST, FIRST)),
            Does(CheckOn(50, HOST, SECOND)),
            Does(CheckOn(100, HOST, THIRD)),
            Does(CheckOn(150, NEIGHBOR, FIRST)),
        ],
    ),
    // those between two subnets are of kind 7, and their turns are those of the pairs of a public base
    Story(
        "pairs_within_a_subnet_are_of_one_kind",
        &[
            Begin(Unpaired),
            Set(Setting::Profile(Profile::Modern)),
            Does(Own(PRIVATE)),
            Does(Peers(3)),
            Does(CheckOn(0, HOST, FIRST)),
            Does(CheckOn(50, INNER, FIRST)),
            Does(CheckOn(100, HOST, SECOND)),
            Does(CheckOn(150, HOST, THIRD)),
            Does(CheckOn(200, INNER, SECOND)),
            Does(CheckOn(250, INNER, THIRD)),
        ],
    ),
    // the pairs of the relayed candidate are of kind 7, and those of the private base of kind 8
    Story(
        "a_relayed_candidate_comes_with_the_public_base",
        &[
            Begin(Unpaired),
            Set(Setting::Profile(Profile::Modern)),
            Does(Own(PUBLIC)),
            Does(Own(RELAYED)),
            Does(Peers(2)),
            Does(CheckOn(0, HOST, FIRST)),
            Does(CheckOn(10, OUTER, FIRST)),
            Does(CheckOn(20, HOST, SECOND)),
            // no pair of kind 8 is due
            Does(CheckOn(30, OUTER, SECOND)),
            Does(CheckOn(40, RELAY, FIRST)),
            // kind 8, though a pair of kind 7 is due before it
            Does(CheckOn(110, HOST, FIRST)),
            Does(CheckOn(120, RELAY, SECOND)),
        ],
    ),
    // without it all pairs are of kind 8
    Story(
        "a_discarded_public_host_does_not_count",
        &[
            Begin(Unpaired),
            Set(Setting::Profile(Profile::Modern)),
            Does(Own(PUBLIC)),
            Does(Own(NEAR)),
            Does(Invalidate(PUBLIC)),
            Does(Peers(3)),
            Does(CheckOn(0, HOST, FIRST)),
            Does(CheckOn(50, HOST, SECOND)),
            Does(CheckOn(100, HOST, THIRD)),
            Does(CheckOn(150, NEIGHBOR, FIRST)),
        ],
    ),
];

// ---- of the peer: it has the rank of a server-reflexive candidate

/// A host candidate with a public address.
const PUBLIC_PEER: &str = "candidate:1 1 udp 101 198.51.100.1 2000 typ host";

const THERE: &str = "198.51.100.1:2000";

/// A server-reflexive candidate, of the next lower priority.
const REFLEXIVE_PEER: &str = "candidate:2 1 udp 100 198.51.100.2 2000 typ srflx";

const MAPPED: &str = "198.51.100.2:2000";

const REMOTE: [Story; 2] = [
    // The kinds are 3, of the public and the reflexive candidate, and 8. At 50 ms kind 3 has its turn, then 8, then 3 again.
    Story(
        "a_public_host_has_the_turn_of_reflexive_candidates",
        &[
            Begin(Unpaired),
            Set(Setting::Profile(Profile::Modern)),
            Does(Peers(4)),
            Does(Peer(PUBLIC_PEER)),
            Does(Peer(REFLEXIVE_PEER)),
            Does(CheckOn(0, HOST, FIRST)),
            Does(CheckOn(50, HOST, THERE)),
            Does(CheckOn(100, HOST, SECOND)),
            Does(CheckOn(150, HOST, THIRD)),
            Does(CheckOn(200, HOST, FOURTH)),
            Does(CheckOn(250, HOST, MAPPED)),
        ],
    ),
    Story(
        "without_turns_it_comes_after_the_private_ones",
        &[
            Begin(Unpaired),
            Set(Setting::Profile(Profile::Original)),
            Does(Peers(3)),
            Does(Peer(PUBLIC_PEER)),
            Does(CheckOn(0, HOST, FIRST)),
            Does(CheckOn(50, HOST, SECOND)),
            Does(CheckOn(100, HOST, THIRD)),
            Does(CheckOn(150, HOST, THERE)),
        ],
    ),
];
