//! Bounds on what an agent stores, whatever it receives, and also if it shares its random source with another agent.

ghost use Rattle.is_theorems.specs.Bounds.{LimitsBound, BoundsPairs, LimitsPairs};
ghost use Rattle.is_theorems.specs.Limited.{DiscoveriesStayFew, ListsStayBounded, PairsStayFew};
ghost use Rattle.is_theorems.specs.Waiting.{QueuesAreShort};

use is_candidate::LocalPreference;
use is_proto::Sha1HmacProvider;

/// From a newly created agent: if the limit on what packets bring is at most this one whenever a packet or a timeout comes, neither
/// list of candidates is ever longer than this limit plus the calls that added a candidate to it, or tried to, and that of remembered
/// sources is never longer than this limit.
pub fn limits_bound<H: Sha1HmacProvider, P: LocalPreference>()
    ensures { LimitsBound H.mac P.answers }
{}

/// From a newly created agent: there are never more pairs than the greatest limit on pairs that was in force when pairs could be
/// formed, plus the number of local candidates times that of remote ones. With a limit on what packets bring too, the bound depends
/// on the caller only.
pub fn limits_pairs<H: Sha1HmacProvider, P: LocalPreference>()
    ensures few { LimitsPairs H.mac P.answers }
    ensures bounded { BoundsPairs H.mac P.answers }
{}

/// From a newly created agent, after each call: at most as many packets wait to be polled as packets were accepted and
/// `handle_timeout` was called since `poll_transmit` last returned none. Events are bounded likewise, `DiscoveredRecv` aside, and
/// early requests by their own limit.
pub fn queues_are_short<H: Sha1HmacProvider, P: LocalPreference>()
    ensures { QueuesAreShort H.mac P.answers }
{}

/// With a limit on what packets bring, at most as many `DiscoveredRecv` events wait, whether or not events are polled.
pub fn discoveries_stay_few<H: Sha1HmacProvider, P: LocalPreference>()
    ensures { DiscoveriesStayFew H.mac P.answers }
{}

/// With it there are at most as many local candidates as the limit and the caller's `add_local_candidate` calls together, likewise
/// remote candidates, and at most as many remembered sources as the limit.
pub fn lists_stay_bounded<H: Sha1HmacProvider, P: LocalPreference>()
    ensures { ListsStayBounded H.mac P.answers }
{}

/// From a newly created agent: at most as many pairs as the greatest limit on pairs that was in force when a candidate was added or
/// the pairs were re-created, plus the local candidates times the remote ones.
pub fn pairs_stay_few<H: Sha1HmacProvider, P: LocalPreference>()
    ensures { PairsStayFew H.mac P.answers }
{}
