//! How many checks an agent sends, and how fast: what bounds the traffic that it can be made to send to any address (RFC 8445,
//! section 19.5.1).

ghost use Rattle.is_theorems.specs.CheckRate.{ChecksArePaced, CreditIsFrugal, SecondsHaveFewChecks, TimeoutsCheck};
ghost use Rattle.is_theorems.specs.SilentPairs.{AskedPairsGetFew, NumbersOfChecks, SilencesHaveFewChecks, SilentPairsGetFew};

use is_candidate::LocalPreference;
use is_proto::Sha1HmacProvider;

/// Whatever is called and received, only `handle_timeout` sends checks, and each call at most one.
pub fn timeouts_check<H: Sha1HmacProvider, P: LocalPreference>()
    ensures { TimeoutsCheck H.mac P.answers }
{}

/// From a newly created agent, which may share its random source: in any span of time in which the caller calls `handle_timeout` no sooner
/// than the time that `poll_timeout` returned, at most as many checks are sent as pacing intervals begin in it, whatever is received. The
/// first call in the span may come at any time. So it is 20 in a second with the default interval of 50 ms. If it is early, checks are closer
/// at first, and 49 in a second.
pub fn checks_are_paced<H: Sha1HmacProvider, P: LocalPreference>()
    ensures paced { ChecksArePaced H.mac P.answers }
    ensures seconds { SecondsHaveFewChecks H.mac P.answers }
{}

/// A caller is frugal at a call that comes no sooner than a time which `poll_timeout`, `next_call`, or `next_call_soon` of
/// `Modern`, returned after the last one. For that the pacing interval need be 25 ms only.
pub fn calls_within_credit_are_frugal<H: Sha1HmacProvider, P: LocalPreference>()
    ensures { CreditIsFrugal H.mac P.answers }
{}

/// From a newly created agent, which may share its random source, with any caller for whom time does not run back: a pair without a response
/// gets at most n checks in its life if no request arrives on it, and at most n after each request: 9 with the settings of `Original`, 17 with
/// those of `Modern`, and 11 if its first check followed a request. For other timings `EndsWith` and `EndsAsked` say which n.
pub fn silent_pairs_get_few<H: Sha1HmacProvider, P: LocalPreference>()
    ensures few { SilentPairsGetFew H.mac P.answers }
    ensures since { SilencesHaveFewChecks H.mac P.answers }
    ensures asked { AskedPairsGetFew H.mac P.answers }
    ensures numbers { NumbersOfChecks }
{}
