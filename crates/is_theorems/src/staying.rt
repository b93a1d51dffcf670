//! What transitions and executions leave: pairs, and their pending transactions.

ghost use Rattle.is_theorems.specs.Exchange.{ChecksStay};
ghost use Rattle.is_theorems.specs.Pending.{PairsKeepChecks, ChecksPend, ChecksPendAlong};
ghost use Rattle.is_theorems.specs.Staying.{PairsStay, PairsStayOn};

use is_candidate::LocalPreference;
use is_proto::Sha1HmacProvider;

/// A pair still exists, on its path and as valid and nominated as it was, after each transition that does not remove it.
pub fn pairs_stay<H: Sha1HmacProvider, P: LocalPreference>()
    ensures { PairsStay H.mac P.answers }
{}

/// From a newly created agent, a pair exists throughout each segment of the log at no entry of which it may be removed.
pub fn pairs_stay_in_logs<H: Sha1HmacProvider, P: LocalPreference>()
    ensures { PairsStayOn H.mac P.answers }
{}

/// Packets and polls leave each pending transaction of an agent, on its path.
pub fn checks_stay<H: Sha1HmacProvider, P: LocalPreference>()
    ensures { ChecksStay H.mac P.answers }
{}

/// Each transition leaves each pair that it does not remove its pending transactions, in their order, answered or not. It adds
/// at most one, and then only the last `max_retransmits` stay pending. So a transaction is pending over any calls, until that
/// many later checks were sent.
pub fn checks_pend<H: Sha1HmacProvider, P: LocalPreference>()
    ensures one { PairsKeepChecks H.mac P.answers }
    ensures kept { ChecksPend H.mac P.answers }
    ensures along { ChecksPendAlong H.mac P.answers }
{}
