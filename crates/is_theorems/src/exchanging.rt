//! Two agents: their checks are accepted and answered.

ghost use Rattle.is_theorems.specs.Asking.{ChecksAsk};
ghost use Rattle.is_theorems.specs.Carried.{CarriedAreServed, CarriedAreAccepted, CarriedSucceedLater, CarriedAsk};
ghost use Rattle.is_theorems.specs.Delivery.{ChecksAreServed, ChecksAreKept, RepliesAreAccepted};
ghost use Rattle.is_theorems.specs.Exchange.{ExchangesSucceed};
ghost use Rattle.is_theorems.specs.Pending.{ExchangesSucceedLater};

use is_candidate::LocalPreference;
use is_proto::Sha1HmacProvider;
use is_stun::theorems::{addresses_are_written_plain, checks_fit, replies_fit, written_is_read};

/// A check that is delivered to the other of two agents that know each other, while their roles differ, is accepted and gets a
/// success response. So it is if the other agent had the sender's role and switches. The `handle_timeout` call that sends the check
/// stores it as a pending transaction. The response, delivered while the transaction is pending, is accepted.
pub fn checks_are_answered<H: Sha1HmacProvider, P: LocalPreference>()
    ensures served { ChecksAreServed H.mac P.answers }
    ensures kept { ChecksAreKept H.mac P.answers }
    ensures accepted { RepliesAreAccepted H.mac P.answers }
    ensures carried_served { CarriedAreServed H.mac P.answers }
    ensures carried_accepted { CarriedAreAccepted H.mac P.answers }
{
    written_is_read();
    addresses_are_written_plain();
    checks_fit();
    replies_fit();
}

/// A check of one of two agents, delivered to the other at any time, is accepted. Its success response, delivered at any time
/// while the transaction is pending, is accepted and makes a pair on the path valid.
pub fn exchanges_succeed_later<H: Sha1HmacProvider, P: LocalPreference>()
    ensures same { ExchangesSucceedLater H.mac P.answers }
    ensures carried { CarriedSucceedLater H.mac P.answers }
{
    checks_are_answered::<H, P>();
}

/// One of two agents that know each other sends a check in a `handle_timeout` call. If it is delivered to the other agent while
/// their roles differ, it is accepted. Its success response, delivered before the first agent's next `handle_timeout` call, is
/// accepted too. Any packets and polls may come between.
pub fn exchanges_succeed<H: Sha1HmacProvider, P: LocalPreference>()
    ensures { ExchangesSucceed H.mac P.answers }
{
    checks_are_answered::<H, P>();
}

/// A controlling agent sends a check in a `handle_timeout` call on a path whose pairs are nominated. If it is delivered to the
/// controlled agent before the sender's next `handle_timeout` call, the controlled agent accepts the nomination of the reverse
/// path.
pub fn checks_ask<H: Sha1HmacProvider, P: LocalPreference>()
    ensures same { ChecksAsk H.mac P.answers }
    ensures carried { CarriedAsk H.mac P.answers }
{
    written_is_read();
    checks_fit();
    checks_are_answered::<H, P>();
}
