//! No permission and no channel lapses by the clock, if it is in use, the caller is punctual and the server answers.

ghost use Rattle.std.specs.Prelude.{ℕ, List};
ghost use Rattle.is_turn.specs.Worlds.{Acceptance, World, IsFresh};
ghost use Rattle.is_turn_theorems.specs.LeaseLimits.{LeaveForLeases};
ghost use Rattle.is_turn_theorems.specs.Leasing.{IsLeaseTimely, LeaseNeverLapses};
ghost use Rattle.is_turn_theorems.specs.Limits.{Limits, Leave};
ghost use Rattle.is_turn_theorems.specs.Timely.{Entry, IsTimely};

/// A permission or a channel, the lease in a place of a client, never lapses by the clock. What is required of a caller and a server for an
/// allocation not to lapse holds here too, and each attempt to renew the lease is answered as quickly. Of all requests that are due one is
/// sent at a time, so each waits for the others. Then, while the lease is used between one renewal and the next, at each call of a client
/// with an allocation its end is ahead by `lease_margin` at least, and no call ends it.
pub fn a_lease_never_lapses()
    ensures { (k : Limits) (mac : List ℕ → List ℕ → List ℕ) (accepted : List Acceptance) (place : ℕ) (w : World) (run : List Entry)
        → Leave k → LeaveForLeases k → IsFresh w → IsTimely k mac accepted w run → IsLeaseTimely k mac place w run → LeaseNeverLapses k place w run }
{}
