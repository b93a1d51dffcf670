//! What a pair copies from a pair of the same path that it replaces.

ghost use Rattle.std.specs.Prelude.{◌≡◌};
ghost use Rattle.is_pair.specs.Pairs.{with_requests_of, with_success_of, taking_over};

use super::CandidatePair;
use super::consent::last_of;

impl CandidatePair {
    /// Copies what a pair of the same path that this one replaces has reached: that it is valid, since when, and its nomination with the
    /// greatest number. If the other's nominating check was in flight, this pair still has to send one.
    pub fn copy_nominated_and_success_state(&mut self, other: &CandidatePair)
        ensures { self.new ≡ with_success_of other.now self.old }
    {
        self.nomination_state = self.nomination_state.replacing(other.nomination_state);
        self.greatest_number = other.greatest_number.max(self.greatest_number);
        self.state = self.state.replacing(other.state);
        self.consented = last_of(other.consented, self.consented);
    }
}

/// Copies, from a pair of the same path that `pair` replaces on an ICE-lite agent, how many checks from the peer
/// arrived and when the last one did.
fn copy_remote_binding_requests(pair: &mut CandidatePair, other: &CandidatePair)
    ensures { pair.new ≡ with_requests_of other.now pair.old }
{
    pair.remote_binding_requests = other.remote_binding_requests;
    pair.remote_binding_request_time = other.remote_binding_request_time;
}

/// Copies all that `pair` takes from the pair that it replaces.
pub fn take_over(pair: &mut CandidatePair, other: &CandidatePair, lite: bool)
    ensures taken { pair.new ≡ taking_over lite other.now pair.old }
    ensures number { pair.new.number ≡ pair.old.number }
    ensures checks { pair.new.checks ≡ pair.old.checks }
{
    pair.copy_nominated_and_success_state(other);
    if lite {
        copy_remote_binding_requests(pair, other);
    }
}
