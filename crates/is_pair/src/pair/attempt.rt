//! One check that a pair sent.

ghost use Rattle.std.specs.Prelude.{◌≡◌, option_map};
ghost use Rattle.is_pair.specs.Checks.{answered_at, has_id, is_answered, round_trip_of};

use is_proto::{Duration, Instant};
use is_stun::stun::TransId;
use std::marker::Model;

/// One connectivity check that a pair sent, a Binding request, and its response (RFC 8445, section 7.2).
#[derive(Clone, Copy, Debug)]
pub struct BindingAttempt {
    /// The transaction ID, by which a response matches the check.
    pub(crate) trans_id: TransId,
    pub(crate) request_sent: Instant,
    /// The time of the last response.
    pub(crate) response_received: Option<Instant>,
    /// Whether the pair was nominated when the check was sent.
    pub(crate) nominated: bool,
    /// Whether the agent was controlling when the check was sent.
    pub(crate) controlling: bool,
}

impl Model for BindingAttempt {
    ghost use Rattle.std.specs.Prelude.{Some};
    ghost use Rattle.std.specs.Prelude.{option_map};
    ghost use Rattle.is_pair.specs.Checks.{Check};

    ghost Value = { Check };

    ghost view = { λ a. record {
      id = a.trans_id.0;
      sent = a.request_sent.0;
      answered = option_map (λ at. at.0) a.response_received;
      nominated = a.nominated;
      controlling = a.controlling;
    } };

    ghost inverse = { λ c. record {
      trans_id = record { 0 = c.id };
      request_sent = record { 0 = c.sent };
      response_received = option_map (λ at. record { 0 = at }) c.answered;
      nominated = c.nominated;
      controlling = c.controlling;
    } };
}

impl BindingAttempt {
    /// Whether the agent was controlling when the check was sent. A 487 (Role Conflict) response has an effect only if
    /// the agent still has this role.
    pub fn controlling(&self) -> bool
        ensures { result ≡ self.now.controlling }
    {
        self.controlling
    }

    pub(crate) fn has_id(&self, trans_id: TransId) -> bool
        ensures { result ≡ has_id trans_id.0 self.now }
    {
        self.trans_id == trans_id
    }

    pub(crate) fn is_answered(&self) -> bool
        ensures { result ≡ is_answered self.now }
    {
        self.response_received.is_some()
    }

    /// Returns the round-trip time of the last response.
    pub(crate) fn round_trip(&self) -> Option<Duration>
        ensures { option_map (λ took. took.0) result ≡ round_trip_of self.now }
    {
        self.response_received.map(|at| at - self.request_sent)
    }

    pub(crate) fn answered_at(self, now: Instant) -> BindingAttempt
        ensures { result ≡ answered_at now.0 self }
    {
        BindingAttempt {
            response_received: Some(now),
            ..self
        }
    }
}
