//! The profile `Modern`: the agent is connected if and only if it has a path for media.

ghost use Rattle.is_theorems.specs.Settled.{StatesAgree};

use is_candidate::LocalPreference;
use is_proto::Sha1HmacProvider;

/// From a newly created agent that is never lite, with the profile `Modern` from the beginning of the
/// session on: it is Connected or Completed if and only if the path that it selected last is that of a pair that is valid and nominated.
/// This holds after each call, whatever it received.
pub fn states_agree<H: Sha1HmacProvider, P: LocalPreference>()
    ensures { StatesAgree H.mac P.answers }
{}
