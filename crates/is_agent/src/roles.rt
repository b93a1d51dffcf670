//! Role conflicts (RFC 8445, section 7.3.1.1), and switching the role; the rules: `is_rules::roles`.

ghost use Rattle.std.specs.Prelude.{◌≡◌};
ghost use Rattle.is_agent.specs.View.{record_of};
ghost use Rattle.is_rules.specs.RequestView.{request_view};
ghost use Rattle.is_agent.specs.Room.{HasServingRoom, UsesDiscoveryRoom};
ghost use Rattle.is_rules.specs.Roles.{conflict_by, conflict_of, keeps_role, rival, switched};
ghost use Rattle.is_rules.specs.Serving.{sends_487, role_resolved};

use crate::agent::{Agent, sides};
use is_candidate::LocalPreference;
use is_proto::Sha1HmacProvider;
use is_rules::request::Request;
use is_rules::roles::{Conflict, conflict_by, reprioritize_all};
use is_rules::sides::Sides;

impl<H: Sha1HmacProvider + Drop, P: LocalPreference> Agent<H, P> {
    /// The tie-breaker of a sender that claims the agent's role.
    fn rival(&self, request: &Request<'_>) -> Option<u64>
        ensures { result ≡ rival (record_of self.now) (request_view request.now) }
    {
        if self.controlling {
            request.ice_controlling
        } else {
            request.ice_controlled
        }
    }

    /// Whether the agent keeps its role: it is lite, and its profile is `Modern`. No conflict changes it then, and
    /// [`set_controlling`](Self::set_controlling) does not make the agent controlling.
    pub fn keeps_role(&self) -> bool
        ensures { result ≡ keeps_role (record_of self.now) }
    {
        self.lite && self.timing.is_modern()
    }

    pub(crate) fn conflict(&self, request: &Request<'_>) -> Conflict
        ensures { result ≡ conflict_of (record_of self.now) (request_view request.now) }
    {
        conflict_by(self.keeps_role(), self.tie_breaker, self.rival(request))
    }

    /// The agent switches to the other role, and all priorities are computed again.
    pub(crate) fn switch_role(&mut self)
        ensures record { record_of self.new ≡ switched (record_of self.old) }
        ensures room { HasServingRoom self.old → HasServingRoom self.new }
        ensures discovery { UsesDiscoveryRoom 0 self.old self.new }
    {
        self.controlling = !self.controlling;
        reprioritize_all(&mut self.pairs, sides!(self));
    }

    /// The sender claims the agent's own role, and the agent keeps it: the request gets a 487 (RFC 8445, section 7.3.1.1).
    pub(crate) fn sends_487(&self, request: &Request<'_>) -> bool
        ensures { result ≡ sends_487 (record_of self.now) (request_view request.now) }
    {
        match self.conflict(request) {
            Conflict::Send487 => true,
            Conflict::Absent | Conflict::SwitchRole => false,
        }
    }

    /// The role switches if the sender claims it with a greater tie-breaker.
    pub(crate) fn resolve_role_conflict(&mut self, request: &Request<'_>)
        ensures record { record_of self.new ≡ role_resolved (request_view request.now) (record_of self.old) }
        ensures room { HasServingRoom self.old → HasServingRoom self.new }
        ensures discovery { UsesDiscoveryRoom 0 self.old self.new }
    {
        match self.conflict(request) {
            Conflict::SwitchRole => self.switch_role(),
            Conflict::Absent | Conflict::Send487 => {}
        }
    }
}
