//! Memory that was needed once: the checklist keeps its capacity when pairs are removed, and the queue of events the room for them. Before a
//! `handle_timeout` call reserves capacity for a check, or if there is nothing to check, most of it is given back if it is not used. The queue
//! of packets keeps its capacity, which is small.

ghost use Rattle.std.specs.Prelude.{◌≡◌};
ghost use Rattle.is_agent.specs.View.{record_of};

use crate::agent::Agent;
use is_candidate::LocalPreference;
use is_proto::Sha1HmacProvider;

impl<H: Sha1HmacProvider + Drop, P: LocalPreference> Agent<H, P> {
    /// Gives back most of the capacity for pairs and events, if most pairs are gone. What was reserved may be lost. It can't fail. It is a separate
    /// function, so that calls without a check do not pay for it.
    #[inline(never)]
    pub(crate) fn give_back(&mut self)
        ensures { record_of self.new ≡ record_of self.old }
    {
        self.pairs.give_back();
        self.give_back_room();
    }

    /// Gives back most of the capacity for pairs (`give_back`), if there is nothing to check.
    #[inline(always)]
    pub(crate) fn give_back_if_idle(&mut self)
        ensures { record_of self.new ≡ record_of self.old }
    {
        if self.is_idle() {
            self.give_back();
        }
    }
}
