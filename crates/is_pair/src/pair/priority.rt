//! The priority of a pair (RFC 8445, section 6.1.2.3).

ghost use Rattle.std.specs.Prelude.{◌≡◌, ◌<◌, ◌+◌, ◌*◌};
ghost use Rattle.is_candidate.specs.Priorities.{TOO_HIGH};
ghost use Rattle.is_pair.specs.Priorities.{pair_priority};

use super::CandidatePair;

impl CandidatePair {
    /// Returns the priority of a pair (RFC 8445, section 6.1.2.3), from the agent's role and the priorities of the
    /// remote and the local candidate. Both agents compute the same. The two candidates must not both have priority
    /// 4294967295, for which no pair priority fits 64 bits.
    pub fn calculate_prio(controlling: bool, remote_prio: u32, local_prio: u32) -> u64
        requires { remote_prio + local_prio < 2 * TOO_HIGH }
        ensures { result ≡ pair_priority controlling remote_prio local_prio }
    {
        let (g, d) = if controlling {
            (u64::from(local_prio), u64::from(remote_prio))
        } else {
            (u64::from(remote_prio), u64::from(local_prio))
        };
        0x1_0000_0000 * g.min(d) + 2 * g.max(d) + u64::from(g > d)
    }

    /// Sets the priority, as when the agents switch their roles.
    pub fn set_prio(&mut self, prio: u64)
        ensures { self.new ≡ record self.old { priority = prio } }
    {
        self.prio = prio;
    }
}
