//! Pairs: made, checked and answered.

use crate::checksum::Checksum;
use is_candidate::CandidateKind;
use is_pair::pair::{CandidatePair, PairId};
use is_proto::{Duration, IceError, Instant};
use is_stun::stun::StunTiming;
use rand_core::SeedableRng;
use rand_pcg::Pcg32;
use std::alloc::Global;

pub fn pair(alloc: Global, rounds: u64, sum: &mut Checksum) -> Result<(), IceError> {
    let timing = StunTiming::default();
    let mut rng = Pcg32::seed_from_u64(1);
    for round in 0..rounds {
        let prio = CandidatePair::calculate_prio(true, (round % 65536) as u32, 2113929471);
        let kind = CandidateKind::Host;
        let mut pair = CandidatePair::new(alloc, PairId(round), 0, kind, 0, kind, prio);
        let sent = pair.next_binding_attempt(Instant(round), &timing);
        let id = pair.new_attempt(sent, &timing, true, &mut rng)?;
        if pair.binding_attempt(id).is_some() {
            pair.record_binding_response(sent + Duration::from_millis(50), id, 0);
        }
        sum.add(pair.prio() ^ pair.responses_received());
    }
    Ok(())
}
