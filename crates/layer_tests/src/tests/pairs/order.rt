//! Priorities, equality and order.

use super::{host_pair, pair_at};
use is_candidate::Candidate;
use is_pair::pair::{CandidatePair, CheckState, PairId};
use is_proto::Protocol;
use std::alloc::Global;
use std::cmp::Ordering;
use std::test::Fail;

#[test]
fn priorities_are_those_of_the_formula(rt: HostRuntime) {
    assert!(rt; CandidatePair::calculate_prio(true, 1, 2) == 4294967301);
    let greatest = 18446744073709551615;
    assert!(rt;
        CandidatePair::calculate_prio(true, 4294967294, 4294967295) == greatest
            && CandidatePair::calculate_prio(false, 4294967295, 4294967294) == greatest
    );
}

#[test]
fn the_greater_priority_comes_first(rt: HostRuntime) {
    let great = pair_at(rt.alloc(), 1, 1, 9);
    let small = pair_at(rt.alloc(), 0, 0, 8);
    let other = pair_at(rt.alloc(), 0, 1, 8);
    assert!(rt;
        great.cmp(&small) == Ordering::Less
            && small.cmp(&other) == Ordering::Less
            && small == host_pair(rt.alloc(), 8)
    );
}

#[test]
fn a_pair_is_what_it_was_made_of(rt: HostRuntime) {
    let mut pair = pair_at(rt.alloc(), 3, 4, 5);
    assert!(rt; pair.id() == PairId(7));
    let made = (pair.local_idx(), pair.remote_idx(), pair.prio());
    assert!(rt; made == (3, 4, 5));
    pair.set_prio(6);
    assert!(rt; pair.prio() == 6 && pair.state() == CheckState::Waiting);
    pair.record_remote_binding_request_success();
    assert!(rt; pair.state() == CheckState::Succeeded);
}

fn host(alloc: Global, addr: &str) -> Result<Candidate, Fail> {
    Ok(Candidate::host(alloc, addr.parse()?, Protocol::Udp)?)
}

#[test]
fn a_pair_names_its_candidates(rt: HostRuntime) -> Result<(), Fail> {
    let near = host(rt.alloc(), "10.0.0.1:1000")?;
    let hosts = [near, host(rt.alloc(), "10.0.0.2:2000")?];
    let path = pair_at(rt.alloc(), 0, 1, 5);
    assert!(rt;
        path.local_candidate(&hosts).addr() == hosts[0].addr()
            && path.remote_candidate(&hosts).addr() == hosts[1].addr()
    );
    Ok(())
}
