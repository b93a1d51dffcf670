//! Candidates as attributes (RFC 8839) and as JSON texts.

use crate::checksum::Checksum;
use is_candidate::{Candidate, JsonScratch};
use is_proto::IceError;
use std::alloc::Global;

const LINE: &str = "candidate:1 1 udp 2113929471 203.0.113.100 10100 typ host";

/// The candidate as a browser signals it.
const INFO: &str =
    "{\"candidate\":\"candidate:1 1 udp 2113929471 203.0.113.100 10100 typ host\",\"sdpMid\":null,\"sdpMLineIndex\":0,\"usernameFragment\":null}";

pub fn read_line(alloc: Global, rounds: u64, sum: &mut Checksum) -> Result<(), IceError> {
    for _ in 0..rounds {
        let candidate = Candidate::from_sdp_string(alloc, LINE)?;
        sum.add(u64::from(candidate.prio()));
    }
    Ok(())
}

pub fn print_line(alloc: Global, rounds: u64, sum: &mut Checksum) -> Result<(), IceError> {
    let candidate = Candidate::from_sdp_string(alloc, LINE)?;
    for _ in 0..rounds {
        let text = candidate.to_sdp_string(alloc)?;
        sum.add_bytes(text.as_bytes());
    }
    Ok(())
}

pub fn read_json(alloc: Global, rounds: u64, sum: &mut Checksum) -> Result<(), IceError> {
    let mut scratch = JsonScratch::new(alloc);
    for _ in 0..rounds {
        let candidate = Candidate::from_json_str(alloc, INFO, &mut scratch)?;
        sum.add(u64::from(candidate.prio()));
    }
    Ok(())
}

pub fn print_json(alloc: Global, rounds: u64, sum: &mut Checksum) -> Result<(), IceError> {
    let candidate = Candidate::from_sdp_string(alloc, LINE)?;
    for _ in 0..rounds {
        let text = candidate.to_json_string(alloc)?;
        sum.add_bytes(text.as_bytes());
    }
    Ok(())
}
