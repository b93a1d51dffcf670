//! Public API of candidates.

mod addresses;
mod foundations;
mod infos;
mod lines;
mod making;
mod preferences;

use is_candidate::Candidate;
use is_proto::IceError;
use std::alloc::Global;
use std::net::SocketAddr;

/// The address of the text.
fn address(text: &str) -> Option<SocketAddr> {
    text.parse::<SocketAddr>().ok()
}

/// Whether this is the candidate's line.
fn has_line(alloc: Global, candidate: &Candidate, text: &str) -> bool {
    match candidate.to_sdp_string(alloc) {
        Ok(line) => line.as_str() == text,
        Err(_) => false,
    }
}

/// Whether the candidate was made, and its line ends with this text.
fn has_line_end(alloc: Global, made: Result<Candidate, IceError>, end: &str) -> bool {
    let Ok(candidate) = made else {
        return false;
    };
    match candidate.to_sdp_string(alloc) {
        Ok(line) => line.ends_with(end),
        Err(_) => false,
    }
}
