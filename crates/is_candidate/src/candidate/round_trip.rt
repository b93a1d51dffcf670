//! Printed candidate attributes parse again.
ghost use Rattle.std.specs.Prelude.{IfSome};
ghost use Rattle.is_candidate.specs.RoundTrips.{HasPlainTexts, LineRoundTrips, PartsFit};

use super::Candidate;
use super::internals::raddr;
use std::net::{IpAddr, SocketAddr};

/// The line that `to_sdp_string` prints round-trips if foundation and ufrag, when given, are not empty and have no
/// white space: it parses as the candidate that the line describes, and that candidate prints the same line. A line
/// says nothing about the base, flow information and scope. The body reads the parts whose types keep them in range,
/// and does nothing else.
pub fn printed_line_round_trips(candidate: &Candidate)
    ensures { HasPlainTexts candidate.now → LineRoundTrips candidate.now }
{
    let _component = candidate.component;
    let _priority = candidate.prio();
    parts_fit(candidate.addr);
    related_parts_fit(raddr(candidate));
}

fn related_parts_fit(raddr: Option<SocketAddr>)
    ensures { IfSome raddr PartsFit }
{
    if let Some(raddr) = raddr {
        parts_fit(raddr);
    }
}

/// The types of an address keep its parts in range.
fn parts_fit(address: SocketAddr)
    ensures { PartsFit address }
{
    let _port = address.port();
    match address.ip() {
        IpAddr::V4(ip) => {
            let _octets = ip.octets();
        }
        IpAddr::V6(ip) => {
            let _segments = ip.segments();
        }
    }
}
