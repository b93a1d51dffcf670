//! The foundation of a candidate (RFC 8445, section 5.1.1.3).
ghost use Rattle.std.specs.Prelude.{◌≡◌, Some};
ghost use Rattle.is_candidate.specs.Foundations.{fnv_from, fnv, ip_bytes, related_bytes, common_bytes, foundation_of, computed_foundation};

use super::Candidate;
use super::address::protocol_number;
use super::internals::{base, raddr};
use super::kind::kind_number;
use std::fmt;
use std::net::{IpAddr, SocketAddr};

const FNV_START: u64 = 0xCBF2_9CE4_8422_2325;

const FNV_PRIME: u64 = 0x100_0000_01B3;

/// Continues a 64-bit FNV-1a hash with more bytes, from the hash of the bytes before.
fn fnv_from(start: u64, bytes: &[u8]) -> u64
    ensures { result ≡ fnv_from start bytes.now }
{
    let mut hash = start;
    for byte in bytes {
        hash = (hash ^ u64::from(*byte)).wrapping_mul(FNV_PRIME);
    }
    hash
}

fn with_ip(hash: u64, ip: IpAddr) -> u64
    ensures { result ≡ fnv_from hash (ip_bytes ip) }
{
    match ip {
        IpAddr::V4(ip) => fnv_from(fnv_from(hash, &[4]), &ip.octets()),
        IpAddr::V6(ip) => fnv_from(fnv_from(hash, &[6]), &ip.octets()),
    }
}

fn with_related(hash: u64, raddr: Option<SocketAddr>) -> u64
    ensures { result ≡ fnv_from hash (related_bytes raddr) }
{
    match raddr {
        Some(raddr) => with_ip(hash, raddr.ip()),
        None => fnv_from(hash, &[0]),
    }
}

/// Returns the hash of what candidates of one foundation have in common.
fn common_hash(c: &Candidate) -> u64
    ensures { result ≡ fnv (common_bytes c.now) }
{
    let kind = fnv_from(FNV_START, &[kind_number(c.kind)]);
    let with_base = with_ip(kind, base(c).ip());
    let with_server = with_related(with_base, raddr(c));
    fnv_from(with_server, &[protocol_number(c.proto)])
}

/// The foundation as text. A given foundation stays as it is. A computed one is the priority with its bytes reversed,
/// as eight hexadecimal digits, and then the hash without leading zeros.
#[derive(Clone, Copy)]
pub struct Foundation<'a>(pub &'a Candidate);

impl fmt::Display for Foundation<'_> {
    ghost output = { λ t. Some (foundation_of t.0.now) };

    fn fmt<W: fmt::Write>(&self, f: &mut fmt::Formatter<W>) -> fmt::Result {
        let c = self.0;
        match c.texts.foundation() {
            Some(foundation) => f.write_str(foundation),
            None => {
                let computed = Computed(c);
                write!(f, "{computed}")
            }
        }
    }
}

#[derive(Clone, Copy)]
struct Computed<'a>(&'a Candidate);

impl fmt::Display for Computed<'_> {
    ghost output = { λ t. Some (computed_foundation t.0.now) };

    #[tactic(auto, unfolding(crate::specs::Foundations::computed_foundation), using(crate::proofs::AttributeTexts::PaddedHexadecimals::padded_eight))]
    fn fmt<W: fmt::Write>(&self, f: &mut fmt::Formatter<W>) -> fmt::Result {
        let reversed = self.0.prio().swap_bytes();
        let hash = common_hash(self.0);
        write!(f, "{reversed:08x}{hash:x}")
    }
}
