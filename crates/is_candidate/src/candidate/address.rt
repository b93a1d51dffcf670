//! Tests of addresses and protocols.
ghost use Rattle.std.specs.Prelude.{◌≡◌, ◌↔◌, IsTrue};
ghost use Rattle.is_candidate.specs.Addresses.{protocol_number, same_protocol, same_address, same_version, plain_socket, unspecified_like};
ghost use Rattle.is_candidate.specs.Addresses.{is_valid_ip, is_inner_v4, is_public};

use is_proto::Protocol;
use std::net::{IpAddr, Ipv4Addr, Ipv6Addr, SocketAddr, SocketAddrV4, SocketAddrV6};

/// Returns the number of the protocol in a foundation's hash.
pub(crate) fn protocol_number(proto: Protocol) -> u8
    ensures { result ≡ protocol_number proto }
{
    match proto {
        Protocol::Udp => 0,
        Protocol::Tcp => 1,
        Protocol::SslTcp => 2,
        Protocol::Tls => 3,
    }
}

pub fn same_protocol(a: Protocol, b: Protocol) -> bool
    ensures { result ≡ same_protocol a b }
{
    protocol_number(a) == protocol_number(b)
}

/// Whether two addresses are equal in every part.
pub fn same_address(a: SocketAddr, b: SocketAddr) -> bool
    ensures test { result ≡ same_address a b }
    ensures equal { IsTrue result ↔ (a ≡ b) }
{
    a == b
}

/// Whether two addresses have the same IP version.
pub fn same_version(a: SocketAddr, b: SocketAddr) -> bool
    ensures { result ≡ same_version a b }
{
    a.is_ipv4() == b.is_ipv4()
}

/// Returns the address with the port, without flow information and scope.
pub(crate) fn plain_socket(ip: IpAddr, port: u16) -> SocketAddr
    ensures { result ≡ plain_socket ip port }
{
    match ip {
        IpAddr::V4(ip) => SocketAddr::V4(SocketAddrV4::new(ip, port)),
        IpAddr::V6(ip) => SocketAddr::V6(SocketAddrV6::new(ip, port, 0, 0)),
    }
}

/// Returns the unspecified address of the same IP version, with port 0. Browsers write it in place of the related
/// address, which is only for diagnosis, so that local addresses are not revealed.
pub(crate) fn unspecified_like(addr: SocketAddr) -> SocketAddr
    ensures { result ≡ unspecified_like addr }
{
    match addr {
        SocketAddr::V4(_) => SocketAddr::V4(SocketAddrV4::new(Ipv4Addr::UNSPECIFIED, 0)),
        SocketAddr::V6(_) => SocketAddr::V6(SocketAddrV6::new(Ipv6Addr::UNSPECIFIED, 0, 0, 0)),
    }
}

/// Whether a candidate may have this address.
pub(crate) fn is_valid_ip(ip: IpAddr) -> bool
    ensures { result ≡ is_valid_ip ip }
{
    match ip {
        IpAddr::V4(ip) => {
            !ip.is_link_local() && !ip.is_broadcast() && !ip.is_multicast() && !ip.is_unspecified()
        }
        IpAddr::V6(ip) => !ip.is_multicast() && !ip.is_unspecified(),
    }
}

/// Whether an IPv4 address that begins with these octets is private (RFC 1918), shared (RFC 6598), loopback or link-local.
fn is_inner_v4(a: u8, b: u8) -> bool
    ensures { result ≡ is_inner_v4 a b }
{
    a == 10
        || (a == 172 && 16 <= b && b <= 31)
        || (a == 192 && b == 168)
        || (a == 100 && 64 <= b && b <= 127)
        || a == 127
        || (a == 169 && b == 254)
}

/// Whether the address is routed on the Internet: of IPv4, one that is not private, shared, loopback or link-local; of IPv6, one of
/// 2000::/3 (RFC 4291, section 2.4).
pub fn is_public(ip: IpAddr) -> bool
    ensures { result ≡ is_public ip }
{
    match ip {
        IpAddr::V4(ip) => {
            let octets = ip.octets();
            !is_inner_v4(octets[0], octets[1])
        }
        IpAddr::V6(ip) => {
            let first = ip.segments()[0];
            0x2000 <= first && first <= 0x3fff
        }
    }
}
