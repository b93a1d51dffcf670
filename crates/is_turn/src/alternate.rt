//! ALTERNATE-SERVER: the server that a 300 names (RFC 8489, section 14.15). Its address is written plain, as in MAPPED-ADDRESS.

ghost use Rattle.std.specs.Prelude.{◌≡◌, ◌≤◌, length};
ghost use Rattle.is_turn.specs.Alternate.{plain_port, alternate_of, alternate_in};

use is_stun::address::{ipv4_socket, ipv6_socket, u32_in, u128_in};
use is_stun::finding::value_of;
use std::net::SocketAddr;

const ALTERNATE_SERVER: u16 = 0x8023;

fn plain_port(value: &[u8]) -> u16
    requires { 4 ≤ length value.now }
    ensures { result ≡ plain_port value.now }
{
    u16::from_be_bytes([value[2], value[3]])
}

/// Returns the address that a value encodes: 8 bytes of IPv4, 20 of IPv6.
fn alternate_of(value: &[u8]) -> Option<SocketAddr>
    ensures { result ≡ alternate_of value.now }
{
    if value.len() == 8 && value[1] == 1 {
        Some(ipv4_socket(u32_in(value), plain_port(value)))
    } else if value.len() == 20 && value[1] == 2 {
        Some(ipv6_socket(u128_in(value), plain_port(value)))
    } else {
        None
    }
}

/// Returns the server that a message names, in the bytes of a message.
pub(crate) fn alternate_in(bytes: &[u8]) -> Option<SocketAddr>
    ensures { result ≡ alternate_in bytes.now }
{
    alternate_of(value_of(bytes, ALTERNATE_SERVER)?)
}
