//! Sockets, connections and servers, as C has them.

ghost use Rattle.std.specs.Prelude.{◌≡◌, Some};
ghost use Rattle.is_c.specs.ServersHeld.{transport_of, ends_of, end_of, pair_of};

use crate::address::socket_of;
use is_c_calls::Address;
use is_servers::Transport;
use std::net::SocketAddr;

/// The transport for the number of a protocol that C passes in.
pub(crate) fn transport_of(number: u8) -> Option<Transport>
    ensures { result ≡ transport_of number }
{
    match number {
        0 => Some(Transport::Udp),
        1 => Some(Transport::Tcp),
        _ => None,
    }
}

/// The number of the protocol that C gets for a transport.
pub(crate) fn number_of(transport: Transport) -> u8
    ensures { transport_of result ≡ Some transport }
{
    match transport {
        Transport::Udp => 0,
        Transport::Tcp => 1,
    }
}

/// A socket or connection, and the address at its other end.
#[derive(Clone, Copy)]
pub struct Ends {
    pub(crate) transport: Transport,
    pub(crate) local: SocketAddr,
    pub(crate) remote: SocketAddr,
}

pub(crate) fn ends_of(protocol: u8, local: &Address, remote: &Address) -> Option<Ends>
    ensures { result ≡ ends_of protocol local.now remote.now }
{
    Some(Ends {
        transport: transport_of(protocol)?,
        local: socket_of(local)?,
        remote: socket_of(remote)?,
    })
}

/// A socket or connection.
pub(crate) fn end_of(protocol: u8, local: &Address) -> Option<(Transport, SocketAddr)>
    ensures { result ≡ end_of protocol local.now }
{
    Some((transport_of(protocol)?, socket_of(local)?))
}

/// The source and the destination of a packet.
pub(crate) fn pair_of(source: &Address, destination: &Address) -> Option<(SocketAddr, SocketAddr)>
    ensures { result ≡ pair_of source.now destination.now }
{
    Some((socket_of(source)?, socket_of(destination)?))
}
