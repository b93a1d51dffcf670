//! A builder whose states are types: first a protocol, then a route; only TCP takes a TCP type.
ghost use Rattle.std.specs.Prelude.{◌≡◌, ◌++◌, codes, Some, None};
ghost use Rattle.std.specs.Net.Text.{ip_text};
ghost use Rattle.is_candidate.specs.declared.candidate.builder.Route.TheVariants.{Host, ServerReflexive, Relayed};
ghost use Rattle.is_candidate.specs.Building.{protocol_of, route_of, tcptype_of, mixed_text, route_fault, built_candidate};
ghost use Rattle.is_candidate.specs.Rejections.{RejectsWith, Makes};

use super::Candidate;
use super::address::{is_valid_ip, same_version};
use super::making::{new_host, new_relayed, new_server_reflexive};
use is_proto::{IceError, Protocol, TcpType};
use std::alloc::Global;
use std::fmt;
use std::marker::PhantomData;
use std::net::{IpAddr, SocketAddr};

/// No protocol is chosen yet.
#[derive(Clone, Copy, Debug)]
pub struct NoProtocol(());

/// A protocol of the family `P` is chosen.
#[derive(Clone, Copy, Debug)]
pub struct HasProtocol<P> {
    family: PhantomData<P>,
    protocol: Protocol,
}

/// The family of UDP.
#[derive(Clone, Copy, Debug)]
pub struct Udp(());

/// The family of the protocols over TCP.
#[derive(Clone, Copy, Debug)]
pub struct Tcp(());

/// No route is chosen yet.
#[derive(Clone, Copy, Debug)]
pub struct NoRoute(());

/// A route is chosen: the kind and the addresses.
#[derive(Clone, Copy, Debug)]
pub struct HasRoute(Route);

#[derive(Clone, Copy, Debug)]
enum Route {
    Host { addr: SocketAddr },
    ServerReflexive { addr: SocketAddr, base: SocketAddr },
    Relayed { addr: SocketAddr, local: SocketAddr },
}

/// A candidate that is being built, as in
/// `Candidate::builder().tcp().host(addr).tcptype(TcpType::Passive).build(alloc)`.
#[derive(Clone, Copy, Debug)]
pub struct CandidateBuilder<P, R> {
    protocol_state: P,
    route_state: R,
    tcptype: Option<TcpType>,
}

impl Candidate {
    /// Starts a builder, with no protocol and no route.
    pub fn builder() -> CandidateBuilder<NoProtocol, NoRoute>
        ensures { tcptype_of result ≡ None }
    {
        CandidateBuilder {
            protocol_state: NoProtocol(()),
            route_state: NoRoute(()),
            tcptype: None,
        }
    }
}

fn with_protocol<P>(
    builder: CandidateBuilder<NoProtocol, NoRoute>,
    protocol: Protocol,
) -> CandidateBuilder<HasProtocol<P>, NoRoute>
    ensures protocol { protocol_of result ≡ protocol }
    ensures tcptype { tcptype_of result ≡ tcptype_of builder }
{
    CandidateBuilder {
        protocol_state: HasProtocol {
            family: PhantomData,
            protocol,
        },
        route_state: builder.route_state,
        tcptype: builder.tcptype,
    }
}

impl CandidateBuilder<NoProtocol, NoRoute> {
    /// Chooses UDP.
    pub fn udp(self) -> CandidateBuilder<HasProtocol<Udp>, NoRoute>
        ensures protocol { protocol_of result ≡ Protocol.Udp }
        ensures tcptype { tcptype_of result ≡ tcptype_of self }
    {
        with_protocol(self, Protocol::Udp)
    }

    /// Chooses TCP.
    pub fn tcp(self) -> CandidateBuilder<HasProtocol<Tcp>, NoRoute>
        ensures protocol { protocol_of result ≡ Protocol.Tcp }
        ensures tcptype { tcptype_of result ≡ tcptype_of self }
    {
        with_protocol(self, Protocol::Tcp)
    }

    /// Chooses TCP, with a pseudo-TLS handshake first.
    pub fn ssl_tcp(self) -> CandidateBuilder<HasProtocol<Tcp>, NoRoute>
        ensures protocol { protocol_of result ≡ Protocol.SslTcp }
        ensures tcptype { tcptype_of result ≡ tcptype_of self }
    {
        with_protocol(self, Protocol::SslTcp)
    }

    /// Chooses TLS.
    pub fn tls(self) -> CandidateBuilder<HasProtocol<Tcp>, NoRoute>
        ensures protocol { protocol_of result ≡ Protocol.Tls }
        ensures tcptype { tcptype_of result ≡ tcptype_of self }
    {
        with_protocol(self, Protocol::Tls)
    }
}

fn with_route<P>(
    builder: CandidateBuilder<HasProtocol<P>, NoRoute>,
    route: Route,
) -> CandidateBuilder<HasProtocol<P>, HasRoute>
    ensures protocol { protocol_of result ≡ protocol_of builder }
    ensures route { route_of result ≡ route }
    ensures tcptype { tcptype_of result ≡ tcptype_of builder }
{
    CandidateBuilder {
        protocol_state: builder.protocol_state,
        route_state: HasRoute(route),
        tcptype: builder.tcptype,
    }
}

impl<P> CandidateBuilder<HasProtocol<P>, NoRoute> {
    /// Makes it a host candidate: a socket on a local interface.
    pub fn host(self, addr: SocketAddr) -> CandidateBuilder<HasProtocol<P>, HasRoute>
        ensures protocol { protocol_of result ≡ protocol_of self }
        ensures route { route_of result ≡ Host addr }
        ensures tcptype { tcptype_of result ≡ tcptype_of self }
    {
        with_route(self, Route::Host { addr })
    }

    /// Makes it a server-reflexive candidate: the address of the local socket `base` as a STUN server sees it.
    pub fn server_reflexive(
        self,
        addr: SocketAddr,
        base: SocketAddr,
    ) -> CandidateBuilder<HasProtocol<P>, HasRoute>
        ensures protocol { protocol_of result ≡ protocol_of self }
        ensures route { route_of result ≡ ServerReflexive addr base }
        ensures tcptype { tcptype_of result ≡ tcptype_of self }
    {
        with_route(self, Route::ServerReflexive { addr, base })
    }

    /// Makes it a relayed candidate: an address that a TURN server allocated for a request from the local address
    /// `local`.
    pub fn relayed(
        self,
        addr: SocketAddr,
        local: SocketAddr,
    ) -> CandidateBuilder<HasProtocol<P>, HasRoute>
        ensures protocol { protocol_of result ≡ protocol_of self }
        ensures route { route_of result ≡ Relayed addr local }
        ensures tcptype { tcptype_of result ≡ tcptype_of self }
    {
        with_route(self, Route::Relayed { addr, local })
    }
}

impl<R> CandidateBuilder<HasProtocol<Tcp>, R> {
    /// Sets which side opens the connection (RFC 6544, section 4.5).
    pub fn tcptype(mut self, tcptype: TcpType) -> Self
        ensures { result ≡ record self { tcptype = Some tcptype } }
    {
        self.tcptype = Some(tcptype);
        self
    }
}

impl<P> CandidateBuilder<HasProtocol<P>, HasRoute> {
    /// Returns the candidate, with component 1.
    ///
    /// Fails with `BadCandidate`, in this order: "Invalid IP: IP" if the address is link-local IPv4, broadcast,
    /// multicast or unspecified; "address IP version mismatch: addr=IP base=IP" if the two IP versions differ.
    pub fn build(self, alloc: Global) -> Result<Candidate, IceError>
        ensures { Makes (route_fault (route_of self))
            (built_candidate (protocol_of self) (route_of self) (tcptype_of self)) result }
    {
        let proto = self.protocol_state.protocol;
        match self.route_state.0 {
            Route::Host { addr } if is_valid_ip(addr.ip()) => {
                Ok(new_host(addr, proto, self.tcptype))
            }
            Route::Relayed { addr, local } if is_valid_ip(addr.ip()) => {
                Ok(new_relayed(addr, local, proto, self.tcptype))
            }
            Route::ServerReflexive { addr, base } if is_valid_ip(addr.ip()) => {
                if same_version(addr, base) {
                    Ok(new_server_reflexive(addr, base, proto, self.tcptype))
                } else {
                    Err(mixed_versions(alloc, addr.ip(), base.ip()))
                }
            }
            Route::Host { addr }
            | Route::Relayed { addr, .. }
            | Route::ServerReflexive { addr, .. } => Err(invalid_ip(alloc, addr.ip())),
        }
    }
}

/// Returns the error for an address, or `OutOfMemory` if there is no memory for its message.
fn invalid_ip(alloc: Global, ip: IpAddr) -> IceError
    ensures { RejectsWith (codes "Invalid IP: " ++ ip_text ip) result }
{
    match format!(in alloc; "Invalid IP: {ip}") {
        Ok(message) => IceError::BadCandidate(message),
        Err(_) => IceError::OutOfMemory,
    }
}

/// Returns the error for two IP versions, or `OutOfMemory` if there is no memory for its message.
fn mixed_versions(alloc: Global, addr: IpAddr, base: IpAddr) -> IceError
    ensures { RejectsWith (mixed_text addr base) result }
{
    let mixed = Mixed { addr, base };
    match format!(in alloc; "{mixed}") {
        Ok(message) => IceError::BadCandidate(message),
        Err(_) => IceError::OutOfMemory,
    }
}

#[derive(Clone, Copy)]
struct Mixed {
    addr: IpAddr,
    base: IpAddr,
}

impl fmt::Display for Mixed {
    ghost output = { λ m. Some (mixed_text m.addr m.base) };

    #[tactic(auto, unfolding(crate::specs::Building::mixed_text))]
    fn fmt<W: fmt::Write>(&self, f: &mut fmt::Formatter<W>) -> fmt::Result {
        let Mixed { addr, base } = *self;
        write!(f, "address IP version mismatch: addr={addr} base={base}")
    }
}
