//! Clients of servers: added.

ghost use Rattle.std.specs.Prelude.{◌≡◌, IfOk};
ghost use Rattle.is_c.specs.ServersHeld.{AtClients, SucceedsOr, With, clients_held, clients_of, ends_of};
ghost use Rattle.is_c.specs.ServersAdding.{AddsNew, AddsSigned, AddsStunAt, AddsTurnAt, IsNew, LIFETIME, MakesSigner, family_of, timing_over};

use crate::codes;
use crate::servers::ends::{Ends, ends_of};
use crate::servers::held::HeldServers;
use crate::servers::slot::ServersSlot;
use is_c_calls::Address;
use is_proto::{DefaultSha1HmacProvider, Instant};
use is_servers::Transport;
use is_stun::stun::AddressFamily;
use is_turn::{ClientTiming, Credentials, TurnClient};
use std::alloc::{AllocError, Global};

/// The number of UDP.
const UDP: u8 = 0;

fn add_stun(held: &mut HeldServers, now: u64, ends: Option<Ends>) -> i32
    ensures { With ends (AddsStunAt now) (clients_of held.old) result (clients_of held.new) }
{
    let Some(ends) = ends else {
        return codes::BAD_ADDRESS;
    };
    match held.servers.add_stun(Instant(now), ends.local, ends.remote) {
        Ok(()) => codes::OK,
        Err(_) => codes::OUT_OF_MEMORY,
    }
}

/// Adds a STUN client of a socket, over UDP, and starts it.
#[unsafe(no_mangle)]
pub extern "C" fn is_ice_servers_add_stun(
    alloc: Global,
    slot: &mut ServersSlot,
    now: u64,
    local: &Address,
    server: &Address,
) -> i32
    ensures { AtClients (With (ends_of 0 local.now server.now) (AddsStunAt now)) (clients_held slot.old) result (clients_held slot.new) }
{
    let Some(held) = slot.held() else {
        return codes::NO_SERVERS;
    };
    add_stun(held, now, ends_of(UDP, local, server))
}

// ---- a TURN client

/// The family of a relayed address that is requested, if one is. None: there is no such family.
fn family_of(number: u8) -> Option<Option<AddressFamily>>
    ensures { result ≡ family_of number }
{
    match number {
        0 => Some(None),
        4 => Some(Some(AddressFamily::Ipv4)),
        6 => Some(Some(AddressFamily::Ipv6)),
        _ => None,
    }
}

/// The long-term credentials of these texts, or the code that says why there are none. An empty USERNAME: without credentials.
fn credentials_of(username: &[u8], password: &[u8]) -> Result<Option<Credentials>, i32>
    ensures { MakesSigner username.now password.now result }
{
    let (Ok(name), Ok(pass)) = (std::str::from_utf8(username), std::str::from_utf8(password)) else {
        return Err(codes::NOT_UTF8);
    };
    if username.is_empty() {
        return Ok(None);
    }
    match Credentials::new(name, pass) {
        Some(credentials) => Ok(Some(credentials)),
        None => Err(codes::CREDENTIALS_TOO_LONG),
    }
}

/// When requests are sent again: over UDP sooner than RFC 8489 has it, over TCP never (RFC 8489, section 6.2.2).
fn timing_over(transport: Transport) -> ClientTiming
    ensures { result ≡ timing_over transport }
{
    match transport {
        Transport::Udp => ClientTiming::modern(),
        Transport::Tcp => ClientTiming::reliable(),
    }
}

/// The lifetime of an allocation that is requested, in seconds: the usual one (RFC 8656, section 3.2).
const LIFETIME: u32 = 600;

fn new_client(
    alloc: Global,
    ends: Ends,
    family: Option<AddressFamily>,
    places: usize,
    credentials: Option<Credentials>,
) -> Result<TurnClient<DefaultSha1HmacProvider>, AllocError>
    ensures { IfOk result (λ client. IsNew ends family places credentials client) }
{
    TurnClient::new(
        alloc,
        ends.remote,
        credentials,
        family,
        timing_over(ends.transport),
        LIFETIME,
        places,
        DefaultSha1HmacProvider,
    )
}

/// Makes a client, and adds it.
fn add_new(
    alloc: Global,
    held: &mut HeldServers,
    now: u64,
    ends: Ends,
    family: Option<AddressFamily>,
    places: usize,
    credentials: Option<Credentials>,
) -> i32
    ensures { SucceedsOr (AddsNew now ends family places credentials) (clients_of held.old) result (clients_of held.new) }
{
    let Ok(client) = new_client(alloc, ends, family, places, credentials) else {
        return codes::OUT_OF_MEMORY;
    };
    match held
        .servers
        .add_turn(Instant(now), ends.transport, ends.local, client)
    {
        Ok(()) => codes::OK,
        Err(_) => codes::OUT_OF_MEMORY,
    }
}

fn add_signed(
    alloc: Global,
    held: &mut HeldServers,
    now: u64,
    ends: Ends,
    family: Option<AddressFamily>,
    places: usize,
    username: &[u8],
    password: &[u8],
) -> i32
    ensures { AddsSigned now ends family places username.now password.now (clients_of held.old) result (clients_of held.new) }
{
    match credentials_of(username, password) {
        Ok(credentials) => add_new(alloc, held, now, ends, family, places, credentials),
        Err(code) => code,
    }
}

fn add_turn(
    alloc: Global,
    held: &mut HeldServers,
    now: u64,
    ends: Option<Ends>,
    family: u8,
    places: usize,
    username: &[u8],
    password: &[u8],
) -> i32
    ensures { AddsTurnAt now ends family places username.now password.now (clients_of held.old) result (clients_of held.new) }
{
    match (ends, family_of(family)) {
        (Some(ends), Some(family)) => add_signed(
            alloc, held, now, ends, family, places, username, password,
        ),
        _ => codes::BAD_ADDRESS,
    }
}

/// Adds a TURN client of a socket or connection, and starts it.
#[unsafe(no_mangle)]
pub extern "C" fn is_ice_servers_add_turn(
    alloc: Global,
    slot: &mut ServersSlot,
    now: u64,
    protocol: u8,
    local: &Address,
    server: &Address,
    family: u8,
    places: usize,
    username: &[u8],
    password: &[u8],
) -> i32
    ensures { AtClients (AddsTurnAt now (ends_of protocol local.now server.now) family places username.now password.now) (clients_held slot.old)
        result (clients_held slot.new) }
{
    let Some(held) = slot.held() else {
        return codes::NO_SERVERS;
    };
    add_turn(
        alloc,
        held,
        now,
        ends_of(protocol, local, server),
        family,
        places,
        username,
        password,
    )
}
