//! The URLs of servers, as C reads them.

ghost use Rattle.std.specs.Prelude.{◌≡◌};
ghost use Rattle.std.specs.Option.{option_map};
ghost use Rattle.is_servers.specs.Urls.{url_view};
ghost use Rattle.is_c.specs.ServerUrls.{scheme_number, protocol_number, flat_of, PutsUrl, ReturnsUrl};

use crate::codes;
use crate::servers::places::place_from;
use is_servers::{Scheme, ServerUrl, Transport, server_url};

/// What the URL of a server says. The host is a part of its text.
#[repr(C)]
#[derive(Clone, Copy)]
pub struct Url {
    pub host_start: usize,
    pub host_length: usize,
    pub port: u16,
    pub scheme: u8,
    pub protocol: u8,
}

fn scheme_number(scheme: Scheme) -> u8
    ensures { result ≡ scheme_number scheme }
{
    match scheme {
        Scheme::Stun => 0,
        Scheme::Turn => 1,
    }
}

/// The number of the protocol: UDP, TCP or TLS.
fn protocol_number(is_secure: bool, transport: Transport) -> u8
    ensures { result ≡ protocol_number is_secure transport }
{
    if is_secure {
        return 3;
    }
    match transport {
        Transport::Udp => 0,
        Transport::Tcp => 1,
    }
}

fn flat_of(url: &ServerUrl<'_>, host_start: usize) -> Url
    ensures { result ≡ flat_of (url_view url.now) host_start }
{
    Url {
        host_start,
        host_length: url.host.len(),
        port: url.port,
        scheme: scheme_number(url.scheme),
        protocol: protocol_number(url.is_secure, url.transport),
    }
}

/// How many bytes come before the host at least: a scheme and its colon.
const SCHEME_LEN: usize = 5;

/// Writes what the URL says, if the text is one.
fn put_url(text: &[u8], read: Option<ServerUrl<'_>>, url: &mut Url) -> i32
    ensures { PutsUrl text.now (option_map url_view read.entry) url.old url.new result }
{
    let Some(read) = read else {
        return codes::BAD_URL;
    };
    match place_from(text, read.host.as_bytes(), SCHEME_LEN) {
        Some(host_start) => {
            *url = flat_of(&read, host_start);
            codes::OK
        }
        None => codes::BAD_URL,
    }
}

/// Reads the URL of a STUN or TURN server.
#[unsafe(no_mangle)]
pub extern "C" fn is_ice_server_url_of(text: &[u8], url: &mut Url) -> i32
    ensures { ReturnsUrl text.now url.old url.new result }
{
    let Ok(words) = std::str::from_utf8(text) else {
        return codes::NOT_UTF8;
    };
    put_url(text, server_url(words), url)
}
