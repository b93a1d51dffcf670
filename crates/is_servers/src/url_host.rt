//! The host and the port in the URL of a server (RFC 3986, sections 2, 3.2.2 and 3.2.3).

ghost use Rattle.std.specs.Prelude.{◌≡◌, Bool, MatchBool};
ghost use Rattle.std.specs.Option.{option_map};
ghost use Rattle.std.specs.Net.Grammar.{IsIpv6Text};
ghost use Rattle.std.specs.declared.net.ipv6_addr.Ipv6Addr.{Ipv6Addr as RawIpv6Addr};
ghost use Rattle.is_servers.specs.Hosts.{is_empty, split_at, at_start, is_digit, is_alpha, is_hex_digit, is_unreserved, is_sub_delimiter, digits_due, name_step, is_whole, is_name, digit_added, port_step, port_of, digits_after, in_brackets, named, before_bracket, bracketed, place_of, IsV6If};

use std::net::Ipv6Addr;

/// The base of the number of a port.
const TEN: u32 = 10;

// ---- parts of a text

/// Returns the text before the first colon, and after it, if there is one.
pub(crate) fn split_at_colon(text: &str) -> Option<(&str, &str)>
    ensures { option_map (λ parts. (parts.0.now, parts.1.now)) result ≡ split_at 58 text.now }
{
    text.split_once(':')
}

/// Returns the text before the first question mark, and after it, if there is one.
pub(crate) fn split_at_question_mark(text: &str) -> Option<(&str, &str)>
    ensures { option_map (λ parts. (parts.0.now, parts.1.now)) result ≡ split_at 63 text.now }
{
    text.split_once('?')
}

fn split_at_open_bracket(text: &str) -> Option<(&str, &str)>
    ensures { option_map (λ parts. (parts.0.now, parts.1.now)) result ≡ split_at 91 text.now }
{
    text.split_once('[')
}

fn split_at_close_bracket(text: &str) -> Option<(&str, &str)>
    ensures { option_map (λ parts. (parts.0.now, parts.1.now)) result ≡ split_at 93 text.now }
{
    text.split_once(']')
}

/// Returns what follows a character at the start, given the text before and after the first one.
fn at_start<'a>(parts: Option<(&'a str, &'a str)>) -> Option<&'a str>
    ensures { option_map (λ rest. rest.now) result ≡ at_start (option_map (λ parts. (parts.0.now, parts.1.now)) parts.entry) }
{
    match parts {
        Some((before, rest)) => { if before.is_empty() { Some(rest) } else { None } }
        None => None,
    }
}

// ---- names

fn is_digit(byte: u8) -> bool
    ensures { result ≡ is_digit byte }
{
    b'0' <= byte && byte <= b'9'
}

fn is_alpha(byte: u8) -> bool
    ensures { result ≡ is_alpha byte }
{
    (b'A' <= byte && byte <= b'Z') || (b'a' <= byte && byte <= b'z')
}

fn is_hex_digit(byte: u8) -> bool
    ensures { result ≡ is_hex_digit byte }
{
    is_digit(byte) || (b'A' <= byte && byte <= b'F') || (b'a' <= byte && byte <= b'f')
}

/// Whether the byte is a letter, a digit, or one of `-._~`.
fn is_unreserved(byte: u8) -> bool
    ensures { result ≡ is_unreserved byte }
{
    is_alpha(byte) || is_digit(byte) || byte == b'-' || byte == b'.' || byte == b'_' || byte == b'~'
}

/// Whether the byte is one of `!$&'()*+,;=`.
fn is_sub_delimiter(byte: u8) -> bool
    ensures { result ≡ is_sub_delimiter byte }
{
    byte == b'!' || byte == b'$' || (b'&' <= byte && byte <= b',') || byte == b';' || byte == b'='
}

/// Returns how many hexadecimal digits are due after the next character: two after a percent sign. `None`: the text is no name.
fn digits_due(due: u8, byte: u8) -> Option<u8>
    ensures { result ≡ digits_due due byte }
{
    if 0 < due {
        if is_hex_digit(byte) {
            Some(due - 1)
        } else {
            None
        }
    } else if byte == b'%' {
        Some(2)
    } else if is_unreserved(byte) || is_sub_delimiter(byte) {
        Some(0)
    } else {
        None
    }
}

fn name_step(due: Option<u8>, byte: u8) -> Option<u8>
    ensures { result ≡ name_step due byte }
{
    match due {
        Some(due) => digits_due(due, byte),
        None => None,
    }
}

fn is_whole(due: Option<u8>) -> bool
    ensures { result ≡ is_whole due }
{
    match due {
        Some(due) => due == 0,
        None => false,
    }
}

/// Whether the bytes are a name.
fn is_name(bytes: &[u8]) -> bool
    ensures { result ≡ is_name bytes.now }
{
    let mut due = Some(0);
    for byte in bytes {
        due = name_step(due, *byte);
    }
    is_whole(due)
}

// ---- ports

/// Returns the number with one more digit, if it is below 2^16.
fn digit_added(number: u16, byte: u8) -> Option<u16>
    ensures { result ≡ digit_added number byte }
{
    if !is_digit(byte) {
        return None;
    }
    let next = u32::from(number) * TEN + u32::from(byte - b'0');
    if next < 65536 {
        Some(next as u16)
    } else {
        None
    }
}

fn port_step(number: Option<u16>, byte: u8) -> Option<u16>
    ensures { result ≡ port_step number byte }
{
    match number {
        Some(number) => digit_added(number, byte),
        None => None,
    }
}

/// Returns the number of a port, given its digits: the usual one if there is none. No server has the port 0.
pub(crate) fn port_of(usual: u16, digits: &[u8]) -> Option<u16>
    ensures { result ≡ port_of usual digits.now }
{
    if digits.is_empty() {
        return Some(usual);
    }
    let mut number = Some(0);
    for byte in digits {
        number = port_step(number, *byte);
    }
    match number {
        Some(number) => { if number == 0 { None } else { Some(number) } }
        None => None,
    }
}

// ---- the host, and the digits of the port

/// Returns the digits of the port after a bracket: after a colon, or none.
fn digits_after(text: &str) -> Option<&str>
    ensures { option_map (λ digits. digits.now) result ≡ digits_after text.now }
{
    if text.is_empty() {
        Some(text)
    } else {
        at_start(split_at_colon(text))
    }
}

/// Whether the text is that of an IPv6 address.
fn is_v6(text: &str) -> bool
    ensures { MatchBool result ((a : RawIpv6Addr) × IsIpv6Text text.now a) ((a : RawIpv6Addr) → ¬ (IsIpv6Text text.now a)) }
{
    match text.parse::<Ipv6Addr>() {
        Ok(_) => true,
        Err(_) => false,
    }
}

/// Returns the IPv6 address before a bracket, and the digits of the port after it.
fn in_brackets(text: &str) -> Option<(&str, &str)>
    ensures { (v6 : Bool) × IsV6If (before_bracket text.now) v6
        × (option_map (λ parts. (parts.0.now, parts.1.now)) result ≡ in_brackets v6 (split_at 93 text.now)) }
{
    let (host, after) = split_at_close_bracket(text)?;
    if is_v6(host) {
        let digits = digits_after(after)?;
        Some((host, digits))
    } else {
        None
    }
}

/// Returns the host and the digits of the port, if the host is a name.
fn named<'a>(host: &'a str, digits: &'a str) -> Option<(&'a str, &'a str)>
    ensures { option_map (λ parts. (parts.0.now, parts.1.now)) result ≡ named host.now digits.now }
{
    if !host.is_empty() && is_name(host.as_bytes()) {
        Some((host, digits))
    } else {
        None
    }
}

/// Returns the host, and the digits of the port: none if there is no port.
pub(crate) fn place_of(text: &str) -> Option<(&str, &str)>
    ensures { (v6 : Bool) × IsV6If (bracketed text.now) v6 × (option_map (λ parts. (parts.0.now, parts.1.now)) result ≡ place_of v6 text.now) }
{
    if let Some(rest) = at_start(split_at_open_bracket(text)) {
        return in_brackets(rest);
    }
    match split_at_colon(text) {
        Some((host, digits)) => named(host, digits),
        None => named(text, ""),
    }
}
