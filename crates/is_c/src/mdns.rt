//! mDNS names in place of the address of a candidate (draft-ietf-mmusic-mdns-ice-candidates).
ghost use Rattle.std.specs.Prelude.{◌≡◌, ◌++◌, ◌↔◌, ℕ, List, codes, IfOk, IsTrue, string_bytes, if◌then◌else◌};
ghost use Rattle.std.specs.Option.{option_copied};
ghost use Rattle.std.specs.Net.Text.{ip_text};
ghost use Rattle.is_candidate.specs.Words.{HasWords};
ghost use Rattle.is_c.specs.Mdns.{spaced, with_nth, HasNth, IsLocalName, HasName, Addresses, AddressesBytes, ReturnsName, ReturnsAddressed};
ghost use Rattle.is_c.specs.Mdns.{ReturnsAddressedFields};

use crate::address::socket_of;
use crate::codes;
use crate::fields::{Fields, put_made_fields};
use crate::lines::put_made;
use crate::text::put;
use is_c_calls::Address;
use is_candidate::Candidate;
use is_proto::IceError;
use std::alloc::{AllocError, Global};
use std::net::IpAddr;

/// What a candidate attribute begins with. Its words follow.
const PREFIX: &str = "candidate:";

/// The place of the address among the words, counted from 1.
const ADDRESS: usize = 5;

fn fifth_word(text: &str) -> Option<&str>
    ensures { HasNth 4 text.now (option_copied result) }
{
    let mut words = text.split_whitespace();
    words.next()?;
    words.next()?;
    words.next()?;
    words.next()?;
    words.next()
}

/// Whether the word ends with `.local`, in any case.
fn is_local_name(word: &str) -> bool
    ensures { IsTrue result ↔ IsLocalName word.now }
{
    let bytes = word.as_bytes();
    bytes[bytes.len().saturating_sub(6)..].eq_ignore_ascii_case(b".local")
}

fn name_in(text: &str) -> Option<&str>
    ensures { HasName text.now (option_copied result) }
{
    let word = fifth_word(text.strip_prefix(PREFIX)?)?;
    if is_local_name(word) {
        Some(word)
    } else {
        None
    }
}

/// Writes the mDNS name that a candidate attribute has in place of an address. NOTHING: it has none.
#[unsafe(no_mangle)]
pub extern "C" fn is_ice_line_name(line: &[u8], buffer: &mut [u8], length: &mut usize) -> i32
    ensures { ReturnsName line.now buffer.old length.old result buffer.new length.new }
{
    let Ok(text) = std::str::from_utf8(line) else {
        return codes::NOT_UTF8;
    };
    match name_in(text) {
        Some(name) => put(name.as_bytes(), buffer, length),
        None => codes::NOTHING,
    }
}

/// Appends a space, and the word or the address in its place.
fn push_word(text: &mut String, word: &str, ip: IpAddr, is_replaced: bool) -> Result<(), AllocError>
    ensures { IfOk result (λ _. string_bytes text.new ≡
        string_bytes text.old ++ codes " " ++ (if is_replaced then ip_text ip else word.now)) }
{
    text.push(' ')?;
    if is_replaced {
        write!(text, "{ip}")?;
        Ok(())
    } else {
        text.push_str(word)
    }
}

/// The candidate attribute with these words, each after a space, but with the address in place of the fifth.
fn with_ip(alloc: Global, words: &str, ip: IpAddr) -> Result<String, AllocError>
    ensures { IfOk result (λ text. (ws : List (List ℕ)) × HasWords words.now ws
        × (string_bytes text ≡ codes "candidate:" ++ spaced (with_nth 5 (ip_text ip) ws))) }
{
    let mut text = String::from_str(alloc, PREFIX)?;
    let mut left = ADDRESS;
    for word in words.split_whitespace() {
        push_word(&mut text, word, ip, left == 1)?;
        left = left.saturating_sub(1);
    }
    Ok(text)
}

fn addressed(alloc: Global, text: &str, ip: IpAddr) -> Result<Candidate, IceError>
    ensures { Addresses text.now ip result }
{
    match text.strip_prefix(PREFIX) {
        Some(words) => {
            let line = with_ip(alloc, words, ip)?;
            Candidate::from_sdp_string(alloc, line.as_str())
        }
        None => Candidate::from_sdp_string(alloc, text),
    }
}

fn addressed_line(alloc: Global, line: &[u8], ip: IpAddr) -> Option<Result<Candidate, IceError>>
    ensures { AddressesBytes line.now ip result }
{
    match std::str::from_utf8(line) {
        Ok(text) => Some(addressed(alloc, text, ip)),
        Err(_) => None,
    }
}

/// Writes the candidate attribute again, with this IP address in place of its own, or of the name that it has there.
#[unsafe(no_mangle)]
pub extern "C" fn is_ice_line_with_address(
    alloc: Global,
    line: &[u8],
    address: &Address,
    buffer: &mut [u8],
    length: &mut usize,
) -> i32
    ensures { ReturnsAddressed line.now address.now buffer.old length.old result buffer.new length.new }
{
    let Some(socket) = socket_of(address) else {
        return codes::BAD_ADDRESS;
    };
    let made = addressed_line(alloc, line, socket.ip());
    put_made(alloc, &made, codes::NOT_UTF8, buffer, length)
}

/// Writes the candidate attribute again, with this IP address in place of its own, or of the name that it has there, and its fields.
#[unsafe(no_mangle)]
pub extern "C" fn is_ice_line_with_address_fields(
    alloc: Global,
    line: &[u8],
    address: &Address,
    buffer: &mut [u8],
    length: &mut usize,
    fields: &mut Fields,
) -> i32
    ensures { ReturnsAddressedFields line.now address.now buffer.old length.old fields.old result buffer.new length.new fields.new }
{
    let Some(socket) = socket_of(address) else {
        return codes::BAD_ADDRESS;
    };
    let made = addressed_line(alloc, line, socket.ip());
    put_made_fields(alloc, &made, codes::NOT_UTF8, buffer, length, fields)
}
