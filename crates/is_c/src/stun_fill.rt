//! The attributes of a STUN message, put into a builder: each that is set.

ghost use Rattle.std.specs.Prelude.{◌≡◌, None, IsTrue, true, false};
ghost use Rattle.std.specs.Option.{option_copied, option_or};
ghost use Rattle.is_stun.specs.Builder.{attributes_so_far, kind_so_far};
ghost use Rattle.is_stun.specs.Message.{no_attributes};
ghost use Rattle.is_c_calls.specs.Addresses.{socket_of};
ghost use Rattle.is_c.specs.StunMessage.{number_in};
ghost use Rattle.is_c.specs.StunWrite.{is_above, has_bad_number, cost_in};
ghost use Rattle.is_c.specs.StunFill.{error_of, Sets, numbers_set, addresses_set, words_set};

use crate::address::socket_of;
use crate::stun_message::{Message, Number};
use crate::stun_texts::Words;
use is_stun::stun::{Builder, HasClass};
use std::net::SocketAddr;

type Begun<'a> = Builder<'a, HasClass>;

// ---- numbers

fn number(number: &Number) -> Option<u64>
    ensures { result ≡ number_in number.now }
{
    if number.is_set {
        Some(number.value)
    } else {
        None
    }
}

fn number32(number: &Number) -> Option<u32>
    requires { is_above 0xFFFFFFFF number.now ≡ false }
    ensures { result ≡ number_in number.now }
{
    if number.is_set {
        Some(number.value as u32)
    } else {
        None
    }
}

fn number16(number: &Number) -> Option<u16>
    requires { is_above 0xFFFF number.now ≡ false }
    ensures { result ≡ number_in number.now }
{
    if number.is_set {
        Some(number.value as u16)
    } else {
        None
    }
}

fn network_cost(message: &Message) -> Option<(u16, u16)>
    requires { has_bad_number message.now ≡ false }
    ensures { result ≡ cost_in message.now }
{
    match (
        number16(&message.network_id),
        number16(&message.network_cost),
    ) {
        (Some(network), Some(cost)) => Some((network, cost)),
        _ => None,
    }
}

fn with_priority<'a>(to: Begun<'a>, value: Option<u32>) -> Begun<'a>
    ensures { Sets (λ a. record a { priority = option_or value a.priority }) to.entry result }
{
    match value {
        Some(value) => to.prio(value),
        None => to,
    }
}

fn with_controlled<'a>(to: Begun<'a>, value: Option<u64>) -> Begun<'a>
    ensures { Sets (λ a. record a { ice_controlled = option_or value a.ice_controlled }) to.entry result }
{
    match value {
        Some(value) => to.ice_controlled(value),
        None => to,
    }
}

fn with_controlling<'a>(to: Begun<'a>, value: Option<u64>) -> Begun<'a>
    ensures { Sets (λ a. record a { ice_controlling = option_or value a.ice_controlling }) to.entry result }
{
    match value {
        Some(value) => to.ice_controlling(value),
        None => to,
    }
}

fn with_lifetime<'a>(to: Begun<'a>, value: Option<u32>) -> Begun<'a>
    ensures { Sets (λ a. record a { lifetime = option_or value a.lifetime }) to.entry result }
{
    match value {
        Some(value) => to.lifetime(value),
        None => to,
    }
}

fn with_channel_number<'a>(to: Begun<'a>, value: Option<u16>) -> Begun<'a>
    ensures { Sets (λ a. record a { channel_number = option_or value a.channel_number }) to.entry result }
{
    match value {
        Some(value) => to.channel_number(value),
        None => to,
    }
}

fn with_network_cost<'a>(to: Begun<'a>, value: Option<(u16, u16)>) -> Begun<'a>
    ensures { Sets (λ a. record a { network_cost = option_or value a.network_cost }) to.entry result }
{
    match value {
        Some((network, cost)) => to.network_cost(network, cost),
        None => to,
    }
}

fn with_nomination<'a>(to: Begun<'a>, value: Option<u32>) -> Begun<'a>
    ensures { Sets (λ a. record a { nomination = option_or value a.nomination }) to.entry result }
{
    match value {
        Some(value) => to.nomination(value),
        None => to,
    }
}

/// Puts all numbers except that of ERROR-CODE into the builder, and USE-CANDIDATE.
fn with_numbers<'a>(to: Begun<'a>, message: &Message) -> Begun<'a>
    requires { has_bad_number message.now ≡ false }
    ensures { Sets (numbers_set message.now) to.entry result }
{
    let to = with_priority(to, number32(&message.priority));
    let to = with_controlled(to, number(&message.controlled));
    let to = with_controlling(to, number(&message.controlling));
    let to = with_lifetime(to, number32(&message.lifetime));
    let to = with_channel_number(to, number16(&message.channel_number));
    let to = with_network_cost(to, network_cost(message));
    let to = with_nomination(to, number32(&message.nomination));
    if message.use_candidate {
        to.use_candidate()
    } else {
        to
    }
}

// ---- addresses

fn with_mapped<'a>(to: Begun<'a>, value: Option<SocketAddr>) -> Begun<'a>
    ensures { Sets (λ a. record a { xor_mapped_address = option_or value a.xor_mapped_address }) to.entry result }
{
    match value {
        Some(value) => to.xor_mapped_address(value),
        None => to,
    }
}

fn with_peer<'a>(to: Begun<'a>, value: Option<SocketAddr>) -> Begun<'a>
    ensures { Sets (λ a. record a { xor_peer_address = option_or value a.xor_peer_address }) to.entry result }
{
    match value {
        Some(value) => to.xor_peer_address(value),
        None => to,
    }
}

fn with_relayed<'a>(to: Begun<'a>, value: Option<SocketAddr>) -> Begun<'a>
    ensures { Sets (λ a. record a { xor_relayed_address = option_or value a.xor_relayed_address }) to.entry result }
{
    match value {
        Some(value) => to.xor_relayed_address(value),
        None => to,
    }
}

/// Puts the addresses into the builder.
fn with_addresses<'a>(to: Begun<'a>, message: &Message) -> Begun<'a>
    ensures { Sets (addresses_set message.now) to.entry result }
{
    let to = with_mapped(to, socket_of(&message.mapped));
    let to = with_peer(to, socket_of(&message.peer));
    with_relayed(to, socket_of(&message.relayed))
}

// ---- texts

fn with_username<'a>(to: Begun<'a>, value: Option<&'a str>) -> Begun<'a>
    ensures { Sets (λ a. record a { username = option_or (option_copied value.entry) a.username }) to.entry result }
{
    match value {
        Some(value) => to.username(value),
        None => to,
    }
}

fn with_realm<'a>(to: Begun<'a>, value: Option<&'a str>) -> Begun<'a>
    ensures { Sets (λ a. record a { realm = option_or (option_copied value.entry) a.realm }) to.entry result }
{
    match value {
        Some(value) => to.realm(value),
        None => to,
    }
}

fn with_nonce<'a>(to: Begun<'a>, value: Option<&'a str>) -> Begun<'a>
    ensures { Sets (λ a. record a { nonce = option_or (option_copied value.entry) a.nonce }) to.entry result }
{
    match value {
        Some(value) => to.nonce(value),
        None => to,
    }
}

fn with_software<'a>(to: Begun<'a>, value: Option<&'a str>) -> Begun<'a>
    ensures { Sets (λ a. record a { software = option_or (option_copied value.entry) a.software }) to.entry result }
{
    match value {
        Some(value) => to.software(value),
        None => to,
    }
}

fn with_data<'a>(to: Begun<'a>, value: Option<&'a [u8]>) -> Begun<'a>
    ensures { Sets (λ a. record a { «data» = option_or (option_copied value.entry) a.«data» }) to.entry result }
{
    match value {
        Some(value) => to.data(value),
        None => to,
    }
}

fn with_error<'a>(to: Begun<'a>, code: Option<u16>, reason: Option<&'a str>) -> Begun<'a>
    ensures { Sets (λ a. record a { error_code = option_or (error_of code (option_copied reason.entry)) a.error_code }) to.entry result }
{
    match (code, reason) {
        (Some(code), Some(reason)) => to.error_code(code, reason),
        (Some(code), None) => to.error_code(code, ""),
        (None, _) => to,
    }
}

/// Puts the texts into the builder, and ERROR-CODE.
fn with_words<'a>(to: Begun<'a>, message: &Message, words: &Words<'a>) -> Begun<'a>
    requires { has_bad_number message.now ≡ false }
    ensures { Sets (words_set message.now words.now) to.entry result }
{
    let to = with_username(to, words.username);
    let to = with_error(to, number16(&message.error_code), words.reason);
    let to = with_data(to, words.data);
    let to = with_realm(to, words.realm);
    let to = with_nonce(to, words.nonce);
    with_software(to, words.software)
}

/// Puts all that is set into an empty builder.
pub(crate) fn filled<'a>(to: Begun<'a>, message: &Message, words: &Words<'a>) -> Begun<'a>
    requires numbers { has_bad_number message.now ≡ false }
    requires empty { attributes_so_far to ≡ no_attributes }
    ensures kind { kind_so_far result ≡ kind_so_far to.entry }
    ensures attributes { attributes_so_far result
        ≡ words_set message.now words.now (addresses_set message.now (numbers_set message.now no_attributes)) }
{
    let to = with_numbers(to, message);
    let to = with_addresses(to, message);
    with_words(to, message, words)
}
