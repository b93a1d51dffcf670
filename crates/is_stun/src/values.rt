//! The ranges that the types of a message's values imply. These functions compute nothing.

ghost use Rattle.std.specs.Prelude.{◌<◌, ◌^◌, ℕ, slice_index, IfSome};
ghost use Rattle.std.specs.Option.{option_copied, option_map};
ghost use Rattle.std.specs.Str.{IsUtf8};
ghost use Rattle.is_stun.specs.ErrorCodeView.{error_view};
ghost use Rattle.is_stun.specs.MessageView.{attributes_view};
ghost use Rattle.is_stun.specs.Theorems.{IsId, IsChannelNumber, IsPlainAddress, HasReadableValues, plain_address, plain_attributes};

use crate::attributes::Attributes;
use crate::trans_id::TransId;
use std::net::SocketAddr;

fn text_fits(text: Option<&str>)
    ensures { IfSome (option_copied text.entry) IsUtf8 }
{
    if let Some(text) = text {
        let _len = text.len();
    }
}

fn reason_fits(error: Option<(u16, &str)>)
    ensures { IfSome (error_view error.entry) (λ e. IsUtf8 e.1) }
{
    if let Some((_, reason)) = error {
        let _len = reason.len();
    }
}

fn number32_fits(number: Option<u32>)
    ensures { IfSome number (λ n. n < 2 ^ 32) }
{
    if let Some(n) = number {
        let _next = n.wrapping_add(1);
    }
}

fn number64_fits(number: Option<u64>)
    ensures { IfSome number (λ n. n < 2 ^ 64) }
{
    if let Some(n) = number {
        let _next = n.wrapping_add(1);
    }
}

fn cost_fits(cost: Option<(u16, u16)>)
    ensures { IfSome cost (λ c. (c.0 < 2 ^ 16) × (c.1 < 2 ^ 16)) }
{
    if let Some((network, cost)) = cost {
        let _next = (network.wrapping_add(1), cost.wrapping_add(1));
    }
}

/// Every byte is below 256.
fn bytes_fit(bytes: &[u8])
    ensures { (k : ℕ) → slice_index bytes.now k < 2 ^ 8 }
{
    let _len = bytes.len();
}

/// Every 16-bit number is below 65536.
fn pairs_fit(pairs: &[u16])
    ensures { (k : ℕ) → slice_index pairs.now k < 2 ^ 16 }
{
    let _len = pairs.len();
}

pub(crate) fn id_fits(id: TransId)
    ensures { IsId id.0 }
{
    bytes_fit(&id.0);
}

fn socket_fits(address: SocketAddr)
    ensures { IsPlainAddress (plain_address address) }
{
    match address {
        SocketAddr::V4(a) => {
            bytes_fit(&a.ip().octets());
            let _port = a.port();
        }
        SocketAddr::V6(a) => {
            pairs_fit(&a.ip().segments());
            let _port = a.port();
        }
    }
}

fn address_fits(address: Option<SocketAddr>)
    ensures { IfSome (option_map plain_address address) IsPlainAddress }
{
    if let Some(address) = address {
        socket_fits(address);
    }
}

/// The values are such as an encoded message can carry, except a channel number out of range.
pub(crate) fn values_fit(attrs: &Attributes<'_>)
    ensures { IfSome (attributes_view attrs.now).channel_number IsChannelNumber → HasReadableValues (plain_attributes (attributes_view attrs.now)) }
{
    text_fits(attrs.username);
    reason_fits(attrs.error_code);
    number32_fits(attrs.lifetime);
    address_fits(attrs.xor_peer_address);
    text_fits(attrs.realm);
    text_fits(attrs.nonce);
    address_fits(attrs.xor_relayed_address);
    address_fits(attrs.xor_mapped_address);
    text_fits(attrs.software);
    number32_fits(attrs.priority);
    number64_fits(attrs.ice_controlled);
    number64_fits(attrs.ice_controlling);
    cost_fits(attrs.network_cost);
    number32_fits(attrs.nomination);
}
