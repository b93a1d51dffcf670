//! The attributes of a message in the order in which they are written.

ghost use Rattle.std.specs.Prelude.{◌≡◌, ◌∷◌, [], map};
ghost use Rattle.std.specs.Option.{option_copied, option_map};
ghost use Rattle.std.specs.Int.{w32, w64, to_be_bytes};
ghost use Rattle.is_stun.specs.Writing.{row, if_set, channel_value, network_cost_value};
ghost use Rattle.is_stun.specs.ErrorCodeView.{error_bytes};
ghost use Rattle.is_stun.specs.MessageView.{attributes_view};
ghost use Rattle.is_stun.specs.RowView.{row_view, rows_in};
ghost use Rattle.is_stun.specs.Address.{xor_address};
ghost use Rattle.is_stun.specs.AddressView.{xor_bytes};

use crate::address::XorAddress;
use crate::attributes::Attributes;
use crate::error_code::ErrorValue;
use crate::numbers::{
    CHANNEL_NUMBER, DATA, ERROR_CODE, ICE_CONTROLLED, ICE_CONTROLLING, LIFETIME, NETWORK_COST,
    NOMINATION, NONCE, PRIORITY, REALM, SOFTWARE, USE_CANDIDATE, USERNAME, XOR_MAPPED_ADDRESS,
    XOR_PEER_ADDRESS, XOR_RELAYED_ADDRESS,
};
use crate::writing::Row;
use std::net::SocketAddr;

/// The values whose bytes are not stored in the message itself.
#[derive(Drop)]
pub(crate) struct Values {
    controlled: Option<[u8; 8]>,
    controlling: Option<[u8; 8]>,
    priority: Option<[u8; 4]>,
    mapped_address: Option<XorAddress>,
    relayed_address: Option<XorAddress>,
    peer_address: Option<XorAddress>,
    channel_number: Option<[u8; 4]>,
    lifetime: Option<[u8; 4]>,
    network_cost: Option<[u8; 4]>,
    nomination: Option<[u8; 4]>,
}

fn u64_bytes(number: Option<u64>) -> Option<[u8; 8]>
    ensures { result ≡ option_map (to_be_bytes w64) number }
{
    match number {
        Some(n) => Some(n.to_be_bytes()),
        None => None,
    }
}

fn u32_bytes(number: Option<u32>) -> Option<[u8; 4]>
    ensures { result ≡ option_map (to_be_bytes w32) number }
{
    match number {
        Some(n) => Some(n.to_be_bytes()),
        None => None,
    }
}

#[inline(always)]
fn address_bytes(address: Option<SocketAddr>, id: &[u8; 12]) -> Option<XorAddress>
    ensures { option_map xor_bytes result ≡ option_map (xor_address id.now) address }
{
    match address {
        Some(address) => Some(XorAddress::new(address, id)),
        None => None,
    }
}

fn channel_bytes(number: Option<u16>) -> Option<[u8; 4]>
    ensures { result ≡ option_map channel_value number }
{
    match number {
        Some(number) => {
            let [high, low] = number.to_be_bytes();
            Some([high, low, 0, 0])
        }
        None => None,
    }
}

fn cost_bytes(network_cost: Option<(u16, u16)>) -> Option<[u8; 4]>
    ensures { result ≡ option_map network_cost_value network_cost }
{
    match network_cost {
        Some((network, cost)) => {
            let [n0, n1] = network.to_be_bytes();
            let [c0, c1] = cost.to_be_bytes();
            Some([n0, n1, c0, c1])
        }
        None => None,
    }
}

impl Values {
    #[inline(always)]
    pub(crate) fn of(attrs: &Attributes<'_>, id: &[u8; 12]) -> Values
        ensures controlled { result.controlled ≡ option_map (to_be_bytes w64) attrs.now.ice_controlled }
        ensures controlling { result.controlling ≡ option_map (to_be_bytes w64) attrs.now.ice_controlling }
        ensures priority { result.priority ≡ option_map (to_be_bytes w32) attrs.now.priority }
        ensures mapped { option_map xor_bytes result.mapped_address ≡ option_map (xor_address id.now) attrs.now.xor_mapped_address }
        ensures relayed { option_map xor_bytes result.relayed_address ≡ option_map (xor_address id.now) attrs.now.xor_relayed_address }
        ensures peer { option_map xor_bytes result.peer_address ≡ option_map (xor_address id.now) attrs.now.xor_peer_address }
        ensures channel { result.channel_number ≡ option_map channel_value attrs.now.channel_number }
        ensures lifetime { result.lifetime ≡ option_map (to_be_bytes w32) attrs.now.lifetime }
        ensures cost { result.network_cost ≡ option_map network_cost_value attrs.now.network_cost }
        ensures nomination { result.nomination ≡ option_map (to_be_bytes w32) attrs.now.nomination }
    {
        Values {
            controlled: u64_bytes(attrs.ice_controlled),
            controlling: u64_bytes(attrs.ice_controlling),
            priority: u32_bytes(attrs.priority),
            mapped_address: address_bytes(attrs.xor_mapped_address, id),
            relayed_address: address_bytes(attrs.xor_relayed_address, id),
            peer_address: address_bytes(attrs.xor_peer_address, id),
            channel_number: channel_bytes(attrs.channel_number),
            lifetime: u32_bytes(attrs.lifetime),
            network_cost: cost_bytes(attrs.network_cost),
            nomination: u32_bytes(attrs.nomination),
        }
    }
}

fn text_row<'a>(code: u16, text: Option<&'a str>) -> Row<'a>
    ensures { row_view result ≡ row code (option_copied text.entry) }
{
    Row {
        code,
        value: match text {
            Some(text) => Some(text.as_bytes()),
            None => None,
        },
    }
}

fn bytes_row<'a>(code: u16, value: Option<&'a [u8]>) -> Row<'a>
    ensures { row_view result ≡ row code (option_copied value.entry) }
{
    Row { code, value }
}

pub(crate) fn array_row<const N: usize>(code: u16, bytes: &Option<[u8; N]>) -> Row<'_>
    ensures { row_view result ≡ row code bytes.now }
{
    Row {
        code,
        value: match bytes {
            Some(bytes) => Some(bytes.as_slice()),
            None => None,
        },
    }
}

fn address_row(code: u16, value: &Option<XorAddress>) -> Row<'_>
    ensures { row_view result ≡ row code (option_map xor_bytes value.now) }
{
    Row {
        code,
        value: match value {
            Some(value) => Some(value.as_slice()),
            None => None,
        },
    }
}

fn error_row<'a>(value: Option<&'a ErrorValue>) -> Row<'a>
    ensures { row_view result ≡ row ERROR_CODE (option_map error_bytes (option_copied value.entry)) }
{
    Row {
        code: ERROR_CODE,
        value: match value {
            Some(value) => Some(value.as_slice()),
            None => None,
        },
    }
}

fn flag_row<'a>(code: u16, is_set: bool) -> Row<'a>
    ensures { row_view result ≡ row code (if_set is_set) }
{
    Row {
        code,
        value: if is_set { Some(&[]) } else { None },
    }
}

/// Returns the attributes, in the order of writing. The value of ERROR-CODE is long and rare; it is separate from the
/// other values, so that they are cheap to move.
#[inline(always)]
pub(crate) fn rows_of<'a>(
    attrs: &Attributes<'a>,
    values: &'a Values,
    error: Option<&'a ErrorValue>,
) -> [Row<'a>; 17]
    ensures { map row_view result ≡ rows_in (attributes_view attrs.now) values.now (option_map error_bytes (option_copied error.entry)) }
{
    [
        text_row(USERNAME, attrs.username),
        array_row(ICE_CONTROLLED, &values.controlled),
        array_row(ICE_CONTROLLING, &values.controlling),
        array_row(PRIORITY, &values.priority),
        address_row(XOR_MAPPED_ADDRESS, &values.mapped_address),
        flag_row(USE_CANDIDATE, attrs.use_candidate),
        bytes_row(DATA, attrs.data),
        address_row(XOR_RELAYED_ADDRESS, &values.relayed_address),
        address_row(XOR_PEER_ADDRESS, &values.peer_address),
        array_row(CHANNEL_NUMBER, &values.channel_number),
        array_row(LIFETIME, &values.lifetime),
        text_row(REALM, attrs.realm),
        text_row(NONCE, attrs.nonce),
        error_row(error),
        text_row(SOFTWARE, attrs.software),
        array_row(NETWORK_COST, &values.network_cost),
        array_row(NOMINATION, &values.nomination),
    ]
}
