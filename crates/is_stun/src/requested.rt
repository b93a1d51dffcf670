//! What an Allocate request requests: the transport to the peers and the family of the relayed address (RFC 8656, section 7.1).
//! `StunMessage` skips both attributes when it is parsed; here they are read and written.

ghost use Rattle.std.specs.Prelude.{◌≡◌, ◌++◌, ◌∷◌, [], map};
ghost use Rattle.std.specs.Option.{option_copied, option_map};
ghost use Rattle.is_stun.specs.Finding.{value_of};
ghost use Rattle.is_stun.specs.Numbers.{REQUESTED_ADDRESS_FAMILY, REQUESTED_TRANSPORT};
ghost use Rattle.is_stun.specs.Requested.{with_reserved, family_value, first_of_four, family_of, transport_in, family_in, requested_in};
ghost use Rattle.is_stun.specs.ErrorCodeView.{error_bytes};
ghost use Rattle.is_stun.specs.MessageView.{attributes_view};
ghost use Rattle.is_stun.specs.RowView.{row_view, rows_in};
ghost use Rattle.is_stun.specs.Writing.{row};

use crate::attributes::Attributes;
use crate::error_code::ErrorValue;
use crate::finding::value_of;
use crate::numbers::{REQUESTED_ADDRESS_FAMILY, REQUESTED_TRANSPORT};
use crate::rows::{Values, array_row, rows_of};
use crate::writing::Row;

/// The family of an IP address.
#[derive(Clone, Copy, Debug, PartialEq, Eq)]
pub enum AddressFamily {
    Ipv4,
    Ipv6,
}

/// What an Allocate request requests of the server. The default is nothing.
#[derive(Clone, Copy, Debug, PartialEq, Eq, Default)]
pub struct Requested {
    /// REQUESTED-TRANSPORT (RFC 8656, section 18.7): the protocol between server and peers, by its IANA number. 17 is UDP, which
    /// each Allocate request has.
    pub transport: Option<u8>,
    /// REQUESTED-ADDRESS-FAMILY (RFC 8656, section 18.6): the family of the relayed address. Without it a server takes IPv4.
    pub family: Option<AddressFamily>,
}

impl Requested {
    /// Reads what a message requests from its bytes. A value that is not four bytes long, or has another family, is skipped.
    pub fn of(bytes: &[u8]) -> Requested
        ensures { result ≡ requested_in bytes.now }
    {
        Requested {
            transport: transport_in(value_of(bytes, REQUESTED_TRANSPORT)),
            family: family_in(value_of(bytes, REQUESTED_ADDRESS_FAMILY)),
        }
    }
}

// ---- reading

fn first_of_four(value: &[u8]) -> Option<u8>
    ensures { result ≡ first_of_four value.now }
{
    if value.len() == 4 {
        Some(value[0])
    } else {
        None
    }
}

fn family_of(number: u8) -> Option<AddressFamily>
    ensures { result ≡ family_of number }
{
    match number {
        1 => Some(AddressFamily::Ipv4),
        2 => Some(AddressFamily::Ipv6),
        _ => None,
    }
}

fn transport_in(value: Option<&[u8]>) -> Option<u8>
    ensures { result ≡ transport_in (option_copied value.entry) }
{
    first_of_four(value?)
}

fn family_in(value: Option<&[u8]>) -> Option<AddressFamily>
    ensures { result ≡ family_in (option_copied value.entry) }
{
    family_of(first_of_four(value?)?)
}

// ---- writing

/// The values of both attributes.
#[derive(Drop)]
pub(crate) struct RequestedValues {
    pub(crate) family: Option<[u8; 4]>,
    pub(crate) transport: Option<[u8; 4]>,
}

fn family_value(family: Option<AddressFamily>) -> Option<[u8; 4]>
    ensures { result ≡ option_map family_value family }
{
    match family {
        Some(AddressFamily::Ipv4) => Some([1, 0, 0, 0]),
        Some(AddressFamily::Ipv6) => Some([2, 0, 0, 0]),
        None => None,
    }
}

fn transport_value(transport: Option<u8>) -> Option<[u8; 4]>
    ensures { result ≡ option_map with_reserved transport }
{
    match transport {
        Some(number) => Some([number, 0, 0, 0]),
        None => None,
    }
}

impl RequestedValues {
    pub(crate) fn of(requested: &Requested) -> RequestedValues
        ensures family { result.family ≡ option_map family_value requested.now.family }
        ensures transport { result.transport ≡ option_map with_reserved requested.now.transport }
    {
        RequestedValues {
            family: family_value(requested.family),
            transport: transport_value(requested.transport),
        }
    }
}

/// Returns the rows of a message, and then those of what it requests.
pub(crate) fn rows_with<'a>(
    attrs: &Attributes<'a>,
    values: &'a Values,
    asked: &'a RequestedValues,
    error: Option<&'a ErrorValue>,
) -> [Row<'a>; 19]
    ensures { map row_view result ≡ rows_in (attributes_view attrs.now) values.now (option_map error_bytes (option_copied error.entry))
        ++ (row REQUESTED_ADDRESS_FAMILY asked.now.family ∷ row REQUESTED_TRANSPORT asked.now.transport ∷ []) }
{
    let [a, b, c, d, e, f, g, h, i, j, k, l, m, n, o, p, q] = rows_of(attrs, values, error);
    let family = array_row(REQUESTED_ADDRESS_FAMILY, &asked.family);
    let transport = array_row(REQUESTED_TRANSPORT, &asked.transport);
    [
        a, b, c, d, e, f, g, h, i, j, k, l, m, n, o, p, q, family, transport,
    ]
}
