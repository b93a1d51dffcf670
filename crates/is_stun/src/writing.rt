//! Writing into a buffer, without allocating.

ghost use Rattle.std.specs.Prelude.{◌≡◌, ◌+◌, ◌-◌, ◌≤◌, ◌<◌, ◌^◌, length, map, replicate, take, Some, None, IfOk, OnOk, IfErr};
ghost use Rattle.std.specs.Option.{option_copied};
ghost use Rattle.std.specs.Int.{w16, w32, to_be_bytes};
ghost use Rattle.is_stun.specs.Tlv.{padded_len, attribute_len};
ghost use Rattle.is_stun.specs.Writing.{Puts, attribute, row_text, rows_text, IsLenWithin, integrity_len, body_len, integrity_text};
ghost use Rattle.is_stun.specs.Writing.{fingerprint_text, rows_rejection, written_rows, WritesOr, HasMacOf, HasMacOfRows};
ghost use Rattle.is_stun.specs.Header.{header};
ghost use Rattle.is_stun.specs.RowView.{row_view};

use crate::crc::crc32;
use crate::integrity::mac_of_front;
use crate::numbers::{FINGERPRINT, FINGERPRINT_MASK, HEADER_LEN, MAGIC, MESSAGE_INTEGRITY};
use is_proto::{Sha1HmacProvider, StunError};

/// Writes the bytes at an offset, and returns the offset after them.
pub(crate) fn put(buf: &mut [u8], at: usize, bytes: &[u8]) -> usize
    requires { at + length bytes.now ≤ length buf.old }
    ensures { Puts buf.old buf.new at result bytes.now }
{
    let end = at + bytes.len();
    buf[at..end].copy_from_slice(bytes);
    end
}

fn put_u16(buf: &mut [u8], at: usize, number: u16) -> usize
    requires { at + 2 ≤ length buf.old }
    ensures { Puts buf.old buf.new at result (to_be_bytes w16 number) }
{
    put(buf, at, &number.to_be_bytes())
}

fn put_u32(buf: &mut [u8], at: usize, number: u32) -> usize
    requires { at + 4 ≤ length buf.old }
    ensures { Puts buf.old buf.new at result (to_be_bytes w32 number) }
{
    put(buf, at, &number.to_be_bytes())
}

/// Writes zeros after a value, up to a multiple of four.
fn put_padding(buf: &mut [u8], at: usize, len: usize) -> usize
    requires room { at + (padded_len len - len) ≤ length buf.old }
    requires short { len < 2 ^ 16 }
    ensures { Puts buf.old buf.new at result (replicate (padded_len len - len) 0) }
{
    if len % 4 == 0 {
        return at;
    }
    put(buf, at, &[0; 3][..(len + 3) / 4 * 4 - len])
}

/// Writes an attribute and its padding. It is a separate function so that the loops over the rows are unrolled, and an
/// absent row costs next to nothing.
#[inline(never)]
fn put_attribute(buf: &mut [u8], at: usize, code: u16, value: &[u8]) -> usize
    requires room { at + attribute_len (length value.now) ≤ length buf.old }
    requires short { length value.now < 2 ^ 16 }
    ensures text { Puts buf.old buf.new at result (attribute code value.now) }
    ensures end { result ≡ at + attribute_len (length value.now) }
{
    let len = value.len();
    let at = put_u16(buf, at, code);
    let at = put_u16(buf, at, len as u16);
    let at = put(buf, at, value);
    put_padding(buf, at, len)
}

fn put_header(buf: &mut [u8], typ: u16, len: u16, id: &[u8; 12]) -> usize
    requires { 20 ≤ length buf.old }
    ensures text { Puts buf.old buf.new 0 result (header typ len id.now) }
    ensures end { result ≡ 20 }
{
    let at = put_u16(buf, 0, typ);
    let at = put_u16(buf, at, len);
    let at = put_u32(buf, at, MAGIC);
    put(buf, at, id)
}

/// A row of the attribute table: an attribute that is written, or an absent one.
#[derive(Clone, Copy)]
pub struct Row<'a> {
    /// The type of the attribute.
    pub code: u16,
    /// The value of the attribute, without padding. `None`: it is not written.
    pub value: Option<&'a [u8]>,
}

/// Returns the length of a row, if it fits the room.
#[inline(always)]
#[tactic(auto, using(crate::proofs::WrittenMessages::ConsecutiveRows::row_length))]
fn row_len(row: &Row<'_>, room: usize) -> Option<usize>
    requires { room < 2 ^ 16 }
    ensures { IsLenWithin result room (row_text (row_view row.now)) }
{
    let Some(value) = row.value else {
        return Some(0);
    };
    if value.len() > room {
        return None;
    }
    let len = 4 + (value.len() + 3) / 4 * 4;
    if len > room { None } else { Some(len) }
}

#[inline(always)]
fn rows_len(rows: &[Row<'_>], room: usize) -> Option<usize>
    requires { room < 2 ^ 16 }
    ensures { IsLenWithin result room (rows_text (map row_view rows.now)) }
{
    let mut len = 0;
    for row in rows {
        len += row_len(row, room - len)?;
    }
    Some(len)
}

#[inline(always)]
#[tactic(auto, using(crate::proofs::WrittenMessages::ConsecutiveRows::row_length))]
fn put_row(buf: &mut [u8], at: usize, row: &Row<'_>) -> usize
    requires room { at + length (row_text (row_view row.now)) ≤ length buf.old }
    requires short { length (row_text (row_view row.now)) < 2 ^ 16 }
    ensures { Puts buf.old buf.new at result (row_text (row_view row.now)) }
{
    match row.value {
        Some(value) => put_attribute(buf, at, row.code, value),
        None => at,
    }
}

#[inline(always)]
fn put_rows(buf: &mut [u8], at: usize, rows: &[Row<'_>]) -> usize
    requires room { at + length (rows_text (map row_view rows.now)) ≤ length buf.old }
    requires short { length (rows_text (map row_view rows.now)) < 2 ^ 16 }
    ensures { Puts buf.old buf.new at result (rows_text (map row_view rows.now)) }
{
    let mut end = at;
    for row in rows {
        end = put_row(buf, end, row);
    }
    end
}

/// Writes MESSAGE-INTEGRITY over the bytes before the offset, if there is a password.
fn put_integrity<H: Sha1HmacProvider>(
    buf: &mut [u8],
    at: usize,
    password: Option<&[u8]>,
    provider: &H,
) -> usize
    requires room { at + integrity_len (option_copied password) ≤ length buf.old }
    requires whole { 20 ≤ at }
    requires short { at + integrity_len (option_copied password) < 2 ^ 16 + 12 }
    ensures text { Puts buf.old buf.new at result (integrity_text (H.mac provider.now) (option_copied password.entry) (at + 4) (take at buf.old)) }
    ensures end { result ≡ at + integrity_len (option_copied password.entry) }
    ensures mac { HasMacOf (H.mac provider.now) (option_copied password.entry) (at + 4) (take at buf.old) }
{
    let Some(key) = password else {
        return at;
    };
    let mac = mac_of_front(&buf[..at], (at + 4) as u16, key, provider);
    put_attribute(buf, at, MESSAGE_INTEGRITY, &mac)
}

fn put_fingerprint(buf: &mut [u8], at: usize) -> usize
    requires { at + 8 ≤ length buf.old }
    ensures { Puts buf.old buf.new at result (fingerprint_text (take at buf.old)) }
{
    let value = crc32(&buf[..at]) ^ FINGERPRINT_MASK;
    put_attribute(buf, at, FINGERPRINT, &value.to_be_bytes())
}

/// A message of these rows, except its key.
#[derive(Clone, Copy)]
pub struct Draft<'a> {
    /// The type of the message: the bits of its method and its class (RFC 8489, section 5).
    pub typ: u16,
    /// The transaction ID.
    pub id: &'a [u8; 12],
    /// The attributes before MESSAGE-INTEGRITY, in the order of writing.
    pub rows: &'a [Row<'a>],
}

fn integrity_len(password: Option<&[u8]>) -> usize
    ensures { result ≡ integrity_len (option_copied password.entry) }
{
    match password {
        Some(_) => 24,
        None => 0,
    }
}

/// Returns the value of the header's length field, or the error if the message does not fit the room.
fn body_len_within(
    rows: &[Row<'_>],
    password: Option<&[u8]>,
    room: usize,
) -> Result<usize, StunError>
    ensures ok { IfOk result (λ n. (n ≡ body_len (option_copied password.entry) (map row_view rows.now)) × (n < 2 ^ 16) × (20 + n ≤ room)) }
    ensures taken { OnOk result (rows_rejection (option_copied password.entry) room (map row_view rows.now) ≡ None) }
    ensures rejected { IfErr result (λ e. rows_rejection (option_copied password.entry) room (map row_view rows.now) ≡ Some e) }
{
    let integrity = integrity_len(password);
    let Some(len) = rows_len(rows, 65535 - 8 - integrity) else {
        return Err(StunError::MessageTooLong);
    };
    let body_len = len + integrity + 8;
    if room < HEADER_LEN + body_len {
        return Err(StunError::BufferTooShort);
    }
    Ok(body_len)
}

/// Writes a message that fits the buffer.
fn write_within<H: Sha1HmacProvider>(
    draft: &Draft<'_>,
    len: usize,
    password: Option<&[u8]>,
    buf: &mut [u8],
    provider: &H,
) -> usize
    requires is_len { len ≡ body_len (option_copied password) (map row_view draft.now.rows.now) }
    requires short { len < 2 ^ 16 }
    requires room { 20 + len ≤ length buf.old }
    ensures text { Puts buf.old buf.new 0 result (written_rows (H.mac provider.now) (option_copied password.entry) draft.now.typ
        draft.now.id.now (map row_view draft.now.rows.now)) }
    ensures mac { HasMacOfRows (H.mac provider.now) (option_copied password.entry) draft.now.typ draft.now.id.now (map row_view draft.now.rows.now) }
{
    let at = put_header(buf, draft.typ, len as u16, draft.id);
    let at = put_rows(buf, at, draft.rows);
    let at = put_integrity(buf, at, password, provider);
    put_fingerprint(buf, at)
}

/// Writes the rows of a draft, then MESSAGE-INTEGRITY if there is a password, then FINGERPRINT (RFC 8489, sections 5 and 14), and
/// returns the length. No row may be MESSAGE-INTEGRITY or FINGERPRINT: a reader would take it for the writer's. An error leaves the
/// buffer unchanged: `MessageTooLong` if more than 65535 bytes would follow the header, `BufferTooShort` if the message does not fit.
pub fn write_draft<H: Sha1HmacProvider>(
    draft: &Draft<'_>,
    password: Option<&[u8]>,
    buf: &mut [u8],
    provider: &H,
) -> Result<usize, StunError>
    ensures written { WritesOr result buf.old buf.new (rows_rejection (option_copied password.entry) (length buf.old)
        (map row_view draft.now.rows.now)) (written_rows (H.mac provider.now) (option_copied password.entry) draft.now.typ draft.now.id.now
        (map row_view draft.now.rows.now)) }
    ensures mac { OnOk result (HasMacOfRows (H.mac provider.now) (option_copied password.entry) draft.now.typ draft.now.id.now
        (map row_view draft.now.rows.now)) }
{
    let body_len = body_len_within(draft.rows, password, buf.len())?;
    Ok(write_within(draft, body_len, password, buf, provider))
}
