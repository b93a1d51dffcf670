//! Writing messages.

ghost use Rattle.std.specs.Prelude.{◌≡◌, length, take, None, IfNone, IfOk, IfSome};
ghost use Rattle.std.specs.Option.{option_copied, option_map};
ghost use Rattle.is_stun.specs.Writing.{WritesOr, is_longer, is_bad_code, has_long_value, value_rejection, rejection, written};
ghost use Rattle.is_stun.specs.Theorems.{RoundTripsAs};
ghost use Rattle.is_stun.specs.Requested.{rejection_with, written_with};
ghost use Rattle.is_stun.specs.MessageView.{attributes_view, message_view};
ghost use Rattle.is_stun.specs.ErrorCode.{error_value};
ghost use Rattle.is_stun.specs.ErrorCodeView.{error_bytes, error_view, WritableError};

use crate::attributes::Attributes;
use crate::error_code::ErrorValue;
use crate::header::Method;
use crate::message::StunMessage;
use crate::numbers::{DATA_LIMIT, WRITTEN_TEXT_LIMIT, WRITTEN_USERNAME_LIMIT};
use crate::requested::{Requested, RequestedValues, rows_with};
use crate::rows::{Values, rows_of};
use crate::values::{id_fits, values_fit};
use crate::writing::{Draft, write_draft};
use is_proto::{Sha1HmacProvider, StunError};

fn is_longer(limit: usize, text: Option<&str>) -> bool
    ensures { result ≡ is_longer limit (option_copied text.entry) }
{
    match text {
        Some(text) => text.len() > limit,
        None => false,
    }
}

fn is_long_data(bytes: Option<&[u8]>) -> bool
    ensures { result ≡ is_longer DATA_LIMIT (option_copied bytes.entry) }
{
    match bytes {
        Some(bytes) => bytes.len() > DATA_LIMIT,
        None => false,
    }
}

fn is_long_reason(error: Option<(u16, &str)>) -> bool
    ensures { result ≡ is_longer WRITTEN_TEXT_LIMIT (option_map (λ e. e.1) (error_view error.entry)) }
{
    match error {
        Some((_, reason)) => reason.len() > WRITTEN_TEXT_LIMIT,
        None => false,
    }
}

fn is_bad_code(error: Option<(u16, &str)>) -> bool
    ensures { result ≡ is_bad_code (error_view error.entry) }
{
    match error {
        Some((code, _)) => code < 300 || code > 699,
        None => false,
    }
}

fn has_long_value(attrs: &Attributes<'_>) -> bool
    ensures { result ≡ has_long_value (attributes_view attrs.now) }
{
    is_longer(WRITTEN_USERNAME_LIMIT, attrs.username)
        || is_longer(WRITTEN_TEXT_LIMIT, attrs.realm)
        || is_longer(WRITTEN_TEXT_LIMIT, attrs.nonce)
        || is_longer(WRITTEN_TEXT_LIMIT, attrs.software)
        || is_long_reason(attrs.error_code)
        || is_long_data(attrs.data)
}

/// Returns the error if the message can't be written into any buffer, however large.
#[tactic(auto, unfolding(crate::specs::Writing::value_rejection))]
fn value_rejection(message: &StunMessage<'_>) -> Option<StunError>
    ensures rejection { result ≡ value_rejection (message_view message.now) }
    ensures writable { IfNone result (WritableError message.now.attrs.error_code) }
{
    if message.method == Method::Unknown {
        return Some(StunError::UnknownMethod);
    }
    if has_long_value(&message.attrs) {
        return Some(StunError::ValueTooLong);
    }
    if is_bad_code(message.attrs.error_code) {
        return Some(StunError::BadErrorCode);
    }
    None
}

/// Writes a message that can be written, given the value of its ERROR-CODE.
fn write_message<H: Sha1HmacProvider>(
    message: &StunMessage<'_>,
    error: Option<&ErrorValue>,
    password: Option<&[u8]>,
    buf: &mut [u8],
    provider: &H,
) -> Result<usize, StunError>
    requires writable { value_rejection (message_view message.now) ≡ None }
    requires error { option_map error_bytes (option_copied error) ≡ option_map error_value (error_view message.now.attrs.error_code) }
    ensures written { WritesOr result buf.old buf.new (rejection (option_copied password.entry) (length buf.old)
        (message_view message.now)) (written (H.mac provider.now) (option_copied password.entry) (message_view message.now)) }
    ensures round_trip { IfOk result (λ len. IfSome (option_copied password.entry)
        (λ key. RoundTripsAs (H.mac provider.now) key (take len buf.new) (message_view message.now))) }
{
    // the values are in the ranges of their types, so they parse unchanged
    id_fits(message.trans_id);
    values_fit(&message.attrs);
    let values = Values::of(&message.attrs, &message.trans_id.0);
    let rows = rows_of(&message.attrs, &values, error);
    let draft = Draft {
        typ: message.class.to_u16() + message.method.to_u16(),
        id: &message.trans_id.0,
        rows: &rows,
    };
    write_draft(&draft, password, buf, provider)
}

/// Writes a message that can be written, with what it requests after its attributes.
fn write_requesting<H: Sha1HmacProvider>(
    message: &StunMessage<'_>,
    requested: &Requested,
    error: Option<&ErrorValue>,
    password: Option<&[u8]>,
    buf: &mut [u8],
    provider: &H,
) -> Result<usize, StunError>
    requires writable { value_rejection (message_view message.now) ≡ None }
    requires error { option_map error_bytes (option_copied error) ≡ option_map error_value (error_view message.now.attrs.error_code) }
    ensures { WritesOr result buf.old buf.new (rejection_with (option_copied password.entry) (length buf.old)
        (message_view message.now) requested.now) (written_with (H.mac provider.now) (option_copied password.entry) (message_view message.now) requested.now) }
{
    let values = Values::of(&message.attrs, &message.trans_id.0);
    let asked = RequestedValues::of(requested);
    let rows = rows_with(&message.attrs, &values, &asked, error);
    let draft = Draft {
        typ: message.class.to_u16() + message.method.to_u16(),
        id: &message.trans_id.0,
        rows: &rows,
    };
    write_draft(&draft, password, buf, provider)
}

impl<'a> StunMessage<'a> {
    /// Writes the message to the front of the buffer and returns its length: its attributes, then MESSAGE-INTEGRITY if
    /// there is a password, then FINGERPRINT (RFC 8489, sections 5 and 14). It leaves out the MESSAGE-INTEGRITY and
    /// FINGERPRINT that the message was parsed with, and flow information and scope of addresses. It never allocates.
    ///
    /// The bytes of a message that is written with a password parse as no other message than this one. If the message
    /// has the attributes that a parser requires, they do parse, and verify. Messages of class `Unknown` or with a
    /// channel number out of range are excepted.
    ///
    /// An error leaves the buffer unchanged, and is the first of
    /// - `UnknownMethod`: the method is `Unknown`;
    /// - `ValueTooLong`: USERNAME is longer than 508 bytes, the realm, nonce, software or reason is longer than 128,
    ///   or the data is longer than 65535;
    /// - `BadErrorCode`: the error code is outside 300 to 699;
    /// - `MessageTooLong`: more than 65535 bytes would follow the header;
    /// - `BufferTooShort`: the message does not fit the buffer.
    pub fn to_bytes<H: Sha1HmacProvider>(
        self,
        password: Option<&[u8]>,
        buf: &mut [u8],
        provider: &H,
    ) -> Result<usize, StunError>
        ensures written { WritesOr result buf.old buf.new (rejection (option_copied password.entry) (length buf.old)
            (message_view self.entry)) (written (H.mac provider.now) (option_copied password.entry) (message_view self.entry)) }
        ensures round_trip { IfOk result (λ len. IfSome (option_copied password.entry)
            (λ key. RoundTripsAs (H.mac provider.now) key (take len buf.new) (message_view self.entry))) }
    {
        if let Some(error) = value_rejection(&self) {
            return Err(error);
        }
        match self.attrs.error_code {
            Some((code, reason)) => {
                let error = ErrorValue::new(code, reason);
                write_message(&self, Some(&error), password, buf, provider)
            }
            None => write_message(&self, None, password, buf, provider),
        }
    }
    /// Writes the message as `to_bytes` does, with what it requests after its attributes: an Allocate request (RFC 8656,
    /// section 7.1). It has the errors of `to_bytes`.
    pub fn to_bytes_with<H: Sha1HmacProvider>(
        self,
        requested: &Requested,
        password: Option<&[u8]>,
        buf: &mut [u8],
        provider: &H,
    ) -> Result<usize, StunError>
        ensures { WritesOr result buf.old buf.new (rejection_with (option_copied password.entry) (length buf.old)
            (message_view self.entry) requested.now) (written_with (H.mac provider.now) (option_copied password.entry) (message_view self.entry) requested.now) }
    {
        if let Some(error) = value_rejection(&self) {
            return Err(error);
        }
        match self.attrs.error_code {
            Some((code, reason)) => {
                let error = ErrorValue::new(code, reason);
                write_requesting(&self, requested, Some(&error), password, buf, provider)
            }
            None => write_requesting(&self, requested, None, password, buf, provider),
        }
    }
}
