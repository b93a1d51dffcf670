//! Which responses count for a client with long-term credentials (RFC 8489, section 9.2.5).

ghost use Rattle.std.specs.Prelude.{◌≡◌, ◌↔◌, IsTrue, Bool, IsSome};
ghost use Rattle.std.specs.Option.{option_copied, option_map};
ghost use Rattle.is_stun.specs.MessageView.{message_view};
ghost use Rattle.is_turn.specs.Credentials.{credentials_of};
ghost use Rattle.is_turn.specs.Verdict.{IsSignedFor, code_of, is_malformed, is_challenge, verdict_of};
ghost use Rattle.is_turn.specs.declared.verdict.Verdict.TheVariants as verdicts;

use crate::credentials::Credentials;
use is_proto::Sha1HmacProvider;
use is_stun::stun::{Class, StunMessage};

/// What a response to a request of the client is.
#[derive(Clone, Copy, Debug, PartialEq, Eq)]
pub enum Verdict {
    /// The server's: signed with the key of the request, or the client has no credentials.
    Genuine,
    /// A 401 or 438, unsigned or signed: the request may be sent again with its REALM and NONCE.
    Challenge,
    /// An unsigned 300 to an unsigned request: the client may try the server that it names.
    Redirect,
    /// Another unsigned response to the last request, before any signed one: perhaps all that the server ever says.
    Hint,
    /// An error response without a code.
    Malformed,
    /// None of these: the response counts as if it never came.
    Unauthentic,
}

/// Returns the code of an error response.
pub(crate) fn code_of(message: &StunMessage<'_>) -> Option<u16>
    ensures { result ≡ code_of (message_view message.now) }
{
    if message.class() != Class::Failure {
        return None;
    }
    match message.error_code() {
        Some((code, _)) => Some(code),
        None => None,
    }
}

/// Whether an error response has no code.
fn is_malformed(message: &StunMessage<'_>) -> bool
    ensures { result ≡ is_malformed (message_view message.now) }
{
    message.class() == Class::Failure && message.error_code().is_none()
}

fn is_challenge(code: Option<u16>) -> bool
    ensures { result ≡ is_challenge code }
{
    match code {
        Some(code) => code == 401 || code == 438,
        None => false,
    }
}

/// Whether the message is signed with the key.
fn is_signed_for<H: Sha1HmacProvider>(
    message: &StunMessage<'_>,
    key: Option<[u8; 16]>,
    provider: &H,
) -> bool
    ensures { IsTrue result ↔ IsSignedFor (H.mac provider.now) (message_view message.now) key }
{
    match key {
        Some(key) => message.verify(&key, provider),
        None => false,
    }
}

/// Decides what a success or error response is. `key` is that of the request which it answers, if that was signed; `is_last` says
/// whether no later request of the same kind was sent.
///
/// With credentials only what is signed with the key is genuine. Three kinds of unsigned responses have an effect, which the caller
/// bounds: challenges, redirections of the first request, and hints, until the server has shown that it knows the password.
pub fn verdict_on<H: Sha1HmacProvider>(
    message: &StunMessage<'_>,
    credentials: Option<&Credentials>,
    key: Option<[u8; 16]>,
    is_last: bool,
    provider: &H,
) -> Verdict
    ensures verdict { (is_signed : Bool) × (IsTrue is_signed ↔ IsSignedFor (H.mac provider.now) (message_view message.now) key)
        × (result ≡ verdict_of is_signed is_last key (option_map credentials_of (option_copied credentials.entry)) (message_view message.now)) }
    ensures signed { result ≡ verdicts.Genuine → IsSome (option_copied credentials.entry)
        → IsSignedFor (H.mac provider.now) (message_view message.now) key }
{
    let is_signed = is_signed_for(message, key, provider);
    if is_malformed(message) {
        return Verdict::Malformed;
    }
    let Some(credentials) = credentials else {
        return Verdict::Genuine;
    };
    let code = code_of(message);
    if is_challenge(code) && (is_signed || !message.has_integrity()) {
        Verdict::Challenge
    } else if is_signed {
        Verdict::Genuine
    } else if message.has_integrity() {
        Verdict::Unauthentic
    } else if code == Some(300) && key.is_none() {
        Verdict::Redirect
    } else if is_last && credentials.password.is_some() {
        Verdict::Hint
    } else {
        Verdict::Unauthentic
    }
}
