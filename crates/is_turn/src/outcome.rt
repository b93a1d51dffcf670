//! What a response does to a TURN client: decided here, before anything is changed (RFC 8489, section 9.2.5; RFC 8656, sections 7 and 8).

ghost use Rattle.std.specs.Prelude.{◌≡◌, ◌↔◌, IsTrue, Bool};
ghost use Rattle.std.specs.Option.{option_copied, option_map};
ghost use Rattle.is_stun.specs.MessageView.{message_view};
ghost use Rattle.is_turn.specs.Credentials.{credentials_of};
ghost use Rattle.is_turn.specs.Verdict.{IsSignedFor};
ghost use Rattle.is_turn.specs.Outcome.{answers_request, answered_in, key_in, key_answered, code_or_success, on_challenge, on_alternate, on_allocated, on_refreshed, on_success, on_genuine, is_unknown, is_last_sent, outcome_by, outcome_in, outcome_on, outcome_with, outcome_for};
ghost use Rattle.is_turn.specs.Outcome.{answered_by};

use crate::attempts::Attempt;
use crate::credentials::Credentials;
use crate::operation::Operation;
use crate::requests::Request;
use crate::session::{Allocation, Phase, Session};
use crate::verdict::{Verdict, code_of, verdict_on};
use is_proto::{Instant, Sha1HmacProvider};
use is_stun::stun::{Class, Method, StunMessage};
use std::net::SocketAddr;

/// Why a datagram of the server counts for nothing.
#[derive(Clone, Copy, Debug, PartialEq, Eq)]
pub enum Reason {
    /// Neither ChannelData nor a STUN message.
    Unparsed,
    /// No response to a request of the client.
    Unasked,
    /// A message without the attribute that it must have.
    Malformed,
    /// A response that is not signed with the key of its request.
    Unauthentic,
    /// A challenge beyond the limits, or one that forbids to go on (RFC 8489, section 9.2.5).
    Challenge,
    /// Data of a peer that is not permitted, or of no channel.
    NotPermitted,
}

/// What a response does.
#[derive(Clone, Copy, Debug, PartialEq, Eq)]
pub(crate) enum Outcome {
    /// Nothing.
    Dropped(Reason),
    /// The response counts as if it never came: its code is kept for the log.
    Doubted(u16),
    /// The request is not sent again.
    Hinted(u16),
    /// The request is sent again with another nonce: to an attempt that was signed or not, the code.
    Challenged(bool, u16),
    /// The server made an allocation: since when, for how many seconds.
    Allocated(Instant, u32, Allocation),
    /// The server has the allocation: since when, for how many seconds.
    Refreshed(Instant, u32),
    /// The server has the permission or the channel: since when.
    Lasting(Instant),
    /// Another server is to be asked.
    Redirected(SocketAddr),
    /// An error response with this code.
    Failed(u16),
}

/// Whether a message of this method answers the request.
fn answers_request(request: &Request, method: Method) -> bool
    ensures { result ≡ answers_request request.now method }
{
    match request {
        Request::Allocate(_, _) => method == Method::Allocate,
        Request::Refresh(_) => method == Method::Refresh,
        Request::CreatePermission(_) => method == Method::CreatePermission,
        Request::ChannelBind(_, _) => method == Method::ChannelBind,
    }
}

/// Returns the attempt that a message answers: by its method and transaction ID.
pub(crate) fn answered_in(operation: &Operation, message: &StunMessage<'_>) -> Option<Attempt>
    ensures { result ≡ answered_in (message_view message.now) operation.now }
{
    if answers_request(&operation.request, message.method()) {
        operation.attempts.with_id(message.trans_id())
    } else {
        None
    }
}

/// Returns the code of a response; 200 of a success response.
fn code_or_success(message: &StunMessage<'_>) -> u16
    ensures { result ≡ code_or_success (message_view message.now) }
{
    match code_of(message) {
        Some(code) => code,
        None => 200,
    }
}

/// A challenge is taken to the last attempt, within the limits. A 401 to a signed attempt, while the server has not shown that it
/// knows the password, says that USERNAME or password are wrong: a hint.
fn on_challenge(operation: &Operation, attempt: &Attempt, code: u16, is_unknown: bool) -> Outcome
    ensures { result ≡ on_challenge operation.now attempt.now code is_unknown }
{
    let is_signed = attempt.key.is_some();
    if !operation.takes_challenge(attempt.id, is_signed, code) {
        Outcome::Dropped(Reason::Challenge)
    } else if code == 401 && is_signed && is_unknown {
        Outcome::Hinted(code)
    } else {
        Outcome::Challenged(is_signed, code)
    }
}

/// A 300 while the client requests an allocation names the next server; else it is an error as any other.
fn on_alternate(phase: Phase, alternate: Option<SocketAddr>) -> Outcome
    ensures { result ≡ on_alternate phase alternate }
{
    match (phase, alternate) {
        (Phase::Asking, Some(server)) => Outcome::Redirected(server),
        _ => Outcome::Failed(300),
    }
}

/// A success response to Allocate has a relayed address and a lifetime.
fn on_allocated(attempt: &Attempt, message: &StunMessage<'_>) -> Outcome
    ensures { result ≡ on_allocated attempt.now (message_view message.now) }
{
    match (message.xor_relayed_address(), message.lifetime()) {
        (Some(relayed), Some(seconds)) => {
            if seconds == 0 {
                Outcome::Dropped(Reason::Malformed)
            } else {
                let mapped = message.mapped_address();
                Outcome::Allocated(attempt.since, seconds, Allocation { relayed, mapped })
            }
        }
        _ => Outcome::Dropped(Reason::Malformed),
    }
}

/// A success response to Refresh without a lifetime counts as one with the lifetime 0.
fn on_refreshed(attempt: &Attempt, message: &StunMessage<'_>) -> Outcome
    ensures { result ≡ on_refreshed attempt.now (message_view message.now) }
{
    match message.lifetime() {
        Some(seconds) => Outcome::Refreshed(attempt.since, seconds),
        None => Outcome::Refreshed(attempt.since, 0),
    }
}

fn on_success(request: &Request, attempt: &Attempt, message: &StunMessage<'_>) -> Outcome
    ensures { result ≡ on_success request.now attempt.now (message_view message.now) }
{
    match request {
        Request::Allocate(_, _) => on_allocated(attempt, message),
        Request::Refresh(_) => on_refreshed(attempt, message),
        Request::CreatePermission(_) | Request::ChannelBind(_, _) => {
            Outcome::Lasting(attempt.since)
        }
    }
}

/// A response that the server made.
fn on_genuine(
    phase: Phase,
    request: &Request,
    attempt: &Attempt,
    message: &StunMessage<'_>,
    alternate: Option<SocketAddr>,
) -> Outcome
    ensures { result ≡ on_genuine phase request.now attempt.now (message_view message.now) alternate }
{
    match code_of(message) {
        Some(300) => on_alternate(phase, alternate),
        Some(code) => Outcome::Failed(code),
        None => on_success(request, attempt, message),
    }
}

/// What a response with this verdict does. `is_unknown`: the server has not shown yet that it knows the password.
fn on_verdict(
    verdict: Verdict,
    phase: Phase,
    is_unknown: bool,
    operation: &Operation,
    attempt: &Attempt,
    message: &StunMessage<'_>,
    alternate: Option<SocketAddr>,
) -> Outcome
    ensures { result ≡ outcome_by verdict phase is_unknown operation.now attempt.now (message_view message.now) alternate }
{
    match verdict {
        Verdict::Malformed => Outcome::Dropped(Reason::Malformed),
        Verdict::Unauthentic => Outcome::Doubted(code_or_success(message)),
        Verdict::Hint => Outcome::Hinted(code_or_success(message)),
        Verdict::Challenge => {
            on_challenge(operation, attempt, code_or_success(message), is_unknown)
        }
        Verdict::Redirect => on_alternate(phase, alternate),
        Verdict::Genuine => on_genuine(phase, &operation.request, attempt, message, alternate),
    }
}

/// Whether the server has not shown yet that it knows the password.
fn is_unknown(credentials: Option<&Credentials>) -> bool
    ensures { result ≡ is_unknown (option_map credentials_of (option_copied credentials.entry)) }
{
    match credentials {
        Some(credentials) => credentials.password.is_some(),
        None => false,
    }
}

/// Whether this is the last attempt, and no other is to follow it.
fn is_last_sent(operation: &Operation, attempt: &Attempt) -> bool
    ensures { result ≡ is_last_sent attempt.now operation.now }
{
    !operation.is_fresh && operation.attempts.is_last(attempt.id)
}

/// Decides what a success or error response to this attempt of a request does.
fn outcome_in<H: Sha1HmacProvider>(
    phase: Phase,
    operation: &Operation,
    attempt: &Attempt,
    credentials: Option<&Credentials>,
    message: &StunMessage<'_>,
    alternate: Option<SocketAddr>,
    provider: &H,
) -> Outcome
    ensures { (is_signed : Bool)
        × (IsTrue is_signed ↔ IsSignedFor (H.mac provider.now) (message_view message.now) attempt.now.key)
        × (result ≡ outcome_in is_signed phase (option_map credentials_of (option_copied credentials.entry)) (message_view message.now) alternate operation.now attempt.now) }
{
    let is_last = is_last_sent(operation, attempt);
    let verdict = verdict_on(message, credentials, attempt.key, is_last, provider);
    let is_unknown = is_unknown(credentials);
    on_verdict(
        verdict, phase, is_unknown, operation, attempt, message, alternate,
    )
}

/// Decides what a success or error response does to a request.
fn outcome_on<H: Sha1HmacProvider>(
    phase: Phase,
    operation: &Operation,
    credentials: Option<&Credentials>,
    message: &StunMessage<'_>,
    alternate: Option<SocketAddr>,
    provider: &H,
) -> Outcome
    ensures { (is_signed : Bool)
        × (IsTrue is_signed ↔ IsSignedFor (H.mac provider.now) (message_view message.now) (key_in (answered_in (message_view message.now) operation.now)))
        × (result ≡ outcome_on is_signed phase (option_map credentials_of (option_copied credentials.entry)) (message_view message.now) alternate operation.now) }
{
    match answered_in(operation, message) {
        Some(attempt) => {
            outcome_in(
                phase,
                operation,
                &attempt,
                credentials,
                message,
                alternate,
                provider,
            )
        }
        None => Outcome::Dropped(Reason::Unasked),
    }
}

/// Decides what a success or error response does to a request, if there is one.
pub(crate) fn outcome_with<H: Sha1HmacProvider>(
    phase: Phase,
    operation: &Option<Operation>,
    credentials: Option<&Credentials>,
    message: &StunMessage<'_>,
    alternate: Option<SocketAddr>,
    provider: &H,
) -> Outcome
    ensures { (is_signed : Bool)
        × (IsTrue is_signed ↔ IsSignedFor (H.mac provider.now) (message_view message.now) (key_in (answered_by (message_view message.now) operation.now)))
        × (result ≡ outcome_with is_signed phase (option_map credentials_of (option_copied credentials.entry)) (message_view message.now) alternate operation.now) }
{
    match operation {
        Some(operation) => outcome_on(phase, operation, credentials, message, alternate, provider),
        None => Outcome::Dropped(Reason::Unasked),
    }
}

/// Decides what a success or error response does to a client.
pub(crate) fn outcome_for<H: Sha1HmacProvider>(
    session: &Session,
    credentials: Option<&Credentials>,
    message: &StunMessage<'_>,
    alternate: Option<SocketAddr>,
    provider: &H,
) -> Outcome
    ensures { (is_signed : Bool)
        × (IsTrue is_signed ↔ IsSignedFor (H.mac provider.now) (message_view message.now) (key_answered (message_view message.now) session.now))
        × (result ≡ outcome_for is_signed session.now (option_map credentials_of (option_copied credentials.entry)) (message_view message.now) alternate) }
{
    outcome_with(
        session.phase,
        &session.operation,
        credentials,
        message,
        alternate,
        provider,
    )
}
