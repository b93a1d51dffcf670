//! Candidate JSON (RTCIceCandidateInit) as a JSON value.
ghost use Rattle.std.specs.Prelude.{◌≡◌, IfOk, IsOkUnless, MatchResult, Ok, Err};
ghost use Rattle.std.specs.Option.{option_copied};
ghost use Rattle.serde_json.specs.View.{view};
ghost use Rattle.is_proto.specs.declared.error.IceError.TheVariants.{OutOfMemory};
ghost use Rattle.is_candidate.specs.Infos.{info_of, text_or_null, line_in, ufrag_in, ReadsInfo};
ghost use Rattle.is_candidate.specs.Rejections.{RejectsWith};

use super::Candidate;
use super::fraction::holds_fraction;
use is_proto::IceError;
use serde_json::{Value, json};
use std::alloc::{AllocError, Global};

impl Candidate {
    /// Returns the object in which browsers signal the candidate: `candidate` with the candidate attribute, `sdpMid`
    /// null, `sdpMLineIndex` 0, and `usernameFragment` with the username fragment or null.
    pub fn to_json(&self, alloc: Global) -> Result<Value, IceError>
        ensures info { IfOk result (λ value. view value ≡ info_of self.now) }
        ensures rejection { IsOkUnless result OutOfMemory }
    {
        let line = self.to_sdp_string(alloc)?;
        let ufrag = self.ufrag_value(alloc)?;
        Ok(json!(in alloc; {
            "candidate": line,
            "sdpMid": null,
            "sdpMLineIndex": 0u64,
            "usernameFragment": ufrag
        })?)
    }

    fn ufrag_value(&self, alloc: Global) -> Result<Value, AllocError>
        ensures { IfOk result (λ value. view value ≡ text_or_null self.now.ufrag) }
    {
        match self.ufrag() {
            Some(ufrag) => Value::try_from_str(alloc, ufrag),
            None => Ok(Value::Null),
        }
    }

    /// Reads a candidate from an object whose `candidate` is a candidate attribute, and whose `usernameFragment` is
    /// absent, null or a string. A string replaces the username fragment of the attribute. Other members are ignored,
    /// except the numbers in them.
    ///
    /// Fails with `BadCandidate`, in this order: "candidate info is not an object"; "candidate info holds a fraction"
    /// if a number anywhere in it is stored neither as u64 nor as i64; "candidate info lacks candidate"; the error of
    /// the candidate attribute; "bad usernameFragment".
    pub fn from_json(alloc: Global, value: &Value) -> Result<Candidate, IceError>
        ensures { ReadsInfo (view value.now) result }
    {
        let line = match line_in(value) {
            Ok(line) => line,
            Err(fault) => return Err(rejection(alloc, fault)),
        };
        let mut candidate = match Candidate::from_sdp_string(alloc, line) {
            Ok(candidate) => candidate,
            Err(rejection) => return Err(rejection),
        };
        match ufrag_in(value) {
            Ok(Some(ufrag)) => {
                candidate.set_ufrag(alloc, ufrag)?;
                Ok(candidate)
            }
            Ok(None) => Ok(candidate),
            Err(fault) => Err(rejection(alloc, fault)),
        }
    }
}

/// Returns the line in the value, or its first fault.
fn line_in(value: &Value) -> Result<&str, &'static str>
    ensures { MatchResult result (λ line. line_in (view value.now) ≡ Ok line.now)
        (λ fault. line_in (view value.now) ≡ Err fault.now) }
{
    if !value.is_object() {
        return Err("candidate info is not an object");
    }
    if holds_fraction(value) {
        return Err("candidate info holds a fraction");
    }
    match value.get("candidate").and_then(Value::as_str) {
        Some(line) => Ok(line),
        None => Err("candidate info lacks candidate"),
    }
}

/// Returns the ufrag in the value, or its fault.
fn ufrag_in(value: &Value) -> Result<Option<&str>, &'static str>
    ensures { MatchResult result (λ ufrag. ufrag_in (view value.now) ≡ Ok (option_copied ufrag))
        (λ fault. ufrag_in (view value.now) ≡ Err fault.now) }
{
    match value.get("usernameFragment") {
        None => Ok(None),
        Some(ufrag) => {
            if ufrag.is_null() {
                return Ok(None);
            }
            match ufrag.as_str() {
                Some(ufrag) => Ok(Some(ufrag)),
                None => Err("bad usernameFragment"),
            }
        }
    }
}

/// Returns the error with this message, or `OutOfMemory` if there is no memory for it.
pub(super) fn rejection(alloc: Global, message: &str) -> IceError
    ensures { RejectsWith message.now result }
{
    match String::from_str(alloc, message) {
        Ok(message) => IceError::BadCandidate(message),
        Err(_) => IceError::OutOfMemory,
    }
}
