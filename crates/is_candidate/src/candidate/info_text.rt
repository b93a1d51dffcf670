//! Candidate JSON (RTCIceCandidateInit) as a text.
ghost use Rattle.std.specs.Prelude.{◌≡◌, ◌++◌, ◌∷◌, [], IfOk, OnOk, IsOkUnless, string_bytes};
ghost use Rattle.std.specs.Option.{option_copied};
ghost use Rattle.serde_json.specs.Written.{compact_text};
ghost use Rattle.is_proto.specs.declared.error.IceError.TheVariants.{OutOfMemory};
ghost use Rattle.is_candidate.specs.Infos.{ReadsInfoText, info_of};
ghost use Rattle.is_candidate.specs.InfoTexts.{info_tokens, fragment_token};

use super::Candidate;
use super::flat::read_flat;
use super::info::rejection;
use is_proto::IceError;
use json::{Scratch, Writer};
use serde_json::Value;
use std::alloc::{AllocError, Global};

/// A capacity that is enough for most texts, in bytes.
const TEXT_ROOM: usize = 256;

impl Candidate {
    /// Returns the text of the object that `to_json` returns: without spaces, the members in the order of their names. It
    /// doesn't build the object.
    #[tactic(auto, using(crate::proofs::CandidateJson::PrintedJson::printed_info))]
    pub fn to_json_string(&self, alloc: Global) -> Result<String, IceError>
        ensures text { IfOk result (λ text. string_bytes text ≡ compact_text (info_of self.now)) }
        ensures rejection { IsOkUnless result OutOfMemory }
    {
        let line = self.to_sdp_string(alloc)?;
        let mut out = Writer::new(Vec::with_capacity(alloc, TEXT_ROOM)?);
        write_info(&mut out, line.as_str(), self.ufrag())?;
        match String::from_utf8(out.into_inner()) {
            Ok(text) => Ok(text),
            Err(_) => Err(IceError::OutOfMemory),
        }
    }

    /// Reads a candidate from a JSON text, as `from_json` reads it from the text's value. If the members are strings,
    /// whole numbers, booleans and nulls, as a browser's are, it doesn't build the value. The scratch is working
    /// memory: reuse one for many calls, because a new one clears 16 KiB.
    ///
    /// Fails with `BadCandidate` as `from_json` does, but first with "candidate info is not JSON" if `serde_json` reads
    /// no value: the text is no JSON, is nested more than 127 deep, or has a number too large for a double.
    pub fn from_json_str(
        alloc: Global,
        text: &str,
        scratch: &mut Scratch,
    ) -> Result<Candidate, IceError>
        ensures { ReadsInfoText text.now result }
    {
        let Some(info) = read_flat(text, scratch)? else {
            return read_value(alloc, text);
        };
        let mut candidate = match Candidate::from_sdp_string(alloc, info.line) {
            Ok(candidate) => candidate,
            Err(rejection) => return Err(rejection),
        };
        if let Some(ufrag) = info.ufrag {
            candidate.set_ufrag(alloc, ufrag)?;
        }
        Ok(candidate)
    }
}

/// Writes the object with this line and this username fragment.
fn write_info(out: &mut Writer, line: &str, ufrag: Option<&str>) -> Result<(), AllocError>
    ensures tokens { OnOk result (out.new.tokens ≡ out.old.tokens ++ info_tokens line.now (option_copied ufrag.entry)) }
    ensures before { out.new.before ≡ out.old.before }
{
    out.begin_object()?;
    out.key("candidate")?;
    out.string(line)?;
    out.key("sdpMLineIndex")?;
    out.u64(0)?;
    out.key("sdpMid")?;
    out.null()?;
    out.key("usernameFragment")?;
    write_fragment(out, ufrag)?;
    out.end_object()
}

/// Writes the username fragment, or null.
fn write_fragment(out: &mut Writer, ufrag: Option<&str>) -> Result<(), AllocError>
    ensures tokens { OnOk result (out.new.tokens ≡ out.old.tokens ++ fragment_token (option_copied ufrag.entry) ∷ []) }
    ensures before { out.new.before ≡ out.old.before }
{
    match ufrag {
        Some(ufrag) => out.string(ufrag),
        None => out.null(),
    }
}

/// Reads the same candidate from the text's value.
fn read_value(alloc: Global, text: &str) -> Result<Candidate, IceError>
    ensures { ReadsInfoText text.now result }
{
    match Value::from_str(alloc, text) {
        Ok(value) => Candidate::from_json(alloc, &value),
        Err(error) => {
            if error.is_memory() {
                return Err(IceError::OutOfMemory);
            }
            Err(rejection(alloc, "candidate info is not JSON"))
        }
    }
}
