//! Credentials: set, made and read.

ghost use Rattle.std.specs.Prelude.{◌≡◌, None, IfOk};
ghost use Rattle.is_c_calls.specs.Credentials.{MakesCreds, CallsWith, drawn, PutsBoth, Draws, Returns};
ghost use Rattle.is_rules.specs.Credentials.{SetsRemote};
ghost use Rattle.is_c.specs.Slots.{held_record, held_by};
ghost use Rattle.is_c_calls.specs.Following.{Followed, at_once};
ghost use Rattle.is_c_calls.specs.Held.{At};
ghost use Rattle.is_c_calls.specs.Uses.{Does, SetLocalCredentials, SetRemoteCredentials};

use crate::codes;
use crate::deadlines::followed;
use crate::held::HeldAgent;
use crate::random::Given;
use crate::slot::Slot;
use crate::text::put;
use is_agent::IceCreds;
use is_proto::{IceError, Text};
use std::alloc::Global;

/// The credentials with these two texts.
pub(crate) fn creds_of(alloc: Global, ufrag: &[u8], pass: &[u8]) -> Result<IceCreds, i32>
    ensures { MakesCreds ufrag.now pass.now result }
{
    let (Ok(ufrag), Ok(pass)) = (std::str::from_utf8(ufrag), std::str::from_utf8(pass)) else {
        return Err(codes::NOT_UTF8);
    };
    match (Text::from_str(alloc, ufrag), Text::from_str(alloc, pass)) {
        (Ok(ufrag), Ok(pass)) => Ok(IceCreds { ufrag, pass }),
        _ => Err(codes::OUT_OF_MEMORY),
    }
}

/// Sets the agent's own credentials.
#[unsafe(no_mangle)]
pub extern "C" fn is_ice_set_local_credentials(
    alloc: Global,
    slot: &mut Slot,
    ufrag: &[u8],
    pass: &[u8],
) -> i32
    ensures { At (Does (SetLocalCredentials ufrag.now pass.now)) (held_by slot.old) result (held_by slot.new) }
{
    let Some(held) = slot.held() else {
        return codes::NO_AGENT;
    };
    match creds_of(alloc, ufrag, pass) {
        Ok(creds) => codes::done_code(held.agent.set_local_credentials(creds)),
        Err(code) => code,
    }
}

fn set_remote(alloc: Global, held: &mut HeldAgent, ufrag: &[u8], pass: &[u8]) -> i32
    ensures { CallsWith SetsRemote ufrag.now pass.now (held_record held.old) result (held_record held.new) }
{
    match creds_of(alloc, ufrag, pass) {
        Ok(creds) => codes::done_code(held.agent.set_remote_credentials(creds)),
        Err(code) => code,
    }
}

/// Sets the peer's credentials.
#[unsafe(no_mangle)]
pub extern "C" fn is_ice_set_remote_credentials(
    alloc: Global,
    slot: &mut Slot,
    ufrag: &[u8],
    pass: &[u8],
) -> i32
    ensures { At (Followed at_once (SetRemoteCredentials ufrag.now pass.now)) (held_by slot.old) result (held_by slot.new) }
{
    let Some(held) = slot.held() else {
        return codes::NO_AGENT;
    };
    let code = set_remote(alloc, held, ufrag, pass);
    followed(held, true, code)
}

// ---- random credentials

/// How many random bytes credentials need.
const NEEDED: usize = 38;

#[tactic(auto, using(crate::proofs::Drawn::drawn_again))]
fn drawn(alloc: Global, random: &[u8]) -> Result<IceCreds, IceError>
    ensures { IfOk result (λ creds. creds ≡ drawn random.now) }
{
    let mut given = Given { rest: random };
    IceCreds::new(alloc, &mut given)
}

/// Writes both texts, each to the front of its buffer. If one of the buffers is too short, both are unchanged.
fn put_both(creds: &IceCreds, ufrag: &mut [u8], pass: &mut [u8]) -> i32
    ensures { PutsBoth creds.now ufrag.old pass.old result ufrag.new pass.new }
{
    let own_ufrag = creds.ufrag.as_str().as_bytes();
    let own_pass = creds.pass.as_str().as_bytes();
    if own_ufrag.len() > ufrag.len() || own_pass.len() > pass.len() {
        return codes::BUFFER_TOO_SHORT;
    }
    ufrag[..own_ufrag.len()].copy_from_slice(own_ufrag);
    pass[..own_pass.len()].copy_from_slice(own_pass);
    codes::OK
}

/// Makes credentials from 38 random bytes: a username fragment of 16 characters, and a password of 22.
#[unsafe(no_mangle)]
pub extern "C" fn is_ice_make_credentials(
    alloc: Global,
    random: &[u8],
    ufrag: &mut [u8],
    pass: &mut [u8],
) -> i32
    ensures { Draws random.now ufrag.old pass.old result ufrag.new pass.new }
{
    if random.len() < NEEDED {
        return codes::TOO_FEW_RANDOM_BYTES;
    }
    match drawn(alloc, random) {
        Ok(creds) => put_both(&creds, ufrag, pass),
        Err(_) => codes::OUT_OF_MEMORY,
    }
}

// ---- reading

/// Writes the agent's own username fragment to the buffer.
#[unsafe(no_mangle)]
pub extern "C" fn is_ice_local_ufrag(
    alloc: Global,
    slot: &mut Slot,
    buffer: &mut [u8],
    length: &mut usize,
) -> i32
    ensures returned { At (Returns (λ a. a.local_creds.ufrag) buffer.old buffer.new length.new) (held_by slot.old) result (held_by slot.new) }
    ensures stays { held_by slot.new ≡ held_by slot.old }
    ensures without { held_by slot.old ≡ None → (buffer.new ≡ buffer.old) × (length.new ≡ length.old) }
{
    let Some(held) = slot.held() else {
        return codes::NO_AGENT;
    };
    let text = held.agent.local_credentials().ufrag.as_str();
    put(text.as_bytes(), buffer, length)
}

/// Writes the agent's own password to the buffer.
#[unsafe(no_mangle)]
pub extern "C" fn is_ice_local_pass(
    alloc: Global,
    slot: &mut Slot,
    buffer: &mut [u8],
    length: &mut usize,
) -> i32
    ensures returned { At (Returns (λ a. a.local_creds.pass) buffer.old buffer.new length.new) (held_by slot.old) result (held_by slot.new) }
    ensures stays { held_by slot.new ≡ held_by slot.old }
    ensures without { held_by slot.old ≡ None → (buffer.new ≡ buffer.old) × (length.new ≡ length.old) }
{
    let Some(held) = slot.held() else {
        return codes::NO_AGENT;
    };
    let text = held.agent.local_credentials().pass.as_str();
    put(text.as_bytes(), buffer, length)
}
