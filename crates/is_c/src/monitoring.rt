//! What is kept next to the agent: the path for media, silence, and packets that could not be sent.

ghost use Rattle.std.specs.Prelude.{◌≡◌, None};
ghost use Rattle.is_c_calls.specs.Held.{At};
ghost use Rattle.is_c_calls.specs.Monitoring.{threshold_of, NotesFailure, NotesOn};
ghost use Rattle.is_c_calls.specs.Packets.{packet_path};
ghost use Rattle.is_c_calls.specs.Uses.{Does, SetSilence, SendFailed};
ghost use Rattle.is_c.specs.Monitoring.{ReturnsMediaPath, ReturnsTakes, ReturnsSilentSince, CountsFailures, IsFailure, ReturnsFailure};
ghost use Rattle.is_c.specs.Slots.{held_record, held_by};

use crate::address::{address_of, number_of, socket_of};
use crate::clock::agent_time;
use crate::codes;
use crate::held::HeldAgent;
use crate::packets::{packet_path, write_time};
use crate::paths::{MediaPath, reported_path};
use crate::slot::Slot;
use is_c_calls::Address;
use is_monitor::FailedSend as Failure;
use is_proto::Duration;
use is_rules::emitted::Path;
use std::alloc::Global;

// ---- media

/// Writes the path for media at time `now`: the selected one. After an ICE restart the one before, until a path is selected or consent to
/// it ends. Else that of a valid pair (RFC 8445, section 12.1).
#[unsafe(no_mangle)]
pub extern "C" fn is_ice_path_for_media(
    alloc: Global,
    slot: &mut Slot,
    now: u64,
    path: &mut MediaPath,
) -> i32
    ensures returned { At (ReturnsMediaPath now path.old path.new) (held_by slot.old) result (held_by slot.new) }
    ensures stays { held_by slot.new ≡ held_by slot.old }
    ensures without { held_by slot.old ≡ None → path.new ≡ path.old }
{
    let Some(held) = slot.held() else {
        return codes::NO_AGENT;
    };
    match held.monitor.media_path(&held.agent, agent_time(now)) {
        Some(found) => {
            *path = reported_path(found);
            codes::OK
        }
        None => codes::NOTHING,
    }
}

/// Whether media that was received at time `now` from this address is the peer's.
#[unsafe(no_mangle)]
pub extern "C" fn is_ice_takes_media_from(
    alloc: Global,
    slot: &mut Slot,
    now: u64,
    source: &Address,
) -> i32
    ensures returned { At (ReturnsTakes now source.now) (held_by slot.old) result (held_by slot.new) }
    ensures stays { held_by slot.new ≡ held_by slot.old }
{
    let Some(held) = slot.held() else {
        return codes::NO_AGENT;
    };
    match socket_of(source) {
        Some(source) => codes::found_code(
            held.monitor
                .takes_media_from(&held.agent, agent_time(now), source),
        ),
        None => codes::BAD_ADDRESS,
    }
}

// ---- silence

/// Writes since when the selected path is silent.
#[unsafe(no_mangle)]
pub extern "C" fn is_ice_silent_since(alloc: Global, slot: &mut Slot, since: &mut u64) -> i32
    ensures returned { At (ReturnsSilentSince since.old since.new) (held_by slot.old) result (held_by slot.new) }
    ensures stays { held_by slot.new ≡ held_by slot.old }
    ensures without { held_by slot.old ≡ None → since.new ≡ since.old }
{
    let Some(held) = slot.held() else {
        return codes::NO_AGENT;
    };
    write_time(held.monitor.silent_since(), since)
}

fn threshold_of(nanoseconds: u64) -> Option<Duration>
    ensures { result ≡ threshold_of nanoseconds }
{
    if nanoseconds == u64::MAX {
        None
    } else {
        Some(Duration(nanoseconds))
    }
}

/// Sets after what time the selected path counts as silent. The greatest number: never.
#[unsafe(no_mangle)]
pub extern "C" fn is_ice_set_silence(alloc: Global, slot: &mut Slot, nanoseconds: u64) -> i32
    ensures { At (Does (SetSilence nanoseconds)) (held_by slot.old) result (held_by slot.new) }
{
    let Some(held) = slot.held() else {
        return codes::NO_AGENT;
    };
    held.monitor.set_threshold(threshold_of(nanoseconds));
    codes::OK
}

// ---- packets that could not be sent

/// A packet could not be sent on a path, for a reason that is a number of the caller.
#[repr(C)]
#[derive(Clone, Copy)]
pub struct FailedSend {
    pub source: Address,
    pub destination: Address,
    /// How many packets could not be sent.
    pub times: u64,
    pub reason: u32,
    pub protocol: u8,
}

fn note(held: &mut HeldAgent, path: Path, reason: u32) -> i32
    ensures { NotesOn path reason (held_record held.old) result (held_record held.new) }
{
    match held.failures.note(path, reason) {
        Ok(()) => codes::OK,
        Err(_) => codes::OUT_OF_MEMORY,
    }
}

fn note_on(held: &mut HeldAgent, path: Option<Path>, reason: u32) -> i32
    ensures { NotesFailure path reason (held_record held.old) result (held_record held.new) }
{
    match path {
        Some(path) => note(held, path, reason),
        None => codes::BAD_ADDRESS,
    }
}

/// Notes that a packet could not be sent.
#[unsafe(no_mangle)]
pub extern "C" fn is_ice_send_failed(
    alloc: Global,
    slot: &mut Slot,
    protocol: u8,
    source: &Address,
    destination: &Address,
    reason: u32,
) -> i32
    ensures { At (Does (SendFailed protocol source.now destination.now reason)) (held_by slot.old) result (held_by slot.new) }
{
    let Some(held) = slot.held() else {
        return codes::NO_AGENT;
    };
    note_on(held, packet_path(protocol, source, destination), reason)
}

/// Writes how many failures are kept since the last ICE restart.
#[unsafe(no_mangle)]
pub extern "C" fn is_ice_failed_send_count(alloc: Global, slot: &mut Slot, count: &mut usize) -> i32
    ensures counted { At (CountsFailures count.new) (held_by slot.old) result (held_by slot.new) }
    ensures stays { held_by slot.new ≡ held_by slot.old }
    ensures without { held_by slot.old ≡ None → count.new ≡ count.old }
{
    let Some(held) = slot.held() else {
        return codes::NO_AGENT;
    };
    *count = held.failures.len();
    codes::OK
}

fn reported_failure(failed: Failure) -> FailedSend
    ensures { IsFailure failed result }
{
    FailedSend {
        source: address_of(failed.path.source),
        destination: address_of(failed.path.destination),
        times: failed.times,
        reason: failed.reason,
        protocol: number_of(failed.path.proto),
    }
}

/// Writes the failure with this index, the oldest first.
#[unsafe(no_mangle)]
pub extern "C" fn is_ice_failed_send_at(
    alloc: Global,
    slot: &mut Slot,
    index: usize,
    failed: &mut FailedSend,
) -> i32
    ensures returned { At (ReturnsFailure index failed.old failed.new) (held_by slot.old) result (held_by slot.new) }
    ensures stays { held_by slot.new ≡ held_by slot.old }
    ensures without { held_by slot.old ≡ None → failed.new ≡ failed.old }
{
    let Some(held) = slot.held() else {
        return codes::NO_AGENT;
    };
    match held.failures.get(index) {
        Some(found) => {
            *failed = reported_failure(found);
            codes::OK
        }
        None => codes::NOTHING,
    }
}
