//! ICE restarts.
ghost use Rattle.is_c_calls.specs.Codes.{done_code};
ghost use Rattle.is_c.specs.Slots.{held_record, held_by};
ghost use Rattle.is_c_calls.specs.Following.{Followed, at_once};
ghost use Rattle.is_c_calls.specs.Held.{At};
ghost use Rattle.is_c_calls.specs.Packets.{Restarted, RestartsWith};
ghost use Rattle.is_c_calls.specs.Uses.{Does, Restart, RecreatePairs};

use crate::codes;
use crate::credentials::creds_of;
use crate::deadlines::followed;
use crate::held::HeldAgent;
use crate::slot::Slot;
use is_agent::IceCreds;
use is_proto::IceError;
use std::alloc::Global;

/// Restarts the session. A packet that waits for a longer buffer belongs to the old session, and is removed. The path for media stays.
fn begin(held: &mut HeldAgent, creds: IceCreds, keep: bool) -> Result<(), IceError>
    ensures { Restarted keep creds (held_record held.old) result (held_record held.new) }
{
    let monitor = held.monitor.restarted(&held.agent);
    held.agent.ice_restart(creds, keep)?;
    held.waiting = None;
    held.monitor = monitor;
    held.failures.clear();
    Ok(())
}

fn restart(alloc: Global, held: &mut HeldAgent, ufrag: &[u8], pass: &[u8], keep: bool) -> i32
    ensures { RestartsWith keep ufrag.now pass.now (held_record held.old) result (held_record held.new) }
{
    match creds_of(alloc, ufrag, pass) {
        Ok(creds) => codes::done_code(begin(held, creds, keep)),
        Err(code) => code,
    }
}

/// Restarts the session with new credentials; local candidates stay or are removed.
#[unsafe(no_mangle)]
pub extern "C" fn is_ice_restart(
    alloc: Global,
    slot: &mut Slot,
    ufrag: &[u8],
    pass: &[u8],
    keep: bool,
) -> i32
    ensures { At (Followed at_once (Restart ufrag.now pass.now keep)) (held_by slot.old) result (held_by slot.new) }
{
    let Some(held) = slot.held() else {
        return codes::NO_AGENT;
    };
    let code = restart(alloc, held, ufrag, pass, keep);
    followed(held, true, code)
}

fn recreate_pairs(held: &mut HeldAgent) -> i32
    ensures { Does RecreatePairs (held_record held.old) result (held_record held.new) }
{
    codes::done_code(held.agent.recreate_candidate_pairs())
}

/// Forms all pairs again, of all candidates that are not discarded.
#[unsafe(no_mangle)]
pub extern "C" fn is_ice_recreate_pairs(alloc: Global, slot: &mut Slot) -> i32
    ensures { At (Followed at_once RecreatePairs) (held_by slot.old) result (held_by slot.new) }
{
    let Some(held) = slot.held() else {
        return codes::NO_AGENT;
    };
    let code = recreate_pairs(held);
    followed(held, true, code)
}
