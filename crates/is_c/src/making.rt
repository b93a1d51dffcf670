//! Agents: made and freed.

ghost use denote.RawPtr.{Testable};
ghost use Rattle.std.specs.Borrow.{full_share, sem};
ghost use Rattle.std.specs.Prelude.{◌≡◌, None, false, IfOk, IfErr, MatchBool};
ghost use Rattle.std.specs.Ptr.{lies_at, if_non_null};
ghost use Rattle.is_rules.specs.Fitting.{are_too_long};
ghost use Rattle.is_c_calls.specs.Codes.{OUT_OF_MEMORY, CREDENTIALS_TOO_LONG};
ghost use Rattle.is_c_calls.specs.Making.{fresh_held, MakesAt};
ghost use Rattle.is_c.specs.Freeing.{freed_at};
ghost use Rattle.is_c.specs.contracts.slot.Slot.{the_row as slot_row};
ghost use Rattle.is_c.specs.Slots.{held_record, held_by};

use crate::codes;
use crate::credentials::creds_of;
use crate::held::HeldAgent;
use crate::slot::Slot;
use is_agent::{Agent, IceCreds};
use is_monitor::{FailedSends, Monitor};
use is_proto::Duration;
use is_rules::settings::Settings;
use std::alloc::Global;

/// After what time the selected path counts as silent, until another one is set.
const SILENCE: Duration = Duration(5_000_000_000);

fn boxed_agent(alloc: Global, creds: IceCreds, tie_breaker: u64) -> Result<Box<HeldAgent>, i32>
    ensures made { IfOk result (λ held. (are_too_long creds None ≡ false) × (held_record held.value ≡ fresh_held creds tie_breaker)) }
    ensures rejected { IfErr result (λ why. MatchBool (are_too_long creds None) (why ≡ CREDENTIALS_TOO_LONG) (why ≡ OUT_OF_MEMORY)) }
{
    let mut agent = match Agent::new(alloc, creds, tie_breaker) {
        Ok(agent) => agent,
        Err(error) => return Err(codes::code_of(&error)),
    };
    agent.set_settings(Settings::modern());
    let held = HeldAgent {
        agent,
        waiting: None,
        deadline: None,
        monitor: Monitor::new(Some(SILENCE)),
        failures: FailedSends::new(alloc),
    };
    match Box::new(alloc, held) {
        Ok(held) => Ok(held),
        Err(_) => Err(codes::OUT_OF_MEMORY),
    }
}

/// Makes a controlled agent in an empty slot.
#[unsafe(no_mangle)]
pub extern "C" fn is_ice_agent_new(
    alloc: Global,
    slot: &mut Slot,
    ufrag: &[u8],
    pass: &[u8],
    tie_breaker: u64,
) -> i32
    ensures { MakesAt ufrag.now pass.now tie_breaker (held_by slot.old) result (held_by slot.new) }
{
    if slot.is_held() {
        return codes::HAS_AGENT;
    }
    let creds = match creds_of(alloc, ufrag, pass) {
        Ok(creds) => creds,
        Err(code) => return code,
    };
    match boxed_agent(alloc, creds, tie_breaker) {
        Ok(held) => {
            *slot = Slot::of(held);
            codes::OK
        }
        Err(code) => code,
    }
}

/// Frees the agent of a slot, if it holds one.
pub(crate) fn free(alloc: Global, slot: &mut Slot)
    ensures { held_by slot.new ≡ None }
{
    drop(slot.take(alloc));
}

/// Frees the agent of a slot, if it holds one. At a null pointer it does nothing, as `free` of C does.
#[unsafe(no_mangle)]
pub unsafe extern "C" fn is_ice_agent_free(alloc: Global, slot: *mut Slot)
    ghost before: { Slot }
    requires testable { Testable slot }
    requires* memory { sem 𝓛 (if_non_null slot (lies_at slot_row full_share slot before)) }
    ensures* freed { sem 𝓛 (if_non_null slot (freed_at slot)) }
{
    if slot.is_null() {
        return;
    }
    free(alloc, &mut *slot);
}

/// The version of this interface. The header has the same number.
#[unsafe(no_mangle)]
pub extern "C" fn is_ice_version() -> u32
    ensures { result ≡ 8 }
{
    8
}
