//! The clients of servers: made and freed.

ghost use denote.RawPtr.{Testable};
ghost use Rattle.std.specs.Borrow.{full_share, sem};
ghost use Rattle.std.specs.Prelude.{◌≡◌, None};
ghost use Rattle.std.specs.Ptr.{lies_at, if_non_null};
ghost use Rattle.is_c.specs.ServersFreeing.{freed_at};
ghost use Rattle.is_c.specs.ServersHeld.{clients_held, MakesClients};
ghost use Rattle.is_c.specs.contracts.servers.slot.ServersSlot.{the_row as slot_row};

use crate::codes;
use crate::servers::held::HeldServers;
use crate::servers::slot::ServersSlot;
use is_servers::Servers;
use std::alloc::Global;

/// Makes the clients of a program in an empty slot: there are none yet.
#[unsafe(no_mangle)]
pub extern "C" fn is_ice_servers_new(alloc: Global, slot: &mut ServersSlot) -> i32
    ensures { MakesClients (clients_held slot.old) result (clients_held slot.new) }
{
    if slot.is_held() {
        return codes::HAS_SERVERS;
    }
    let held = HeldServers {
        servers: Servers::new(alloc),
    };
    match Box::new(alloc, held) {
        Ok(held) => {
            *slot = ServersSlot::of(held);
            codes::OK
        }
        Err(_) => codes::OUT_OF_MEMORY,
    }
}

/// Frees the clients of a slot, if it holds any.
pub(crate) fn free(alloc: Global, slot: &mut ServersSlot)
    ensures { clients_held slot.new ≡ None }
{
    drop(slot.take(alloc));
}

/// Frees the clients of a slot, if it holds any. At a null pointer it does nothing, as `free` of C does.
#[unsafe(no_mangle)]
pub unsafe extern "C" fn is_ice_servers_free(alloc: Global, slot: *mut ServersSlot)
    ghost before: { ServersSlot }
    requires testable { Testable slot }
    requires* memory { sem 𝓛 (if_non_null slot (lies_at slot_row full_share slot before)) }
    ensures* freed { sem 𝓛 (if_non_null slot (freed_at slot)) }
{
    if slot.is_null() {
        return;
    }
    free(alloc, &mut *slot);
}
