//! The clients of servers on the heap, as C holds them: by a pointer to nothing that C knows.
ghost use Rattle.std.specs.Prelude.{◌≡◌, ◌≢◌, Option, Some, None};
ghost use Rattle.is_c.specs.declared.servers.held.HeldServers.{HeldServers};
ghost use Rattle.is_c.specs.ServersHandles.{held_coded, handle_owns};

use crate::handle::Opaque;
use crate::parts::Parts;
use crate::servers::held::HeldServers;
use std::alloc::Global;
use std::marker::Model;

/// The address of clients on the heap, which the handle owns; or nothing.
#[repr(C)]
#[derive(Drop)]
pub struct ServersHandle {
    ptr: *mut Opaque,
    alloc: Global,
    pub(crate) ghost held: { Option HeldServers } by { held_coded },
}

impl Model for ServersHandle {
    ghost also_owns = { λ h. handle_owns h.alloc h.ptr h.held };
}

impl ServersHandle {
    ghost use Rattle.std.specs.Borrow.{sem};
    ghost use Rattle.is_c.specs.ServersBorrowing.{BorrowsAgent};

    /// Owns nothing, whatever the pointer.
    pub(crate) fn empty(alloc: Global, ptr: *mut Opaque) -> ServersHandle
        ensures { result.held ≡ None }
    {
        ServersHandle { ptr, alloc }
    }

    pub(crate) fn of_parts(parts: Parts<HeldServers, Global>) -> ServersHandle
        ensures { result.held ≡ Some parts.value }
    {
        let Parts { ptr, alloc } = parts;
        ServersHandle {
            ptr: ptr as *mut Opaque,
            alloc,
        }
    }

    pub(crate) fn into_parts(self) -> Parts<HeldServers, Global>
        requires { self.held ≢ None }
        ensures { Some result.value ≡ self.held }
    {
        let ServersHandle { ptr, alloc } = self;
        Parts {
            ptr: ptr as *mut HeldServers,
            alloc,
        }
    }

    /// The clients, in their place.
    pub(crate) fn as_mut(&mut self) -> &mut HeldServers
        requires { self.old.held ≢ None }
        ensures* writes_back { sem 𝓛 (BorrowsAgent self.entry result) }
        ensures value { Some result.now ≡ self.old.held }
    {
        unsafe { &mut *(self.ptr as *mut HeldServers) }
    }
}
