//! How C holds the clients of servers: in sixteen bytes of its own, which contain whether there are any and their address.
ghost use Rattle.std.specs.Prelude.{◌≡◌, None, Some, is_some, option_map};

use crate::handle::Opaque;
use crate::parts::Parts;
use crate::servers::handle::ServersHandle;
use crate::servers::held::HeldServers;
use std::alloc::Global;

fn nowhere() -> *mut Opaque {
    std::ptr::null_mut()
}

/// What C holds of the clients of servers. All bytes zero: nothing.
#[repr(C)]
pub struct ServersSlot {
    is_held: bool,
    handle: ServersHandle,
    ghost agrees: { is_held ≡ is_some handle.held },
}

impl ServersSlot {
    ghost use Rattle.std.specs.Borrow.{sem};
    ghost use Rattle.is_c.specs.ServersBorrowing.{BorrowsHeld};

    /// Holds nothing.
    pub(crate) fn empty(alloc: Global) -> ServersSlot
        ensures { result.handle.held ≡ None }
    {
        ServersSlot {
            is_held: false,
            handle: ServersHandle::empty(alloc, nowhere()),
        }
    }

    /// Holds these clients.
    pub(crate) fn of(held: Box<HeldServers>) -> ServersSlot
        ensures { result.handle.held ≡ Some held.value }
    {
        ServersSlot {
            is_held: true,
            handle: ServersHandle::of_parts(Parts::of(held)),
        }
    }

    /// What is held.
    pub(crate) fn into_held(self) -> Option<Box<HeldServers>>
        ensures { option_map (λ held. held.value) result ≡ self.handle.held }
    {
        let ServersSlot { is_held, handle } = self;
        if is_held {
            Some(handle.into_parts().into_box())
        } else {
            None
        }
    }

    /// Whether it holds clients, which may be none yet.
    pub(crate) fn is_held(&self) -> bool
        ensures { result ≡ is_some self.now.handle.held }
    {
        self.is_held
    }

    /// What is held, in its place: what the caller does to it is done to what the slot holds.
    pub(crate) fn held(&mut self) -> Option<&mut HeldServers>
        ensures* writes_back { sem 𝓛 (BorrowsHeld self.entry result) }
        ensures value { option_map (λ held. held.now) result ≡ self.old.handle.held }
    {
        if self.is_held {
            Some(self.handle.as_mut())
        } else {
            None
        }
    }

    /// Takes what is held, and leaves nothing.
    pub(crate) fn take(&mut self, alloc: Global) -> Option<Box<HeldServers>>
        ensures taken { option_map (λ held. held.value) result ≡ self.old.handle.held }
        ensures left { self.new.handle.held ≡ None }
    {
        std::mem::replace(self, ServersSlot::empty(alloc)).into_held()
    }
}

impl Drop for ServersSlot {
    fn drop(self) {
        drop(self.into_held());
    }
}
