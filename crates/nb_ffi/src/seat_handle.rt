//! A map's handle as C has it: one word, which is null where it is empty.
ghost use Rattle.std.specs.Prelude.{◌≡◌, Option, Some, None};
ghost use Rattle.std.specs.Coded.{coded_option};
ghost use Rattle.nb_map.specs.Handles.{HandleOf};
ghost use Rattle.nb_ffi.specs.Owning.{handle_owns};
ghost use Rattle.nb_map.specs.contracts.handle.Handle.{the_row};

use crate::parts::Parts;
use nb_map::Handle;
use std::alloc::Global;
use std::marker::Model;
use std::{mem, ptr};

/// What C calls a `samvolip_seat`. Contracts see the map's handle that it stands for, or `None` where
/// it is empty. Nothing frees what it stands for except `take`.
#[repr(C)]
#[derive(Drop)]
pub struct SeatHandle {
    pub(crate) ptr: *mut u8,
    alloc: Global,
    pub ghost handle: { Option HandleOf } by { coded_option the_row.coded },
}

impl Model for SeatHandle {
    ghost also_owns = { λ s. handle_owns the_row s.alloc s.ptr s.handle };
}

impl SeatHandle {
    fn of_parts(parts: Parts<Handle, Global>) -> SeatHandle
        ensures { result.handle ≡ Some parts.value }
    {
        let Parts { ptr, alloc } = parts;
        SeatHandle {
            ptr: ptr as *mut u8,
            alloc,
        }
    }

    fn into_parts(self) -> Parts<Handle, Global>
        requires open { (handle : HandleOf) × (self.handle ≡ Some handle) }
        ensures { self.handle ≡ Some result.value }
    {
        let SeatHandle { ptr, alloc } = self;
        Parts {
            ptr: ptr as *mut Handle,
            alloc,
        }
    }

    fn empty(alloc: Global) -> SeatHandle
        ensures { result.handle ≡ None }
    {
        SeatHandle {
            ptr: ptr::null_mut(),
            alloc,
        }
    }

    /// Has an empty handle stand for this.
    pub(crate) fn fill(&mut self, handle: Box<Handle, Global>)
        requires empty { self.old.handle ≡ None }
        ensures { self.new.handle ≡ Some handle.value }
    {
        *self = SeatHandle::of_parts(Parts::of(handle));
    }

    /// What the handle stands for, which is empty afterwards.
    pub(crate) fn take(&mut self, alloc: Global) -> Box<Handle, Global>
        requires open { (handle : HandleOf) × (self.old.handle ≡ Some handle) }
        ensures taken { self.old.handle ≡ Some result.value }
        ensures empty { self.new.handle ≡ None }
    {
        let full = mem::replace(self, SeatHandle::empty(alloc));
        full.into_parts().into_box()
    }
}

// Another thread may have the handle: its map may be shared by threads, and its seat may go to one.
unsafe impl Send for SeatHandle {}
