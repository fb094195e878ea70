//! A handle of an ended map that C has: one word, which is null where it is empty.
ghost use Rattle.std.specs.Prelude.{◌≡◌, Option, Some, None};
ghost use Rattle.std.specs.Coded.{coded_option};
ghost use Rattle.nb_ffi.specs.declared.ended_map.EndedMap.{EndedMap};
ghost use Rattle.nb_ffi.specs.Owning.{handle_owns};
ghost use Rattle.nb_ffi.specs.contracts.ended_map.EndedMap.{the_row};

use crate::ended_map::EndedMap;
use crate::parts::Parts;
use std::alloc::Global;
use std::marker::Model;
use std::{mem, ptr};

/// What C calls a `samvolip_ended`. Contracts see what it stands for, or `None` where it is empty.
/// Nothing frees what it stands for except `take`.
#[repr(C)]
#[derive(Drop)]
pub struct EndedHandle {
    pub(crate) ptr: *mut u8,
    alloc: Global,
    pub ghost left: { Option EndedMap } by { coded_option the_row.coded },
}

impl Model for EndedHandle {
    ghost also_owns = { λ s. handle_owns the_row s.alloc s.ptr s.left };
}

impl EndedHandle {
    fn of_parts(parts: Parts<EndedMap, Global>) -> EndedHandle
        ensures { result.left ≡ Some parts.value }
    {
        let Parts { ptr, alloc } = parts;
        EndedHandle {
            ptr: ptr as *mut u8,
            alloc,
        }
    }

    fn into_parts(self) -> Parts<EndedMap, Global>
        requires open { (left : EndedMap) × (self.left ≡ Some left) }
        ensures { self.left ≡ Some result.value }
    {
        let EndedHandle { ptr, alloc } = self;
        Parts {
            ptr: ptr as *mut EndedMap,
            alloc,
        }
    }

    fn empty(alloc: Global) -> EndedHandle
        ensures { result.left ≡ None }
    {
        EndedHandle {
            ptr: ptr::null_mut(),
            alloc,
        }
    }

    /// Has an empty handle stand for this.
    pub(crate) fn fill(&mut self, left: Box<EndedMap, Global>)
        requires empty { self.old.left ≡ None }
        ensures { self.new.left ≡ Some left.value }
    {
        *self = EndedHandle::of_parts(Parts::of(left));
    }

    /// What the handle stands for, which is empty afterwards.
    pub(crate) fn take(&mut self, alloc: Global) -> Box<EndedMap, Global>
        requires open { (left : EndedMap) × (self.old.left ≡ Some left) }
        ensures taken { self.old.left ≡ Some result.value }
        ensures empty { self.new.left ≡ None }
    {
        let full = mem::replace(self, EndedHandle::empty(alloc));
        full.into_parts().into_box()
    }
}
