//! What a handle lends. It is a file of its own, since specs that the struct cites may not cite it.
ghost use Rattle.std.specs.Prelude.{◌≡◌, Some};
ghost use types.Logic.{sem};
ghost use Rattle.nb_ffi.specs.declared.ended_map.EndedMap.{EndedMap};
ghost use Rattle.nb_map.specs.Handles.{HandleOf};
ghost use Rattle.nb_ffi.specs.Lending.{left_follows, handle_follows};

use crate::ended_handle::EndedHandle;
use crate::ended_map::EndedMap;
use crate::seat_handle::SeatHandle;
use nb_map::Handle;

impl SeatHandle {
    /// What the handle stands for.
    #[inline]
    pub(crate) fn lend(&mut self) -> &mut Handle
        requires open { (handle : HandleOf) × (self.old.handle ≡ Some handle) }
        ensures* writes_back { sem 𝓛 (handle_follows self.entry result) }
        ensures value { self.old.handle ≡ Some result.now }
    {
        unsafe { &mut *(self.ptr as *mut Handle) }
    }
}

impl EndedHandle {
    /// What the handle stands for.
    #[inline]
    pub(crate) fn lend(&mut self) -> &mut EndedMap
        requires open { (left : EndedMap) × (self.old.left ≡ Some left) }
        ensures* writes_back { sem 𝓛 (left_follows self.entry result) }
        ensures value { self.old.left ≡ Some result.now }
    {
        unsafe { &mut *(self.ptr as *mut EndedMap) }
    }
}
