//! How the handles of C are opened, split, joined and closed.
ghost use Rattle.std.specs.Prelude.{Err, IfErr, IfOk, [], length, nat_lt, ◌+◌, ◌^◌, ◌↔◌, ◌≡◌};
ghost use Rattle.nb_map.specs.Handles.{seats_of};
ghost use Rattle.nb_map.specs.declared.faults.SplitFault.TheVariants as fault;
ghost use Rattle.nb_ffi.specs.Closing.{IsEndOf, IsHandedBack};
ghost use Rattle.nb_ffi.specs.Handles.{IsNew, IsPartOf};

use crate::ended_map::EndedMap;
use nb_core::{OutOfMemory, Shape};
use nb_map::{Handle, SplitFault};
use std::alloc::Global;

/// Why a handle was not closed.
#[derive(Drop)]
pub(crate) enum CloseFault {
    OutOfMemory(Box<Handle, Global>),
    NotAllSeats(Box<Handle, Global>),
    /// Somebody else held the map, though its handle had all seats.
    Lost,
}

/// A new map, as the one handle that has all its seats.
pub(crate) fn opened(alloc: Global, shape: Shape) -> Result<Box<Handle, Global>, OutOfMemory>
    ensures { IfOk result (λ handle. IsNew shape handle.value) }
{
    let handle = Handle::open(alloc, shape)?;
    handle.known();
    match Box::new(alloc, handle) {
        Ok(handle) => Ok(handle),
        Err(_) => Err(OutOfMemory),
    }
}

/// A handle for the last seat in reserve.
pub(crate) fn split(handle: &mut Handle, alloc: Global) -> Result<Box<Handle, Global>, SplitFault>
    ensures split { IfOk result (λ other. IsPartOf handle.old handle.new other.value) }
    ensures refused { IfErr result (λ _. handle.new ≡ handle.old) }
    ensures no_seat { (result ≡ Err fault.NoSeat) ↔ (handle.old.reserve ≡ []) }
{
    let _ = handle.seats();
    let part = handle.split()?;
    match Box::new(alloc, part) {
        Ok(part) => Ok(part),
        Err(failed) => match handle.join(failed.value) {
            Ok(()) => Err(SplitFault::OutOfMemory),
            Err(_) => unreachable!(),
        },
    }
}

/// Whether so many seats can be counted as two handles have together.
pub(crate) fn can_join(handle: &Handle, other: &Handle) -> bool
    ensures { result ≡ nat_lt (length (seats_of handle.now) + length (seats_of other.now)) (2 ^ 63) }
{
    handle.seats() + other.seats() <= isize::MAX as usize
}

/// What is left of the map of a handle that has all its seats.
pub(crate) fn closed(
    alloc: Global,
    handle: Box<Handle, Global>,
) -> Result<Box<EndedMap, Global>, CloseFault>
    ensures ended { IfOk result (λ left. IsEndOf handle.value left.value) }
    ensures refused { IfErr result (IsHandedBack handle.value) }
{
    if !handle.is_whole() {
        return Err(CloseFault::NotAllSeats(handle));
    }
    let Ok(mut left) = Box::new(alloc, EndedMap { ended: None }) else {
        return Err(CloseFault::OutOfMemory(handle));
    };
    match Box::into_inner(handle).try_close() {
        Ok(ended) => {
            left.ended = Some(ended);
            Ok(left)
        }
        Err(_) => Err(CloseFault::Lost),
    }
}
