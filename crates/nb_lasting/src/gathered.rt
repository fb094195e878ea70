//! All handles of a map, each with one seat, are made one, which is counted or made anew, and
//! split again.
ghost use Rattle.std.specs.Prelude.{[], IfErr, IfOk, length, vec_capacity, ◌<◌, ◌≡◌, ◌≤◌};
ghost use Rattle.nb_core.specs.declared.calls.Call.TheVariants as call;
ghost use Rattle.nb_map.specs.Handles.{HandleOf, IsSameMap, IsWhole, seats_of};
ghost use Rattle.nb_map.specs.Renewing.{HasRenewed, HasTooMany, IsKept};
ghost use Rattle.nb_map.specs.Settling.{HaveSettled};
ghost use Rattle.nb_lasting.specs.Gathered.{AreSingle, HasWrittenBy, IsPartedCounted, IsRested, parts_of, seats_of_each};

use nb_core::{Change, Key, OutOfMemory, Reply, Shape, Want};
use nb_map::{Handle, PutFault, RenewFault, SettleFault, SettlingRoom, SplitFault};
use std::alloc::Global;
use std::sync::Wait;

/// All seats in one handle, in the order of their handles; and the vector that these were in, which
/// has room for as many. It takes no memory.
pub(crate) fn join_handles(handles: Vec<Handle>) -> (Handle, Vec<Handle>)
    requires single { AreSingle handles.items }
    ensures map { (single : AreSingle handles.items) → result.0.map ≡ single.shared }
    ensures seats { seats_of result.0 ≡ seats_of_each handles.items }
    ensures empty { result.1.items ≡ [] }
    ensures room { length handles.items ≤ vec_capacity result.1 }
{
    let mut others = handles;
    let mut whole = others.remove(0);
    others.reverse();
    while let Some(other) = others.pop() {
        let Ok(()) = whole.join(other) else {
            unreachable!();
        };
    }
    (whole, others)
}

/// A handle for each seat, in order, in a vector that has room for them. It takes no memory. It
/// waits only while the map has as many handles as it can count.
pub(crate) fn split_handle<R: Wait>(rt: &R, whole: Handle, room: Vec<Handle>) -> Vec<Handle>
    requires empty { room.items ≡ [] }
    requires room { length (seats_of whole) ≤ vec_capacity room }
    ensures { result.items ≡ parts_of whole }
{
    let mut handle = whole;
    let mut handles = room;
    for _ in rt.forever() {
        match handle.split() {
            Ok(other) => handles.push_reserved(other),
            Err(SplitFault::OutOfMemory) => {}
            Err(SplitFault::NoSeat) => {
                handles.push_reserved(handle);
                handles.reverse();
                return handles;
            }
        }
    }
    unreachable!()
}

/// A new map in place of this one, of which the handle is then. Where memory for that is refused, it
/// is of the same map, and has made reads alone.
fn renew_whole(alloc: Global, whole: &mut Handle, shape: Shape) -> Result<(), OutOfMemory>
    requires whole { IsWhole whole.old }
    requires room { HasTooMany shape whole.old → ⊥ }
    ensures renewed { IfOk result (λ done. HasRenewed shape whole.old whole.new) }
    ensures kept { IfErr result (λ refused. IsKept whole.old whole.new) }
{
    match whole.renew(alloc, shape) {
        Ok(()) => Ok(()),
        Err(RenewFault::OutOfMemory) => Err(OutOfMemory),
        Err(RenewFault::Full) => unreachable!(),
        Err(RenewFault::NotAll) => unreachable!(),
    }
}

/// The same. Where it is refused, all seats, which settle in this room, know what was read.
pub(crate) fn renew_or_settle(
    alloc: Global,
    whole: &mut Handle,
    settling: SettlingRoom,
    shape: Shape,
) -> Result<(), OutOfMemory>
    requires whole { IsWhole whole.old }
    requires settling { length (seats_of whole.old) ≤ settling }
    requires room { HasTooMany shape whole.old → ⊥ }
    ensures renewed { IfOk result (λ done. HasRenewed shape whole.old whole.new) }
    ensures rested { IfErr result (λ refused. IsRested whole.old whole.new) }
{
    let renewed = renew_whole(alloc, whole, shape);
    if renewed.is_err() {
        let Ok(_) = whole.settle_in(settling) else {
            unreachable!();
        };
    }
    renewed
}

/// How many keys the map has: all its seats, which settle, are in the handle. Where memory for that
/// is refused, it is as it was.
fn count_whole(alloc: Global, whole: &mut Handle) -> Result<u64, OutOfMemory>
    requires whole { IsWhole whole.old }
    ensures map { IsSameMap whole.old whole.new }
    ensures settled { IfOk result (HaveSettled whole.old.map (seats_of whole.old)
        (seats_of whole.new)) }
    ensures kept { IfErr result (λ refused. whole.new ≡ whole.old) }
{
    match whole.settle(alloc) {
        Ok(size) => Ok(size),
        Err(SettleFault::OutOfMemory) => Err(OutOfMemory),
        Err(SettleFault::NotAll) => unreachable!(),
    }
}

/// All handles of a map in one, and the vector that these were in, which has room for its parts; and
/// how many keys the map has, unless memory to count them is refused.
pub(crate) fn join_counted(
    alloc: Global,
    handles: Vec<Handle>,
) -> (Handle, Vec<Handle>, Result<u64, OutOfMemory>)
    requires single { AreSingle handles.items }
    requires all { (single : AreSingle handles.items)
        → length handles.items ≡ single.shared.chain.shape.seats }
    ensures counted { IsPartedCounted handles.items (parts_of result.0) result.2 }
    ensures whole { IsWhole result.0 }
    ensures empty { result.1.items ≡ [] }
    ensures room { length (seats_of result.0) ≤ vec_capacity result.1 }
{
    let (mut whole, room) = join_handles(handles);
    let size = count_whole(alloc, &mut whole);
    (whole, room, size)
}

/// All handles of a map as before, and how many keys it has, unless memory to count them is refused.
pub(crate) fn counted<R: Wait>(
    rt: &R,
    alloc: Global,
    handles: Vec<Handle>,
) -> (Vec<Handle>, Result<u64, OutOfMemory>)
    requires single { AreSingle handles.items }
    requires all { (single : AreSingle handles.items)
        → length handles.items ≡ single.shared.chain.shape.seats }
    ensures { IsPartedCounted handles.items result.0.items result.1 }
{
    let (whole, room, size) = join_counted(alloc, handles);
    (split_handle(rt, whole, room), size)
}

/// Makes a write by the handle of a lane.
pub(crate) fn write_by(
    handles: &mut Vec<Handle>,
    lane: usize,
    key: Key,
    want: &Want,
    change: &Change,
) -> Result<Reply, PutFault>
    requires lane { lane < length handles.old.items }
    ensures { HasWrittenBy lane (call.Write key want.now change.now) handles.old.items
        handles.new.items result }
{
    let Some(handle) = handles.get_mut(lane) else {
        unreachable!();
    };
    handle.put_if_match(key, *want, *change, u32::MAX)
}
