//! The steps by which many keys leave a core at once: the numbers of a stretch of its slots are frozen
//! where they stand, and listed; the list is copied to a core behind; and what has come there is
//! marked at its slots. In the core that they leave nothing is searched for.
ghost use Rattle.std.specs.Prelude.{List, Some, length, max, take, ℕ, ◌+◌, ◌<◌, ◌≡◌, ◌≤◌, ◌⊎◌};
ghost use Rattle.nb_core.specs.Plans.{generations_of, size_of};
ghost use Rattle.nb_map.specs.Handles.{KeepsRest};
ghost use Rattle.nb_map.specs.Maps.{SeatOf};
ghost use Rattle.nb_map.specs.NamedCalls.{exchange_of};
ghost use Rattle.nb_map.specs.Slots.{HasMadeLooks, KeyHasSlot};
ghost use Rattle.nb_migration.specs.Pieces.{HasCopiedAll, HasCopiedEntries, HasFrozenAt, HasFrozenKey, HasFrozenStretch, HasMarkedAll, HasMarkedEntry, HasMovedStretch, done_or_fault, shown_of_key, told_of_key};
ghost use Rattle.nb_migration.specs.Settling.{HasStepped, mark_of};
ghost use Rattle.nb_migration.specs.declared.copying.Copied.{Copied};
ghost use Rattle.nb_migration.specs.declared.pieces.FrozenEntry.{FrozenEntry};

use crate::copying::{Copied, copy};
use crate::numbers::{CLOSED, Seen, UserNumber, in_range, seen_of};
use crate::settling::mark;
use crate::writes::{CoreFault, fault_of};
use nb_core::{Change, Key, Num, Want};
use nb_map::Handle;

/// A number that is frozen in a core, with its key and the key's slot there.
#[derive(Clone, Copy, Debug, PartialEq, Eq)]
pub struct FrozenEntry {
    pub key: Key,
    pub number: UserNumber,
    pub slot: usize,
}

/// How far the freezing of a stretch of slots has come.
#[derive(Clone, Copy, Debug, PartialEq, Eq)]
pub struct Stretch {
    /// How many slots are done, from the first one on.
    pub passed: usize,
    /// How many entries are listed.
    pub listed: usize,
}

/// How far the move of a stretch of slots has come.
#[derive(Clone, Copy, Debug, PartialEq, Eq)]
pub struct MovedStretch {
    /// The slots that are done, and the entries that are listed.
    pub stretch: Stretch,
    /// How many entries are done, from the first one on: all, but where a mark is refused.
    pub marked: usize,
}

/// What has become of a slot.
#[derive(Clone, Copy, Debug, PartialEq, Eq)]
enum AtSlot {
    /// It has no number that could be copied: no key, none at its key, or a closed key.
    Passed,
    /// Its key has this number, frozen.
    Listed(Key, UserNumber),
    /// Another write came first.
    Changed,
}

/// How many entries a copy of a list looks ahead at, at a time.
const AHEAD: usize = 32;

/// Freezes the numbers of a stretch of slots, from slot `first` on, where they stand: as many slots
/// as the list has room for, but none behind the table's last one. It lists what is frozen there
/// then, also what was before. Where another write comes first at a slot, it stops, and the caller
/// goes on with this slot.
pub fn freeze_stretch(
    core: &mut Handle,
    first: usize,
    list: &mut [FrozenEntry],
    tries: u32,
) -> Stretch
    requires one { generations_of core.old.map.chain.shape ≡ 1 }
    ensures frozen { HasFrozenStretch core.old.map first (max tries 1) core.old.seat core.new.seat
        list.old list.new result }
    ensures rest { KeepsRest core.old core.new }
{
    let slots = list
        .len()
        .min(core.shape().size_of(0).saturating_sub(first));
    let mut listed = 0;
    for passed in 0..slots {
        match freeze_at(core, first + passed, tries) {
            AtSlot::Passed => {}
            AtSlot::Listed(key, number) => {
                let slot = first + passed;
                list[listed] = FrozenEntry { key, number, slot };
                listed += 1;
            }
            AtSlot::Changed => return Stretch { passed, listed },
        }
    }
    Stretch {
        passed: slots,
        listed,
    }
}

/// Freezes the number that a slot has.
#[inline(always)]
fn freeze_at(core: &mut Handle, slot: usize, tries: u32) -> AtSlot
    requires one { generations_of core.old.map.chain.shape ≡ 1 }
    requires slot { slot < size_of core.old.map.chain.shape 0 }
    ensures frozen { HasFrozenAt core.old.map slot core.old.seat core.new.seat (max tries 1) result }
    ensures rest { KeepsRest core.old core.new }
{
    match core.key_at(slot) {
        Some(key) => told_of_key(key, freeze_there(core, slot, key, tries)),
        None => AtSlot::Passed,
    }
}

/// What is told of a slot by what its key has then, or why that isn't known.
#[inline(always)]
fn told_of_key(key: Key, seen: Result<Seen, CoreFault>) -> AtSlot
    ensures { result ≡ told_of_key key seen }
{
    match seen {
        Ok(shown) => shown_of_key(key, shown),
        Err(_) => AtSlot::Changed,
    }
}

/// What is told of a slot by what its key has then.
#[inline(always)]
fn shown_of_key(key: Key, shown: Seen) -> AtSlot
    ensures { result ≡ shown_of_key key shown }
{
    match shown {
        Seen::Frozen(number) => AtSlot::Listed(key, number),
        Seen::Closed | Seen::Absent => AtSlot::Passed,
        Seen::Open(_) => AtSlot::Changed,
    }
}

/// Freezes the number that the key of a slot has, and answers what it has then.
#[inline(always)]
fn freeze_there(core: &mut Handle, slot: usize, key: Key, tries: u32) -> Result<Seen, CoreFault>
    requires one { generations_of core.old.map.chain.shape ≡ 1 }
    requires slot { KeyHasSlot core.old.map core.old.seat slot key }
    ensures frozen { HasFrozenKey core.old.map key core.old.seat core.new.seat (max tries 1) result }
    ensures rest { KeepsRest core.old core.new }
{
    match seen_of(core.get_at(slot, key)) {
        Seen::Open(number) => {
            exchange_at(core, slot, key, number.plain(), number.frozen(), tries)
        }
        shown => Ok(shown),
    }
}

/// Exchanges a number of the core for another one at the slot of its key, and answers what the key
/// has then.
#[inline(always)]
fn exchange_at(
    core: &mut Handle,
    slot: usize,
    key: Key,
    old: Num,
    new: Num,
    tries: u32,
) -> Result<Seen, CoreFault>
    requires one { generations_of core.old.map.chain.shape ≡ 1 }
    requires slot { KeyHasSlot core.old.map core.old.seat slot key }
    ensures stepped { HasStepped core.old.map (exchange_of key (Some old) (Some new))
        core.old.seat core.new.seat (max tries 1) result }
    ensures rest { KeepsRest core.old core.new }
{
    match core.put_if_match_at(slot, key, Want::Equal(old), Change::Put(new), tries) {
        Ok(reply) if reply.matched => Ok(seen_of(Some(new))),
        Ok(reply) => Ok(seen_of(reply.before)),
        Err(refusal) => Err(fault_of(refusal)),
    }
}

/// Copies what was frozen to this core, entry by entry, as `copy` does: `answers[i]` is what has
/// become of `entries[i]`. Before it copies some it loads the home slots of their keys, so that the
/// memory answers many at a time.
pub fn copy_all(target: &mut Handle, entries: &[FrozenEntry], answers: &mut [Copied])
    requires one { generations_of target.old.map.chain.shape ≡ 1 }
    requires room { length answers.old ≡ length entries.now }
    ensures copied { HasCopiedAll target.old.map entries.now target.old.seat target.new.seat
        answers.new }
    ensures rest { KeepsRest target.old target.new }
{
    let mut done = 0;
    while done < entries.len() {
        let end = done + AHEAD.min(entries.len() - done);
        look_ahead(target, &entries[done..end]);
        copy_some(target, entries, answers, done, end);
        done = end;
    }
}

/// Looks ahead at entries.
#[inline(always)]
fn look_ahead(target: &mut Handle, entries: &[FrozenEntry])
    ensures looked { (before : SeatOf) (copied : List FrozenEntry) (answers : List Copied) (looks : ℕ)
        → HasCopiedEntries target.old.map before copied answers looks target.old.seat
        → HasCopiedEntries target.old.map before copied answers (looks + length entries.now)
        target.new.seat }
    ensures rest { KeepsRest target.old target.new }
{
    for entry in entries {
        target.look_ahead(entry.key);
    }
}

/// Copies the entries of some places.
#[inline(always)]
fn copy_some(
    target: &mut Handle,
    entries: &[FrozenEntry],
    answers: &mut [Copied],
    start: usize,
    end: usize,
)
    requires one { generations_of target.old.map.chain.shape ≡ 1 }
    requires room { length answers.old ≡ length entries.now }
    requires order { start ≤ end }
    requires within { end ≤ length entries.now }
    ensures copied { (before : SeatOf) (looks : ℕ)
        → HasCopiedEntries target.old.map before (take start entries.now) (take start answers.old)
        looks target.old.seat
        → HasCopiedEntries target.old.map before (take end entries.now) (take end answers.new)
        looks target.new.seat }
    ensures room { length answers.new ≡ length entries.now }
    ensures rest { KeepsRest target.old target.new }
{
    for i in start..end {
        let entry = entries[i];
        answers[i] = copy(target, entry.key, entry.number);
    }
}

/// Closes the keys of a list that have come to the core behind, or had come before, as the answers of
/// their copies tell: each as `mark` does. It answers how many entries are done, from the first one
/// on: all, or those before one whose mark is refused.
pub fn mark_all(core: &mut Handle, entries: &[FrozenEntry], answers: &[Copied], tries: u32) -> usize
    requires one { generations_of core.old.map.chain.shape ≡ 1 }
    requires answers { length answers.now ≡ length entries.now }
    ensures marked { HasMarkedAll core.old.map entries.now answers.now (max tries 1) core.old.seat
        core.new.seat result }
    ensures rest { KeepsRest core.old core.new }
{
    for i in 0..entries.len() {
        if mark_entry(core, &entries[i], answers[i], tries).is_err() {
            return i;
        }
    }
    entries.len()
}

/// Closes the key of an entry, if its copy was answered so.
#[inline(always)]
fn mark_entry(
    core: &mut Handle,
    entry: &FrozenEntry,
    answer: Copied,
    tries: u32,
) -> Result<(), CoreFault>
    requires one { generations_of core.old.map.chain.shape ≡ 1 }
    ensures marked { HasMarkedEntry answer core.old.map entry.now core.old.seat core.new.seat
        (max tries 1) result }
    ensures rest { KeepsRest core.old core.new }
{
    match answer {
        Copied::Came | Copied::HadNumber => done_or_fault(mark_at(core, entry, tries)),
        Copied::Closed | Copied::Full => Ok(()),
    }
}

/// Whether a mark is done.
#[inline(always)]
fn done_or_fault(marked: Result<Seen, CoreFault>) -> Result<(), CoreFault>
    ensures { result ≡ done_or_fault marked }
{
    match marked {
        Ok(_) => Ok(()),
        Err(fault) => Err(fault),
    }
}

/// Closes the key of an entry, at its slot if that is the key's, else by a search.
#[inline(always)]
fn mark_at(core: &mut Handle, entry: &FrozenEntry, tries: u32) -> Result<Seen, CoreFault>
    requires one { generations_of core.old.map.chain.shape ≡ 1 }
    ensures marked { (then : SeatOf) × ((then ≡ core.old.seat)
        ⊎ HasMadeLooks core.old.map core.old.seat then 1)
        × HasStepped core.old.map (mark_of entry.now.key entry.now.number) then core.new.seat
        (max tries 1) result }
    ensures rest { KeepsRest core.old core.new }
{
    let FrozenEntry { key, number, slot } = *entry;
    if slot < core.shape().size_of(0) && core.key_at(slot) == Some(key) {
        return exchange_at(core, slot, key, number.frozen(), in_range(CLOSED), tries);
    }
    mark(core, key, number, tries)
}

/// Moves a stretch of slots from one core to the one behind: `freeze_stretch`, and of what that lists
/// `copy_all` and then `mark_all`. `answers[i]` is what has become of the copy of `list[i]`: where it
/// is closed there, or without a slot, the copy goes on behind, by `copy_on`.
pub fn move_stretch(
    source: &mut Handle,
    target: &mut Handle,
    first: usize,
    list: &mut [FrozenEntry],
    answers: &mut [Copied],
    tries: u32,
) -> MovedStretch
    requires one { (generations_of source.old.map.chain.shape ≡ 1)
        × (generations_of target.old.map.chain.shape ≡ 1) }
    requires room { length answers.old ≡ length list.old }
    ensures moved { HasMovedStretch source.old.map target.old.map first (max tries 1) source.old.seat
        source.new.seat target.old.seat target.new.seat list.old list.new answers.new result }
    ensures rest { KeepsRest source.old source.new × KeepsRest target.old target.new }
{
    let stretch = freeze_stretch(source, first, list, tries);
    let entries = &list[..stretch.listed];
    copy_all(target, entries, &mut answers[..stretch.listed]);
    let marked = mark_all(source, entries, &answers[..stretch.listed], tries);
    MovedStretch { stretch, marked }
}
