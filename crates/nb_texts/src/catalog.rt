//! A catalog: the distinct lines of a stream, found by their hashes in a map.
ghost use Rattle.std.specs.Prelude.{◌≡◌, ◌+◌, ◌*◌, ◌^◌, ◌≤◌, ◌<◌, ◌↔◌, ◌++◌, [], ◌∷◌, ℕ, All, IfErr, IfOk, IsOk, IsOkUnless, IsTrue, MatchOption, None, OnErr, OnOk, Option, Some, drop, length, map, max, min, slice_get, sum_by};
ghost use Rattle.std.specs.Bool.{OnFalse, OnTrue};
ghost use Rattle.nb_core.specs.Meaning.{IsCrowded};
ghost use Rattle.nb_core.specs.Plans.{HasRoomFor};
ghost use Rattle.nb_core.specs.declared.shapes.TheConstants.{MOST_KEYS};
ghost use Rattle.nb_lines.specs.declared.faults.ProgramFault.TheVariants as fault;
ghost use Rattle.nb_map.specs.Handles.{IsSameMap, IsWhole, KeepsRest, all_seats, seats_of};
ghost use Rattle.nb_map.specs.Logs.{HasFound, HasLogged};
ghost use Rattle.nb_map.specs.NamedCalls.{put_if_absent_of, remove_of};
ghost use Rattle.nb_map.specs.Renewing.{HasRenewed, HasTooMany, IsKept};
ghost use Rattle.nb_map.specs.Settling.{HaveSettled};
ghost use Rattle.nb_texts.specs.declared.catalog.TheConstants.{MOST_READERS};
ghost use Rattle.nb_texts.specs.Catalogs.{IsNoRoom};
ghost use Rattle.nb_texts.specs.Claims.{HasClaimedBy};
ghost use Rattle.nb_texts.specs.Clues.{AreCluesTo, ArePartedFrom, HaveOnlyLooked, IsClueTo};
ghost use Rattle.nb_texts.specs.Entering.{HasEntered, HasKeptIndex, HasNoRoomFor};
ghost use Rattle.nb_texts.specs.Hashes.{hash_of, key_for};
ghost use Rattle.nb_texts.specs.Lines.{HaveGrownBy, lines_in, text_of_lines, with_new_lines};
ghost use Rattle.nb_texts.specs.Memory.{bytes_to_make, lines_with, shape_with_room, widened};

use crate::clues::{Clue, found_by};
use crate::hashing::{Hashing, key_after};
use crate::lines::split_line;
use crate::memory::{Load, MemoryLimit, left_beside};
use crate::texts::Texts;
use nb_core::{Key, MOST_KEYS, Num, OutOfMemory, Shape};
use nb_lines::ProgramFault;
use nb_map::{Full, Handle, RenewFault};
use std::alloc::Global;
use std::sync::Wait;
use std::thread::Threads;

/// How many bytes a catalog keeps for a line beside its own: its place.
pub const CATALOG_EACH: usize = 16;

/// The most threads that look lines up.
const MOST_READERS: usize = 8;

/// How many seats a map has: one to write with, and one for each reader.
const SEATS: usize = MOST_READERS + 1;

/// How many bytes are worth a thread.
const WORTH: usize = 1 << 15;

/// How many bytes each word of a map takes while it is made, and each entry of the one before.
const MAKING: usize = 16;

/// The distinct lines of what was entered, in the order of their first coming.
#[derive(Drop)]
pub struct Catalog {
    pub(crate) texts: Texts,
    /// It has all seats of the map: its own, which writes, and those of readers in reserve.
    pub(crate) handle: Handle,
    pub(crate) hashing: Hashing,
    /// For how many lines the map has room.
    pub(crate) room: usize,
}

impl Catalog {
    ghost use Rattle.nb_texts.specs.Catalogs.{IsAtRest};
    ghost use Rattle.nb_texts.specs.Memory.{TellsWhetherFits};
    ghost use Rattle.nb_texts.specs.Stopped.{CanRest};

    /// A catalog without lines, whose map has room for so many at first. Under a limit it asks for the
    /// addresses of all lines that it may come to have; memory is taken as they come.
    pub fn open(
        alloc: Global,
        hashing: Hashing,
        room: usize,
        limit: Option<MemoryLimit>,
    ) -> Result<Catalog, ProgramFault>
        ensures rest { IfOk result IsAtRest }
        ensures empty { IfOk result (λ catalog. catalog.texts ≡ []) }
        ensures hashing { IfOk result (λ catalog. catalog.hashing ≡ hashing) }
        ensures room { IfOk result (λ catalog. catalog.room ≡ min room MOST_KEYS) }
        ensures errors { IsOkUnless result fault.OutOfMemory }
    {
        let room = room.min(MOST_KEYS);
        let handle = Handle::open(alloc, shape_for(room))?;
        Ok(Catalog {
            texts: texts_for(alloc, limit),
            handle,
            hashing,
            room,
        })
    }

    /// How many lines there are.
    pub fn len(&self) -> usize
        ensures { result ≡ length self.now.texts }
    {
        self.texts.len()
    }

    /// The text of the lines from a place on, each with a newline.
    pub fn text_from(&self, alloc: Global, first: usize) -> Result<Vec<u8>, OutOfMemory>
        ensures { IfOk result (λ text. text.items ≡ text_of_lines (drop first self.now.texts)) }
    {
        self.texts.text_from(alloc, first)
    }

    /// The line at a place.
    pub fn get(&self, place: usize) -> Option<&[u8]>
        ensures { MatchOption result (slice_get self.now.texts place ≡ None)
            (λ line. slice_get self.now.texts place ≡ Some line.now) }
    {
        self.texts.get(place)
    }

    /// Makes the map anew where it might not have room for so many more lines: afterwards it has, or
    /// has room for as many as any map can have. It is full only with more lines than that.
    pub fn make_room(&mut self, alloc: Global, lines: usize) -> Result<(), ProgramFault>
        requires rest { IsAtRest self.old }
        ensures rest { OnOk result (IsAtRest self.new) }
        ensures room { OnOk result (min (length self.new.texts + lines) MOST_KEYS ≤ self.new.room) }
        ensures wide { OnOk result (self.new.room
            ≤ max self.old.room (2 * (length self.old.texts + lines))) }
        ensures twice { OnOk result (self.old.room < min (length self.old.texts + lines) MOST_KEYS
            → self.new.room ≡ min (2 * (length self.old.texts + lines)) MOST_KEYS) }
        ensures enough { min (length self.old.texts + lines) MOST_KEYS ≤ self.old.room
            → IsOk result × (self.new ≡ self.old) }
        ensures same { self.new.texts ≡ self.old.texts }
        ensures hashing { self.new.hashing ≡ self.old.hashing }
        ensures stopped { OnErr result (CanRest self.new) }
        ensures errors { IfErr result IsNoRoom }
        ensures full { result ≡ Err fault.FullOfLines → MOST_KEYS < length self.old.texts }
    {
        let needed = self.texts.len().saturating_add(lines);
        if needed.min(MOST_KEYS) <= self.room {
            return Ok(());
        }
        self.renew_for(alloc, needed.saturating_mul(2).min(MOST_KEYS))
    }

    /// Makes room for a block of new lines, as [`make_room`](Catalog::make_room) does. It answers
    /// whether the block fits within a limit, if there is one. If not, nothing was done.
    pub fn make_room_within(
        &mut self,
        alloc: Global,
        limit: Option<MemoryLimit>,
        block: Load,
    ) -> Result<bool, ProgramFault>
        requires rest { IsAtRest self.old }
        ensures rest { OnOk result (IsAtRest self.new) }
        ensures room { IfOk result (λ fits. OnTrue fits
            (min (length self.new.texts + block.lines) MOST_KEYS ≤ self.new.room)) }
        ensures wide { OnOk result (self.new.room
            ≤ max self.old.room (2 * (length self.old.texts + block.lines))) }
        ensures wider { IfOk result (λ fits. OnTrue fits (self.old.room < lines_with self.old block
            → widened (lines_with self.old block) ≤ self.new.room)) }
        ensures enough { min (length self.old.texts + block.lines) MOST_KEYS ≤ self.old.room
            → IsOk result × (self.new ≡ self.old) }
        ensures same { self.new.texts ≡ self.old.texts }
        ensures hashing { self.new.hashing ≡ self.old.hashing }
        ensures fits { IfOk result (TellsWhetherFits limit self.new block) }
        ensures back { IfOk result (λ fits. OnFalse fits (self.new ≡ self.old)) }
        ensures stopped { OnErr result (CanRest self.new) }
        ensures errors { IfErr result IsNoRoom }
        ensures full { result ≡ Err fault.FullOfLines → MOST_KEYS < length self.old.texts }
    {
        match limit {
            Some(limit) => self.make_room_in(alloc, limit, block),
            None => {
                self.make_room(alloc, block.lines)?;
                Ok(true)
            }
        }
    }

    /// The same, within this limit.
    fn make_room_in(
        &mut self,
        alloc: Global,
        limit: MemoryLimit,
        block: Load,
    ) -> Result<bool, ProgramFault>
        requires rest { IsAtRest self.old }
        ensures rest { OnOk result (IsAtRest self.new) }
        ensures room { IfOk result (λ fits. OnTrue fits
            (min (length self.new.texts + block.lines) MOST_KEYS ≤ self.new.room)) }
        ensures wide { OnOk result (self.new.room
            ≤ max self.old.room (2 * (length self.old.texts + block.lines))) }
        ensures wider { IfOk result (λ fits. OnTrue fits (self.old.room < lines_with self.old block
            → widened (lines_with self.old block) ≤ self.new.room)) }
        ensures enough { min (length self.old.texts + block.lines) MOST_KEYS ≤ self.old.room
            → IsOk result × (self.new ≡ self.old) }
        ensures same { self.new.texts ≡ self.old.texts }
        ensures hashing { self.new.hashing ≡ self.old.hashing }
        ensures fits { IfOk result (TellsWhetherFits (Some limit) self.new block) }
        ensures back { IfOk result (λ fits. OnFalse fits (self.new ≡ self.old)) }
        ensures stopped { OnErr result (CanRest self.new) }
        ensures errors { IfErr result IsNoRoom }
        ensures full { result ≡ Err fault.FullOfLines → MOST_KEYS < length self.old.texts }
    {
        let words = self.handle.shape().words();
        let Some(left) = left_beside(limit, self.load(), block, words) else {
            return Ok(false);
        };
        let needed = self.texts.len().saturating_add(block.lines).min(MOST_KEYS);
        if needed <= self.room {
            return Ok(true);
        }
        let Some(room) = room_within(left, self.texts.len(), needed) else {
            return Ok(false);
        };
        self.renew_for(alloc, room)?;
        Ok(true)
    }

    /// The lines.
    fn load(&self) -> Load
        ensures lines { result.lines ≡ length self.now.texts }
        ensures bytes { result.bytes ≡ sum_by length self.now.texts }
    {
        Load {
            lines: self.texts.len(),
            bytes: self.texts.bytes(),
        }
    }

    /// Makes the map anew, with so much room.
    fn renew_for(&mut self, alloc: Global, room: usize) -> Result<(), ProgramFault>
        requires stopped { CanRest self.old }
        requires most { room ≤ MOST_KEYS }
        ensures rest { OnOk result (IsAtRest self.new) }
        ensures room { OnOk result (self.new.room ≡ room) }
        ensures same { self.new.texts ≡ self.old.texts }
        ensures hashing { self.new.hashing ≡ self.old.hashing }
        ensures shape { OnOk result (self.new.handle.map.chain.shape ≡ shape_with_room room) }
        ensures stopped { OnErr result (CanRest self.new) }
        ensures refused { OnErr result (self.new.room ≡ self.old.room) }
        ensures errors { IfErr result IsNoRoom }
        ensures full { result ≡ Err fault.FullOfLines → room < length self.old.texts }
    {
        renew(alloc, &mut self.handle, shape_for(room))?;
        self.room = room;
        Ok(())
    }

    /// Brings the lines to rest where a call was refused: the map is made anew, with as much room. Where
    /// that is refused, too, this can be tried again.
    pub fn rest(&mut self, alloc: Global) -> Result<(), ProgramFault>
        requires stopped { CanRest self.old }
        ensures rest { OnOk result (IsAtRest self.new) }
        ensures stopped { OnErr result (CanRest self.new) }
        ensures room { self.new.room ≡ self.old.room }
        ensures same { self.new.texts ≡ self.old.texts }
        ensures hashing { self.new.hashing ≡ self.old.hashing }
        ensures errors { IfErr result IsNoRoom }
        ensures full { result ≡ Err fault.FullOfLines → self.old.room < length self.old.texts }
    {
        let room = self.room;
        self.renew_for(alloc, room)
    }

    /// Enters the lines of a block, in their order, and answers their places. Several workers hash
    /// them, and look them up; then one enters those that weren't found. For each line that isn't
    /// there yet the map needs room: it is full only where, with all of them, there are more lines
    /// than it has room for. The lines that were there stay also where it is refused, and so do the
    /// map and all its seats; [`rest`](Catalog::rest) brings it to rest then.
    pub fn enter<R: Threads + Sync + Wait>(
        &mut self,
        rt: &R,
        alloc: Global,
        block: &[u8],
        workers: usize,
    ) -> Result<Vec<usize>, ProgramFault>
        requires rest { IsAtRest self.old }
        ensures rest { OnOk result (IsAtRest self.new) }
        ensures lines { OnOk result (self.new.texts
            ≡ with_new_lines self.old.texts (lines_in block.now)) }
        ensures places { IfOk result (λ places. map (slice_get self.new.texts) places.items
            ≡ map Some (lines_in block.now)) }
        ensures map { self.new.handle.map ≡ self.old.handle.map }
        ensures whole { IsWhole self.new.handle }
        ensures room { self.new.room ≡ self.old.room }
        ensures hashing { self.new.hashing ≡ self.old.hashing }
        ensures grown { HaveGrownBy (lines_in block.now) self.old.texts self.new.texts }
        ensures stopped { CanRest self.new }
        ensures errors { IfErr result IsNoRoom }
        ensures full { result ≡ Err fault.FullOfLines
            → self.old.room < length (with_new_lines self.old.texts (lines_in block.now)) }
    {
        let count = readers_for(block.len(), workers);
        let mut readers = split_readers(alloc, &mut self.handle, count)?;
        let places = enter_found(
            rt,
            alloc,
            &mut self.texts,
            &mut self.handle,
            self.hashing,
            block,
            &mut readers,
        );
        join_readers(alloc, &mut self.handle, readers)?;
        places
    }
}

/// No texts, but under a limit with room for as many as it lets be kept, if that isn't refused. So none
/// of them is ever twice in memory, as where it moves.
fn texts_for(alloc: Global, limit: Option<MemoryLimit>) -> Texts
    ensures { result ≡ [] }
{
    let mut texts = Texts::new(alloc);
    if let Some(limit) = limit {
        let _ = texts.reserve(limit.bytes, limit.bytes / CATALOG_EACH);
    }
    texts
}

/// The shape of a map with room for so many keys.
fn shape_for(room: usize) -> Shape
    requires { room ≤ MOST_KEYS }
    ensures room { HasRoomFor result room }
    ensures shape { result ≡ shape_with_room room }
{
    match Shape::for_keys(room, SEATS) {
        Ok(shape) => shape,
        Err(_) => unreachable!(),
    }
}

/// For how many lines a map can be made within so many bytes, beside one of so many entries: for twice
/// as many as are needed, or else for a quarter more.
fn room_within(left: usize, entries: usize, needed: usize) -> Option<usize>
    requires { needed ≤ MOST_KEYS }
    ensures { MatchOption result (left < bytes_to_make (widened needed) entries)
        (λ room. (widened needed ≤ room) × (room ≤ min (2 * needed) MOST_KEYS)
        × (bytes_to_make room entries ≤ left)) }
{
    let twice = (needed * 2).min(MOST_KEYS);
    if can_make(left, entries, twice) {
        return Some(twice);
    }
    let more = (needed + needed / 4).min(MOST_KEYS);
    if can_make(left, entries, more) {
        Some(more)
    } else {
        None
    }
}

/// Whether a map with so much room can be made within so many bytes, beside one of so many entries.
fn can_make(left: usize, entries: usize, room: usize) -> bool
    requires { room ≤ MOST_KEYS }
    ensures { IsTrue result ↔ (bytes_to_make room entries ≤ left) }
{
    match (left / MAKING).checked_sub(shape_for(room).words()) {
        Some(left) => entries <= left,
        None => false,
    }
}

/// Makes a map anew.
fn renew(alloc: Global, handle: &mut Handle, shape: Shape) -> Result<(), ProgramFault>
    requires whole { IsWhole handle.old }
    ensures renewed { OnOk result (HasRenewed shape handle.old handle.new) }
    ensures kept { OnErr result (IsKept handle.old handle.new) }
    ensures full { result ≡ Err fault.FullOfLines → HasTooMany shape handle.old }
    ensures errors { IfErr result IsNoRoom }
{
    match handle.renew(alloc, shape) {
        Ok(()) => Ok(()),
        Err(RenewFault::OutOfMemory) => Err(ProgramFault::OutOfMemory),
        Err(RenewFault::Full) => Err(ProgramFault::FullOfLines),
        Err(RenewFault::NotAll) => unreachable!(),
    }
}

/// How many readers look up the lines of so many bytes.
fn readers_for(bytes: usize, workers: usize) -> usize
    ensures { result ≤ min workers MOST_READERS }
{
    workers.min(bytes / WORTH).min(MOST_READERS)
}

/// So many handles for readers, or fewer, each with a seat out of the reserve.
fn split_readers(
    alloc: Global,
    handle: &mut Handle,
    count: usize,
) -> Result<Vec<Handle>, OutOfMemory>
    ensures same { IsSameMap handle.old handle.new × (handle.new.seat ≡ handle.old.seat) }
    ensures parted { IfOk result (λ readers. ArePartedFrom handle.old handle.new readers.items) }
    ensures few { IfOk result (λ readers. length readers.items ≤ count) }
    ensures refused { OnErr result (handle.new ≡ handle.old) }
{
    let mut readers = Vec::with_capacity(alloc, count)?;
    for _ in 0..count {
        let Ok(reader) = handle.split() else {
            return Ok(readers);
        };
        readers.push_reserved(reader);
    }
    Ok(readers)
}

/// Takes the readers' seats into the reserve, with which all are there, and lets all seats know all
/// calls.
fn join_readers(alloc: Global, handle: &mut Handle, readers: Vec<Handle>) -> Result<(), OutOfMemory>
    requires one { All (λ reader. reader.map ≡ handle.old.map) readers.items }
    requires all { length (handle.old.seat ∷ handle.old.reserve ++ all_seats readers.items)
        ≡ handle.old.map.chain.shape.seats }
    ensures map { IsSameMap handle.old handle.new }
    ensures settled { OnOk result ((size : ℕ) × HaveSettled handle.old.map
        (handle.old.seat ∷ handle.old.reserve ++ all_seats readers.items)
        (seats_of handle.new) size) }
    ensures whole { IsWhole handle.new }
    ensures refused { OnErr result ((handle.new.seat ≡ handle.old.seat)
        × (handle.new.reserve ≡ handle.old.reserve ++ all_seats readers.items)) }
{
    let _seats = handle.shape().seats();
    let Ok(()) = handle.join_all(readers) else {
        unreachable!();
    };
    settled(alloc, handle)
}

/// Lets all seats know all calls.
fn settled(alloc: Global, handle: &mut Handle) -> Result<(), OutOfMemory>
    requires whole { IsWhole handle.old }
    ensures map { IsSameMap handle.old handle.new }
    ensures settled { OnOk result ((size : ℕ) × HaveSettled handle.old.map (seats_of handle.old)
        (seats_of handle.new) size) }
    ensures whole { IsWhole handle.new }
    ensures refused { OnErr result (handle.new ≡ handle.old) }
{
    match handle.settle(alloc) {
        Ok(_size) => Ok(()),
        Err(_) => Err(OutOfMemory),
    }
}

/// Looks up the lines of a block by these readers, enters those that weren't found, and answers the
/// places of all.
fn enter_found<R: Threads + Sync + Wait>(
    rt: &R,
    alloc: Global,
    texts: &mut Texts,
    handle: &mut Handle,
    hashing: Hashing,
    block: &[u8],
    readers: &mut Vec<Handle>,
) -> Result<Vec<usize>, ProgramFault>
    ensures looked { HaveOnlyLooked readers.old.items readers.new.items }
    ensures rest { KeepsRest handle.old handle.new }
    ensures entered { OnOk result (HasEntered handle.old.map.chain.shape (key_for hashing)
        handle.old.seat handle.new.seat texts.old texts.new (lines_in block.now)) }
    ensures full { result ≡ Err fault.FullOfLines → HasNoRoomFor handle.old.map.chain.shape
        (key_for hashing) handle.old.seat handle.new.seat texts.old (lines_in block.now) }
    ensures index { HasKeptIndex (key_for hashing) handle.old.seat handle.new.seat texts.old
        texts.new }
    ensures grown { HaveGrownBy (lines_in block.now) texts.old texts.new }
    ensures places { IfOk result (λ places. map (slice_get texts.new) places.items
        ≡ map Some (lines_in block.now)) }
    ensures errors { IfErr result IsNoRoom }
{
    handle.known();
    let clues = found_by(rt, alloc, texts, hashing, block, readers.as_mut_slice())?;
    enter_lines(rt, alloc, texts, handle, hashing, block, clues.as_slice())
}

/// Enters the lines of a block, to which these are clues, one after another, and answers their
/// places.
fn enter_lines<R: Wait>(
    rt: &R,
    alloc: Global,
    texts: &mut Texts,
    handle: &mut Handle,
    hashing: Hashing,
    block: &[u8],
    clues: &[Clue],
) -> Result<Vec<usize>, ProgramFault>
    requires { AreCluesTo hashing texts.old (lines_in block.now) clues.now }
    ensures rest { KeepsRest handle.old handle.new }
    ensures entered { OnOk result (HasEntered handle.old.map.chain.shape (key_for hashing)
        handle.old.seat handle.new.seat texts.old texts.new (lines_in block.now)) }
    ensures full { result ≡ Err fault.FullOfLines → HasNoRoomFor handle.old.map.chain.shape
        (key_for hashing) handle.old.seat handle.new.seat texts.old (lines_in block.now) }
    ensures index { HasKeptIndex (key_for hashing) handle.old.seat handle.new.seat texts.old
        texts.new }
    ensures grown { HaveGrownBy (lines_in block.now) texts.old texts.new }
    ensures places { IfOk result (λ places. map (slice_get texts.new) places.items
        ≡ map Some (lines_in block.now)) }
    ensures errors { IfErr result IsNoRoom }
{
    handle.known();
    let mut places = Vec::with_capacity(alloc, clues.len())?;
    let mut rest = block;
    for clue in clues {
        let (line, next) = split_line(rest);
        let place = enter_by(rt, texts, handle, hashing, line, *clue)?;
        places.push(place)?;
        rest = next;
    }
    Ok(places)
}

/// Enters a line, to which this is a clue, and answers its place among the texts.
fn enter_by<R: Wait>(
    rt: &R,
    texts: &mut Texts,
    handle: &mut Handle,
    hashing: Hashing,
    line: &[u8],
    clue: Clue,
) -> Result<usize, ProgramFault>
    requires { IsClueTo hashing texts.old line.now clue }
    ensures rest { KeepsRest handle.old handle.new }
    ensures entered { OnOk result (HasEntered handle.old.map.chain.shape (key_for hashing)
        handle.old.seat handle.new.seat texts.old texts.new (line.now ∷ [])) }
    ensures full { result ≡ Err fault.FullOfLines → HasNoRoomFor handle.old.map.chain.shape
        (key_for hashing) handle.old.seat handle.new.seat texts.old (line.now ∷ []) }
    ensures index { HasKeptIndex (key_for hashing) handle.old.seat handle.new.seat texts.old
        texts.new }
    ensures grown { HaveGrownBy (line.now ∷ []) texts.old texts.new }
    ensures placed { IfOk result (λ place. slice_get texts.new place ≡ Some line.now) }
    ensures errors { IfErr result IsNoRoom }
{
    handle.known();
    match clue {
        Clue::Place(place) => Ok(place),
        Clue::Hash(hash) => enter_line(rt, texts, handle, hashing, line, hash),
    }
}

/// Enters a line, which has this hash, and answers its place among the texts.
fn enter_line<R: Wait>(
    rt: &R,
    texts: &mut Texts,
    handle: &mut Handle,
    hashing: Hashing,
    line: &[u8],
    hash: u64,
) -> Result<usize, ProgramFault>
    requires { hash ≡ hash_of hashing line.now }
    ensures rest { KeepsRest handle.old handle.new }
    ensures entered { OnOk result (HasEntered handle.old.map.chain.shape (key_for hashing)
        handle.old.seat handle.new.seat texts.old texts.new (line.now ∷ [])) }
    ensures full { result ≡ Err fault.FullOfLines → HasNoRoomFor handle.old.map.chain.shape
        (key_for hashing) handle.old.seat handle.new.seat texts.old (line.now ∷ []) }
    ensures index { HasKeptIndex (key_for hashing) handle.old.seat handle.new.seat texts.old
        texts.new }
    ensures grown { HaveGrownBy (line.now ∷ []) texts.old texts.new }
    ensures placed { IfOk result (λ place. slice_get texts.new place ≡ Some line.now) }
    ensures errors { IfErr result IsNoRoom }
{
    handle.known();
    let place = texts.len();
    let number = number_of(place)?;
    for tries in 0..u64::MAX {
        let key = key_after(hash, tries);
        match put(rt, handle, key, number)? {
            None => {
                push_at(rt, texts, handle, key, line)?;
                return Ok(place);
            }
            Some(found) => {
                let found = found.get() as usize;
                if texts.is_at(found, line) {
                    return Ok(found);
                }
            }
        }
    }
    Err(ProgramFault::FullOfLines)
}

/// Puts a line behind the texts, whose number was put at this key. If memory for it is refused, the
/// number is taken out again.
fn push_at<R: Wait>(
    rt: &R,
    texts: &mut Texts,
    handle: &mut Handle,
    key: Key,
    line: &[u8],
) -> Result<(), OutOfMemory>
    ensures rest { KeepsRest handle.old handle.new }
    ensures put { OnOk result (texts.new ≡ texts.old ++ line.now ∷ []) }
    ensures same { OnOk result (handle.new ≡ handle.old) }
    ensures kept { OnErr result (texts.new ≡ texts.old) }
    ensures taken { OnErr result ((number : Option ℕ)
        × HasFound (remove_of key) handle.old.seat handle.new.seat number) }
{
    let pushed = texts.push(line);
    if pushed.is_err() {
        let _number = handle.remove(rt, key);
    }
    pushed
}

/// Puts a number at a key that has none, and answers what was there.
fn put<R: Wait>(
    rt: &R,
    handle: &mut Handle,
    key: Key,
    number: Num,
) -> Result<Option<Num>, ProgramFault>
    ensures rest { KeepsRest handle.old handle.new }
    ensures found { IfOk result (HasFound (put_if_absent_of key number)
        handle.old.seat handle.new.seat) }
    ensures claims { HasClaimedBy handle.old.map.chain.shape
        (put_if_absent_of key number ∷ []) handle.old.seat handle.new.seat }
    ensures full { OnErr result (HasLogged handle.old.seat handle.new.seat []
        × IsCrowded handle.old.map.chain.shape handle.new.seat.chain.seen key) }
    ensures errors { IsOkUnless result fault.FullOfLines }
{
    match handle.put_if_absent(rt, key, number) {
        Ok(found) => Ok(found),
        Err(Full) => Err(ProgramFault::FullOfLines),
    }
}

/// A place as a value number.
fn number_of(place: usize) -> Result<Num, ProgramFault>
    ensures same { IfOk result (λ number. number ≡ place) }
    ensures full { OnErr result (2 ^ 60 ≤ place) }
    ensures errors { IsOkUnless result fault.FullOfLines }
{
    match Num::new(place as u64) {
        Ok(number) => Ok(number),
        Err(_) => Err(ProgramFault::FullOfLines),
    }
}
