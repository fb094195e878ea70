//! What is known of a block's lines before they are entered, found by several threads.
ghost use Rattle.std.specs.Prelude.{◌≡◌, ◌≤◌, ◌++◌, IfOk, IsOk, OnOk, length, map};
ghost use Rattle.std.specs.Thread.{IsSync};
ghost use Rattle.nb_texts.specs.Clues.{AreCluesTo, HasOnlyLooked, HaveOnlyLooked, IsClueTo};
ghost use Rattle.nb_texts.specs.Hashes.{hash_of};
ghost use Rattle.nb_texts.specs.Lines.{lines_in};

use crate::hashing::{Hashing, key_after};
use crate::lines::{split_line, split_text};
use crate::texts::Texts;
use nb_core::{Key, Num, OutOfMemory};
use nb_map::Handle;
use std::alloc::Global;
use std::thread;
use std::thread::Threads;

/// How many bytes of lines are looked up together: all their keys before a text is compared, so that
/// the memory answers many loads at a time.
const TOGETHER: usize = 1 << 13;

/// What is known of a line before it is entered.
#[derive(Clone, Copy)]
pub(crate) enum Clue {
    /// It is at this place among the texts.
    Place(usize),
    /// It has this hash.
    Hash(u64),
}

/// A clue to each line, by as many threads as there are readers, or by none: its hash. The readers stay
/// with the caller, also where it is refused.
pub(crate) fn found_by<R: Threads + Sync>(
    rt: &R,
    alloc: Global,
    texts: &Texts,
    hashing: Hashing,
    text: &[u8],
    readers: &mut [Handle],
) -> Result<Vec<Clue>, OutOfMemory>
    ensures clues { IfOk result (λ clues.
        AreCluesTo hashing texts.now (lines_in text.now) clues.items) }
    ensures looked { HaveOnlyLooked readers.old readers.new }
{
    if readers.is_empty() {
        let hashes = hashes_of(alloc, hashing, text)?;
        return clues_by(alloc, texts, hashing, text, hashes.as_slice(), &[]);
    }
    found_by_all(rt, alloc, texts, hashing, text, readers)
}

/// A clue to each line, by all readers: each is a thread, with a piece of the text.
#[cycle(found)]
fn found_by_all<R: Threads + Sync>(
    rt: &R,
    alloc: Global,
    texts: &Texts,
    hashing: Hashing,
    text: &[u8],
    readers: &mut [Handle],
) -> Result<Vec<Clue>, OutOfMemory>
    requires some { 1 ≤ length readers.old }
    ensures clues { IfOk result (λ clues.
        AreCluesTo hashing texts.now (lines_in text.now) clues.items) }
    ensures looked { HaveOnlyLooked readers.old readers.new }
{
    let count = readers.len();
    if count < 2 {
        return looked_up(alloc, texts, hashing, text, &mut readers[0]);
    }
    let (front, back) = split_text(text, text.len() / 2);
    let (few, others) = readers.split_at_mut(count / 2);
    let (first, second) = thread::join_mut(
        rt,
        &mut || -> Result<Vec<Clue>, OutOfMemory>
            requires { IsSync R.row × (1 ≤ length few.now) }
            ensures { IfOk result (λ clues. AreCluesTo hashing texts.entry.now
                (lines_in front.entry.now) clues.items)
                × HaveOnlyLooked few.entry.now few.exit.now }
        { found_by_all(rt, alloc, texts, hashing, front, few) },
        &mut || -> Result<Vec<Clue>, OutOfMemory>
            requires { IsSync R.row × (1 ≤ length others.now) }
            ensures { IfOk result (λ clues. AreCluesTo hashing texts.entry.now
                (lines_in back.entry.now) clues.items)
                × HaveOnlyLooked others.entry.now others.exit.now }
        { found_by_all(rt, alloc, texts, hashing, back, others) },
    );
    both(first, second)
}

/// Clues to the lines of two texts, one behind the other, where there are clues to both.
fn both(
    first: Result<Vec<Clue>, OutOfMemory>,
    second: Result<Vec<Clue>, OutOfMemory>,
) -> Result<Vec<Clue>, OutOfMemory>
    ensures ok { OnOk result (IsOk first × IsOk second) }
    ensures clues { IfOk first (λ front. IfOk second (λ back.
        IfOk result (λ clues. clues.items ≡ front.items ++ back.items))) }
{
    let mut clues = first?;
    let second = second?;
    clues.extend_from_slice(second.as_slice())?;
    Ok(clues)
}

/// A clue to each line: its place, where the reader finds it at the first key for it, or its hash.
fn looked_up(
    alloc: Global,
    texts: &Texts,
    hashing: Hashing,
    text: &[u8],
    reader: &mut Handle,
) -> Result<Vec<Clue>, OutOfMemory>
    ensures clues { IfOk result (λ clues.
        AreCluesTo hashing texts.now (lines_in text.now) clues.items) }
    ensures looked { HasOnlyLooked reader.old reader.new }
{
    reader.known();
    let mut clues = Vec::new(alloc);
    let mut rest = text;
    while !rest.is_empty() {
        let (piece, behind) = split_text(rest, TOGETHER.min(rest.len()));
        let hashes = hashes_of(alloc, hashing, piece)?;
        let hashes = hashes.as_slice();
        let found = found_at(alloc, hashes, reader)?;
        let more = clues_by(alloc, texts, hashing, piece, hashes, found.as_slice())?;
        clues.extend_from_slice(more.as_slice())?;
        rest = behind;
    }
    Ok(clues)
}

/// The hash of each line.
fn hashes_of(alloc: Global, hashing: Hashing, text: &[u8]) -> Result<Vec<u64>, OutOfMemory>
    ensures { IfOk result (λ hashes. hashes.items ≡ map (hash_of hashing) (lines_in text.now)) }
{
    let mut hashes = Vec::new(alloc);
    let mut rest = text;
    while !rest.is_empty() {
        let (line, next) = split_line(rest);
        hashes.push(hashing.hash_of(line))?;
        rest = next;
    }
    Ok(hashes)
}

/// What the reader finds at the first key for each hash.
fn found_at(
    alloc: Global,
    hashes: &[u64],
    reader: &mut Handle,
) -> Result<Vec<Option<Num>>, OutOfMemory>
    ensures { HasOnlyLooked reader.old reader.new }
{
    reader.known();
    let keys = keys_of(alloc, hashes)?;
    let mut found = vec![in alloc; None; keys.len()]?;
    reader.get_many(keys.as_slice(), found.as_mut_slice());
    Ok(found)
}

/// The first key for each hash. Where a key is another one, its line just isn't found.
fn keys_of(alloc: Global, hashes: &[u64]) -> Result<Vec<Key>, OutOfMemory> {
    let mut keys = Vec::with_capacity(alloc, hashes.len())?;
    for hash in hashes {
        keys.push(key_after(*hash, 0))?;
    }
    Ok(keys)
}

/// A clue to each line, which has this hash, and for which this number was found, one after another: its
/// hash where there is no number, or another line at its place.
fn clues_by(
    alloc: Global,
    texts: &Texts,
    hashing: Hashing,
    text: &[u8],
    hashes: &[u64],
    found: &[Option<Num>],
) -> Result<Vec<Clue>, OutOfMemory>
    requires { hashes.now ≡ map (hash_of hashing) (lines_in text.now) }
    ensures { IfOk result (λ clues. AreCluesTo hashing texts.now (lines_in text.now) clues.items) }
{
    let mut clues = Vec::with_capacity(alloc, hashes.len())?;
    let mut rest = text;
    for hash in hashes {
        let (line, next) = split_line(rest);
        let number = found.get(clues.len());
        clues.push(clue_by(texts, hashing, line, *hash, number))?;
        rest = next;
    }
    Ok(clues)
}

/// A clue to a line, which has this hash, and for which this number was found.
fn clue_by(
    texts: &Texts,
    hashing: Hashing,
    line: &[u8],
    hash: u64,
    found: Option<&Option<Num>>,
) -> Clue
    requires { hash ≡ hash_of hashing line.now }
    ensures { IsClueTo hashing texts.now line.now result }
{
    if let Some(Some(place)) = found {
        let place = place.get() as usize;
        if texts.is_at(place, line) {
            return Clue::Place(place);
        }
    }
    Clue::Hash(hash)
}
