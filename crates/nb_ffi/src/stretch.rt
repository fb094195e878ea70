//! Moves of stretches of a core's slots. What has to be settled key by key after one is written into
//! an array of the caller's.
ghost use Rattle.std.specs.Prelude.{length, min, List, ◌≡◌, ◌≤◌};
ghost use Rattle.nb_core.specs.Plans.{generations_of};
ghost use Rattle.nb_ffi.specs.Entries.{written_over};
ghost use Rattle.nb_ffi.specs.Stretches.{HasLeftStretch, HasTakenStretch, IsStretchTold, goes_on, going_on};
ghost use Rattle.nb_migration.specs.declared.copying.Copied.{Copied};
ghost use Rattle.nb_migration.specs.declared.pieces.FrozenEntry.{FrozenEntry};
ghost use Rattle.nb_migration.specs.declared.pieces.MovedStretch.{MovedStretch};

use crate::codes::{E_CONTENDED, OK};
use crate::ended_map::MapEntry;
use nb_core::Key;
use nb_map::Handle;
use nb_migration::UserNumber;
use nb_migration::copying::Copied;
use nb_migration::pieces::{self, FrozenEntry};

/// How many slots are moved by a call at most.
pub const CORE_STRETCH: usize = 128;

/// How far the move of a stretch has come.
#[repr(C)]
#[derive(Clone, Copy)]
pub struct CoreStretch {
    /// How many slots are done, from the first one on.
    pub passed: u64,
    /// How many entries were written whose copies go on behind.
    pub left: u64,
}

/// An entry before there is one.
fn blank() -> FrozenEntry {
    let Ok(number) = UserNumber::new(0) else {
        unreachable!()
    };
    FrozenEntry {
        key: Key::from(0u32),
        number,
        slot: 0,
    }
}

/// `pieces::move_stretch`, of as many slots as there is room for, but no more than 128: how far it has
/// come, and whether no mark was refused.
pub(crate) fn move_stretch(
    source: &mut Handle,
    target: &mut Handle,
    first: usize,
    tries: u32,
    left: &mut [MapEntry],
) -> (i32, CoreStretch)
    requires one { (generations_of source.old.map.chain.shape ≡ 1)
        × (generations_of target.old.map.chain.shape ≡ 1) }
    ensures { (old : List FrozenEntry) × (new : List FrozenEntry) × (answers : List Copied)
        × (moved : MovedStretch) × (length old ≡ min (length left.old) CORE_STRETCH)
        × IsStretchTold moved new answers result.0 left.old left.new result.1
        × HasLeftStretch first tries old new answers moved source.old source.new
        × HasTakenStretch new answers moved target.old target.new }
{
    let room = left.len().min(CORE_STRETCH);
    let mut list = [blank(); CORE_STRETCH];
    let mut answers = [Copied::Came; CORE_STRETCH];
    move_listed(
        source,
        target,
        first,
        tries,
        &mut list[..room],
        &mut answers[..room],
        left,
    )
}

/// The same with room for the list and its answers.
fn move_listed(
    source: &mut Handle,
    target: &mut Handle,
    first: usize,
    tries: u32,
    list: &mut [FrozenEntry],
    answers: &mut [Copied],
    left: &mut [MapEntry],
) -> (i32, CoreStretch)
    requires one { (generations_of source.old.map.chain.shape ≡ 1)
        × (generations_of target.old.map.chain.shape ≡ 1) }
    requires room { length answers.old ≡ length list.old }
    requires left { length list.old ≤ length left.old }
    ensures { (moved : MovedStretch)
        × IsStretchTold moved list.new answers.new result.0 left.old left.new result.1
        × HasLeftStretch first tries list.old list.new answers.new moved source.old source.new
        × HasTakenStretch list.new answers.new moved target.old target.new }
{
    let moved = pieces::move_stretch(source, target, first, list, answers, tries);
    let listed = moved.stretch.listed;
    let count = write_left(&list[..listed], &answers[..listed], left);
    let told = CoreStretch {
        passed: moved.stretch.passed as u64,
        left: count as u64,
    };
    (
        if moved.marked == listed {
            OK
        } else {
            E_CONTENDED
        },
        told,
    )
}

/// Writes the entries whose copies go on, and answers how many these are.
fn write_left(entries: &[FrozenEntry], answers: &[Copied], left: &mut [MapEntry]) -> usize
    requires answers { length answers.now ≡ length entries.now }
    requires room { length entries.now ≤ length left.old }
    ensures written { left.new ≡ written_over (going_on entries.now answers.now) left.old }
    ensures count { result ≡ length (going_on entries.now answers.now) }
{
    let mut count = 0;
    for i in 0..entries.len() {
        if goes_on(answers[i]) {
            let entry = entries[i];
            left[count] = MapEntry {
                key: entry.key.get(),
                number: entry.number.get(),
            };
            count += 1;
        }
    }
    count
}

/// Whether a copy that was answered so goes on behind the core.
fn goes_on(answer: Copied) -> bool
    ensures { result ≡ goes_on answer }
{
    matches!(answer, Copied::Closed | Copied::Full)
}
