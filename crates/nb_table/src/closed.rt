//! What is left of a chain that is closed.
ghost use Rattle.std.specs.Prelude.{◌≡◌, ◌+◌, ◌<◌, IfOk, OnOk, slice_index};
ghost use Rattle.std.specs.FinMap as map;
ghost use Rattle.nb_core.specs.History.{map_of};
ghost use Rattle.nb_core.specs.Meaning.{is_blank, is_installed, shown_from, value_in};
ghost use Rattle.nb_core.specs.Plans.{IsPlan, generations_of, word_count};
ghost use Rattle.nb_core.specs.Tables.{IsSlot};
ghost use Rattle.nb_table.specs.Left.{IsLeft, tables_left};
ghost use Rattle.nb_table.specs.Listing.{IsListing};

use crate::chain::ChainSeat;
use nb_core::{
    Change, HeaderWord, INSTALLED, Key, KeyState, KeyWord, Num, OutOfMemory, PlainMap, Shape,
    TOP_INDEX, ValueState, ValueWord, Want,
};
use std::alloc::Global;
use std::marker::Model;
use std::snapshot::Snapshot;

/// A chain that no thread shares any more. Contracts see its shape, its words and the history that
/// left them.
pub struct Closed {
    pub(crate) table: atomic_table::Closed<(), Global>,
    pub(crate) shape: Shape,
    /// What the seats had seen when they closed the chain: so what the history is. Only clauses
    /// read it; it takes no memory.
    pub(crate) seats: Snapshot<Vec<ChainSeat>>,
}

impl Model for Closed {
    ghost use Rattle.nb_table.specs.Left.{ClosedOf};

    ghost Value = { ClosedOf };

    ghost use Rattle.nb_table.specs.Closing.{IsClosed, closed_of};

    ghost view = { closed_of };

    ghost invariant = { IsClosed };
}

impl Closed {
    /// Reminds a proof that the history is legal and left the words, so that it may use a closed
    /// chain without remembering `close`. It does nothing.
    pub fn known(&self)
        ensures { IsLeft self.now }
    {
        let _ = &self.shape;
    }

    /// The number that the map has at the key. It takes no memory.
    pub fn get(&self, key: Key) -> Option<Num>
        ensures { result ≡ map.get (map_of self.now.history) key }
    {
        key.known();
        self.shown(key)
    }

    /// The map's keys with their numbers, ascending by key. It takes memory for a plain map of them
    /// and for the vector.
    pub fn entries(&self, alloc: Global) -> Result<Vec<(Key, Num)>, OutOfMemory>
        ensures { IfOk result (λ entries. entries.items ≡ map.entries (map_of self.now.history)) }
    {
        let mut found = PlainMap::new(alloc);
        for g in self.top()..self.shape.generations() {
            if self.is_installed(g) {
                self.list_table(g, &mut found)?;
            }
        }
        found.entries(alloc)
    }

    /// Puts each key that has a slot in table `g` into a plain map, with its number, if it has one.
    fn list_table(&self, g: u32, found: &mut PlainMap) -> Result<(), OutOfMemory>
        requires table { g < generations_of self.now.shape }
        requires listing { IsListing self.now found.old g 0 }
        ensures { OnOk result (IsListing self.now found.new (g + 1) 0) }
    {
        for i in 0..self.shape.size_of(g) {
            if let KeyState::Claimed(key) = self.key_at(g, i) {
                if let Some(number) = self.get(key) {
                    let put = found.apply(key, Want::Any, Change::Put(number));
                    put.map_err(|_| OutOfMemory)?;
                }
            }
        }
        Ok(())
    }

    /// The number that the tables show at the key. Those below the top word are complete, and pass
    /// every key on.
    fn shown(&self, key: Key) -> Option<Num>
        ensures number { result ≡ shown_from self.now.shape (tables_left self.now) key 0
            (generations_of self.now.shape) }
        ensures plan { IsPlan self.now.shape }
        ensures left { IsLeft self.now }
    {
        for g in self.top()..self.shape.generations() {
            if !self.is_installed(g) {
                return None;
            }
            if let Some(value) = self.value_in(g, key) {
                match value {
                    ValueState::Null | ValueState::Tombstone => return None,
                    ValueState::Live(number) => return Some(number),
                    ValueState::Primed(number) => {
                        if self.is_blank_in(g + 1, key) {
                            return Some(number);
                        }
                    }
                    ValueState::PrimedNull
                    | ValueState::PrimedTombstone
                    | ValueState::Finished(_) => {}
                }
            }
        }
        None
    }

    /// Whether the key has no slot or a null value in table `g`.
    fn is_blank_in(&self, g: u32, key: Key) -> bool
        requires { g < generations_of self.now.shape }
        ensures { result ≡ is_blank (value_in self.now.shape (tables_left self.now) g key) }
    {
        matches!(self.value_in(g, key), None | Some(ValueState::Null))
    }

    /// The key's value in table `g`, if it has a slot there. A slot that is empty or closed to keys
    /// ends its path.
    fn value_in(&self, g: u32, key: Key) -> Option<ValueState>
        requires { g < generations_of self.now.shape }
        ensures { result ≡ value_in self.now.shape (tables_left self.now) g key }
    {
        for distance in 0..self.shape.size_of(g) {
            let i = self.shape.path_slot(g, key, distance);
            match self.key_at(g, i) {
                KeyState::Claimed(other) => {
                    if other == key {
                        return Some(self.value_at(g, i));
                    }
                }
                KeyState::Empty | KeyState::Dead => return None,
            }
        }
        None
    }

    /// The top word.
    fn top(&self) -> u32
        ensures { result ≡ (tables_left self.now).top }
    {
        self.table.word(TOP_INDEX) as u32
    }

    /// Whether table `g` is there: the first is from the start.
    fn is_installed(&self, g: u32) -> bool
        requires { g < generations_of self.now.shape }
        ensures { result ≡ is_installed (tables_left self.now) g }
    {
        g == 0 || self.word(self.shape.header_word_place(g - 1, HeaderWord::Next)) == INSTALLED
    }

    fn key_at(&self, g: u32, i: usize) -> KeyState
        requires { IsSlot self.now.shape g i }
        ensures { result ≡ (tables_left self.now).key g i }
    {
        KeyWord::new(self.word(self.shape.key_place(g, i))).state()
    }

    fn value_at(&self, g: u32, i: usize) -> ValueState
        requires { IsSlot self.now.shape g i }
        ensures { result ≡ (tables_left self.now).value g i }
    {
        ValueWord::lawful(self.word(self.shape.value_place(g, i))).state()
    }

    fn word(&self, index: usize) -> u64
        requires { index < word_count self.now.shape }
        ensures { result ≡ slice_index self.now.words index }
    {
        self.table.word(index)
    }
}

impl Drop for Closed {
    fn drop(self) {
        let Closed {
            table,
            shape: _,
            seats: _,
        } = self;
        table.free();
    }
}
