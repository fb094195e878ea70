//! A map for one caller at a time: what the shared map answers is what this one would.
ghost use Rattle.std.specs.Prelude.{◌≡◌, ◌↔◌, ℕ, IsTrue, IfOk, IfErr, OnOk, OnErr};
ghost use Rattle.std.specs.Ordering.{nat_cmp};
ghost use Rattle.std.specs.FinMap as map;
ghost use Rattle.std.specs.Coded.{coded_ℕ};
ghost use Rattle.nb_core.specs.Calls.{Fills, overflows};
ghost use Rattle.nb_core.specs.Log.{map_after, reply_of};

use crate::calls::{Call, Change, Reply, Want};
use crate::numbers::{Key, Num};
use std::alloc::{AllocError, Global};
use std::collections::BTreeMap;
use std::marker::Model;
use thiserror::Error;

/// Why a plain map refuses a write.
#[derive(Clone, Copy, Debug, PartialEq, Eq, Hash, Error)]
pub enum PlainFault {
    #[error("out of memory")]
    OutOfMemory,
    #[error("value too large")]
    ValueRange,
}

/// A map from keys to value numbers, which a contract sees as a finite map.
#[derive(Drop)]
pub struct PlainMap {
    numbers: BTreeMap<Key, Num>,
}

impl Model for PlainMap {
    ghost Value = { map.FinMap nat_cmp ℕ };

    ghost coded = { map.code coded_ℕ coded_ℕ };

    ghost view = { λ a. map.from_entries a.numbers.entries };
}

impl PlainMap {
    /// The empty map, which takes no memory.
    pub fn new(alloc: Global) -> PlainMap
        ensures { result ≡ map.empty }
    {
        PlainMap {
            numbers: BTreeMap::new(alloc),
        }
    }

    pub fn get(&self, key: Key) -> Option<Num>
        ensures { result ≡ map.get self.now key }
    {
        self.numbers.get(&key).copied()
    }

    pub fn len(&self) -> usize
        ensures { result ≡ map.len self.now }
    {
        self.numbers.len()
    }

    /// Makes one write. Only a new key takes memory.
    pub fn apply(&mut self, key: Key, want: Want, change: Change) -> Result<Reply, PlainFault>
        ensures reply { IfOk result (λ reply. reply
            ≡ reply_of (Call.Write key want change) self.old) }
        ensures map { OnOk result (self.new ≡ map_after (Call.Write key want change) self.old) }
        ensures too_great { (result ≡ Err PlainFault.ValueRange)
            ↔ IsTrue (overflows (Call.Write key want change) self.old) }
        ensures out_of_memory { result ≡ Err PlainFault.OutOfMemory → map.get self.old key ≡ None }
        ensures only_to_fill { result ≡ Err PlainFault.OutOfMemory
            → Fills (Call.Write key want change) }
        ensures refused { OnErr result (self.new ≡ self.old) }
    {
        let before = &self.get(key);
        let matched = want.holds_of(*before);
        if matched {
            match change.changed(*before) {
                Ok(Some(number)) => self.insert(key, number)?,
                Ok(None) => self.remove(key),
                Err(_) => return Err(PlainFault::ValueRange),
            }
        }
        let before = *before;
        Ok(Reply { before, matched })
    }

    fn insert(&mut self, key: Key, number: Num) -> Result<(), PlainFault>
        ensures map { OnOk result (self.new ≡ map.insert self.old key number) }
        ensures out_of_memory { IfErr result (λ fault. fault ≡ PlainFault.OutOfMemory) }
        ensures absent { OnErr result (map.get self.old key ≡ None) }
        ensures refused { OnErr result (self.new ≡ self.old) }
    {
        match self.numbers.insert(key, number) {
            Ok(_) => Ok(()),
            Err(_) => Err(PlainFault::OutOfMemory),
        }
    }

    fn remove(&mut self, key: Key)
        ensures { self.new ≡ map.remove self.old key }
    {
        self.numbers.remove(&key);
    }

    /// The keys with their numbers, ascending by key.
    pub fn entries(&self, alloc: Global) -> Result<Vec<(Key, Num)>, AllocError>
        ensures { IfOk result (λ entries. entries.items ≡ map.entries self.now) }
    {
        let mut entries = Vec::with_capacity(alloc, self.numbers.len())?;
        for (key, number) in &self.numbers {
            entries.push((*key, *number))?;
        }
        Ok(entries)
    }
}
