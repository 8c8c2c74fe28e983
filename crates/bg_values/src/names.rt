//! Tables of names.
ghost use Rattle.std.specs.Prelude.{◌≡◌, ◌++◌, ◌∷◌, ◌↔◌, [], length, IfOk, IsTrue, OnErr, MatchBool, is_none, Some};
ghost use Rattle.bg_values.specs.Names as definition;

use bg_lists::{Mem, OutOfMemory};
use indexmap::IndexMap;
use std::alloc::Global;
use std::marker::Model;

/// Names, each once, with what they stand for, in the order of their definitions.
/// A contract sees the list of the names' bytes with what they stand for.
#[derive(Drop)]
pub struct NameTable<T> {
    entries: IndexMap<Vec<u8>, T>,
}

impl<T> Model for NameTable<T> {
    ghost use Rattle.std.specs.Prelude.{List, map, length, ◌<◌, ◌-◌, ◌^◌};
    ghost use Rattle.bg_values.specs.Names.{NamedValue};

    ghost Value = { List (NamedValue T) };

    ghost view = { λ table. map (λ e. (e.0.items, e.1)) table.entries.entries };

    ghost invariant = { λ table. length table.entries.entries < 2 ^ 32 - 1 };
}

/// A name of a table: its number, counted from 0, and what it stands for.
#[derive(Drop)]
pub struct FoundName<'a, T> {
    pub number: u32,
    pub value: &'a T,
}

impl<'a, T> Model for FoundName<'a, T> {
    ghost use Rattle.std.specs.Prelude.{ℕ};

    ghost Value = { ℕ × T };

    ghost view = { λ found. (found.number, found.value.now) };
}

impl<T: Drop> NameTable<T> {
    /// A table without names. Takes no memory.
    pub fn new(alloc: Global) -> NameTable<T>
        ensures { result ≡ [] }
    {
        NameTable {
            entries: IndexMap::new(alloc),
        }
    }

    /// How many names there are. Takes constant time.
    pub fn len(&self) -> u32
        ensures { result ≡ length self.now }
    {
        self.entries.len() as u32
    }

    /// Whether there is no name. Takes constant time.
    pub fn is_empty(&self) -> bool
        ensures { IsTrue result ↔ (length self.now ≡ 0) }
    {
        self.entries.is_empty()
    }

    /// The number of the name, counted from 0. Takes as long as the name has bytes, on average.
    pub fn find(&self, word: &[u8]) -> Option<u32>
        ensures { result ≡ definition.name_number word.now self.now }
    {
        match self.entries.get_index_of(word) {
            Some(number) => Some(number as u32),
            None => None,
        }
    }

    /// The number of the name, counted from 0, and what it stands for. Takes as long as the name has bytes, on average.
    pub fn look_up(&self, word: &[u8]) -> Option<FoundName<'_, T>>
        ensures { result ≡ definition.look_up word.now self.now }
    {
        match self.entries.get_index_of(word) {
            Some(number) => self.entry(number as u32),
            None => None,
        }
    }

    /// The entry with that number: its number, and what its name stands for. Takes constant time.
    pub fn entry(&self, number: u32) -> Option<FoundName<'_, T>>
        ensures { result ≡ definition.entry_at self.now (Some number) }
    {
        match self.entries.get_index(number as usize) {
            Some((_, value)) => Some(FoundName { number, value }),
            None => None,
        }
    }

    /// Adds a name that stands for `value`, where it is not there yet; says whether it was added. There is no memory
    /// for more than 4,294,967,294 names. Takes as long as the name has bytes, on average.
    pub fn add(&mut self, alloc: Global, word: &[u8], value: T) -> Mem<bool>
        ensures added { IfOk result (λ new. MatchBool new
            (self.new ≡ self.old ++ (word.now, value) ∷ [])
            (self.new ≡ self.old)) }
        ensures there { IfOk result (λ new. new ≡ is_none (definition.name_number word.now self.old)) }
        ensures unchanged { OnErr result (self.new ≡ self.old) }
    {
        match self.entries.get_index_of(word) {
            Some(_) => return Ok(false),
            None => {}
        }
        if self.entries.len() >= 4_294_967_294 {
            return Err(OutOfMemory);
        }
        let key = Vec::from_slice(alloc, word)?;
        match self.entries.insert(key, value) {
            Ok(_) => Ok(true),
            Err(_) => Err(OutOfMemory),
        }
    }
}
