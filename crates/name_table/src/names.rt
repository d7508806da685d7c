//! The table of names.
ghost use Rattle.std.specs.Prelude.{◌≡◌, ◌↔◌, ◌++◌, [], length, IsTrue, IfOk, OnOk, OnErr};
ghost use Rattle.std.specs.Map.{keys_of};
ghost use Rattle.std.specs.Borrow.{sem};
ghost use Rattle.std.specs.Option.{option_copied, option_copied_mut};
ghost use Rattle.name_table.specs.Table.{entry_of, put, put_each, numbered_entries as entries_numbered, without, count_with, has_no_room, missing, HasNoRoomForAll};
ghost use Rattle.name_table.specs.Lending.{lends_entry};
ghost use Rattle.name_table.specs.Listing.{spaced, names_text};

use crate::numbering::{numbered, numbered_entries, put_within};
use indexmap::IndexMap;
use reply_text::Text;
use row_core::Memory;
use std::alloc::Global;
use std::marker::Model;

/// The most names at once.
pub const MAX_NAMES: usize = 1000;

/// Names and the entry under each, in the order in which the names were made.
#[derive(Drop)]
pub struct Names<E> {
    alloc: Global,
    entries: IndexMap<Vec<u8>, E>,
}

impl<E> Model for Names<E> {
    ghost use Rattle.std.specs.Prelude.{map};
    ghost use Rattle.name_table.specs.Table.{Table};

    ghost Value = { Table E };

    ghost view = { λ n. map (λ e. (e.0.items, e.1)) n.entries.entries };
}

impl<E: Drop> Names<E> {
    /// No name.
    pub fn new(alloc: Global) -> Names<E>
        ensures { result ≡ [] }
    {
        Names {
            alloc,
            entries: IndexMap::new(alloc),
        }
    }

    /// The entry under the name.
    pub fn get(&self, name: &[u8]) -> Option<&E>
        ensures { option_copied result ≡ entry_of self.now name.now }
    {
        self.entries.get(name)
    }

    /// Puts the entry under the name. A name that is there keeps its place, for which no memory is
    /// wanted, and a new one goes last. Out of memory, the table is as before.
    pub fn put(&mut self, name: &[u8], entry: E) -> Result<(), Memory>
        ensures ok { OnOk result (self.new ≡ put self.old name.now entry) }
        ensures err { OnErr result (self.new ≡ self.old) }
    {
        if let Some(place) = self.get_mut(name) {
            *place = entry;
            return Ok(());
        }
        let key = Vec::from_slice(self.alloc, name)?;
        self.entries.insert(key, entry)?;
        Ok(())
    }

    /// Puts the entries in order, each under the name of the prefix and its number. A name that is
    /// there keeps its place, and new ones go last. Out of memory, the table is as before.
    pub fn put_all(&mut self, prefix: &[u8], entries: Vec<E>) -> Result<(), Memory>
        ensures ok { OnOk result (self.new
            ≡ put_each self.old (entries_numbered prefix.now 0 entries.items)) }
        ensures err { OnErr result (self.new ≡ self.old) }
    {
        let entries = numbered_entries(self.alloc, prefix, entries)?;
        self.entries.reserve(entries.len())?;
        put_within(&mut self.entries, entries);
        Ok(())
    }

    /// The entry under the name, to be changed where it stands.
    pub fn get_mut(&mut self, name: &[u8]) -> Option<&mut E>
        ensures* writes_back { sem 𝓛 (lends_entry E.row self.entry name.now result) }
        ensures value { option_copied_mut result ≡ entry_of self.old name.now }
    {
        match self.entries.get_index_of(name) {
            Some(index) => self.entries.get_index_mut(index),
            None => None,
        }
    }

    /// Takes the name out. The others keep their order.
    pub fn take_out(&mut self, name: &[u8])
        ensures { self.new ≡ without self.old name.now }
    {
        let _old = self.entries.shift_remove(name);
    }

    /// Whether there would be more names than the limit, with this one, which is looked up in a full
    /// table alone.
    pub fn has_no_room(&self, name: &[u8]) -> bool
        ensures { result ≡ has_no_room self.now name.now }
    {
        self.entries.len() >= MAX_NAMES && self.count_with(name) > MAX_NAMES
    }

    fn count_with(&self, name: &[u8]) -> usize
        ensures { result ≡ count_with self.now name.now }
    {
        match self.get(name) {
            Some(_) => self.entries.len(),
            None => self.entries.len() + 1,
        }
    }

    /// Whether there would be more names than the limit, with so many numbered names.
    pub fn has_no_room_for_all(&self, prefix: &[u8], count: usize) -> Result<bool, Memory>
        ensures { IfOk result (λ full. IsTrue full ↔ HasNoRoomForAll self.now prefix.now count) }
    {
        let missing = self.missing(prefix, count)?;
        Ok(self.entries.len().saturating_add(missing) > MAX_NAMES)
    }

    /// How many of the first numbered names aren't there.
    fn missing(&self, prefix: &[u8], count: usize) -> Result<usize, Memory>
        ensures { IfOk result (λ missed. missed ≡ missing self.now prefix.now count) }
    {
        let mut missed = 0;
        for number in 0..count {
            let name = numbered(self.alloc, prefix, number)?;
            if self.get(name.as_slice()).is_none() {
                missed += 1;
            }
        }
        Ok(missed)
    }

    /// The number of names.
    pub fn len(&self) -> usize
        ensures { result ≡ length self.now }
    {
        self.entries.len()
    }

    /// The word `names`, their number, and the names in order.
    pub fn list(&self) -> Result<Text, Memory>
        ensures { IfOk result (λ text. text ≡ names_text self.now) }
    {
        let mut text = Text::new(self.alloc);
        text.push(b"names ")?;
        text.push_unsigned(self.len() as u64)?;
        self.push_names(&mut text)?;
        Ok(text)
    }

    /// Appends each name in order, with a space before it.
    fn push_names(&self, text: &mut Text) -> Result<(), Memory>
        ensures { OnOk result (text.new ≡ text.old ++ spaced (keys_of self.now)) }
    {
        for name in self.entries.keys() {
            text.push(b" ")?;
            text.push(name.as_slice())?;
        }
        Ok(())
    }
}
