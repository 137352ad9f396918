ghost use Rattle.std.specs.Prelude.{◌≡◌, ◌+◌, ◌<◌, ◌≤◌, [], ◌∷◌, OnOk, length};
ghost use Rattle.std.specs.Option.{option_copied};
ghost use Rattle.kom_record.specs.Entries.{entry_at};

use crate::entry::Entry;
use std::alloc::{AllocError, Global};
use std::marker::Model;

/// The entries of a run so far, by position from 0.
///
/// Contracts see the history, which has the newest entry first, and how many entries may be added
/// without taking memory.
#[derive(Drop)]
pub struct Record {
    entries: Vec<Entry>,
}

impl Model for Record {
    ghost use Rattle.std.specs.Prelude.{◌-◌, reverse, vec_len, vec_capacity};
    ghost use Rattle.kom_record.specs.Kept.{Kept};

    ghost Value = { Kept };

    ghost view = { λ r. record { history = reverse r.entries.items; spare = vec_capacity r.entries - vec_len r.entries } };
}

impl Record {
    /// The empty record. It takes no memory.
    pub fn new(alloc: Global) -> Record
        ensures { result.history ≡ [] }
    {
        Record {
            entries: Vec::new(alloc),
        }
    }

    /// How many entries there are. It takes no memory.
    pub fn len(&self) -> usize
        ensures { result ≡ length self.now.history }
    {
        self.entries.len()
    }

    /// The entry at a position; `None` exactly where there is none. It takes no memory.
    pub fn at(&self, i: usize) -> Option<&Entry>
        ensures { option_copied result ≡ entry_at self.now.history i }
    {
        sqlite_items::at(self.entries.as_slice(), i)
    }

    /// Makes room for at least `n` entries more. The error is want of memory; the entries are as
    /// before either way, and the room is no less.
    pub fn reserve(&mut self, n: usize) -> Result<(), AllocError>
        ensures room { OnOk result (n ≤ self.new.spare) }
        ensures no_less { self.old.spare ≤ self.new.spare }
        ensures entries { self.new.history ≡ self.old.history }
    {
        self.entries.reserve(n)
    }

    /// Adds an entry at the end, into room that was made before. It takes no memory.
    pub fn add(&mut self, entry: Entry)
        requires { 1 ≤ self.old.spare }
        ensures entries { self.new.history ≡ entry ∷ self.old.history }
        ensures room { self.old.spare ≤ self.new.spare + 1 }
    {
        match self.entries.push(entry) {
            Ok(()) => {}
            Err(_) => unreachable!(),
        }
    }
}
