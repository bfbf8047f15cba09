ghost use Rattle.std.specs.Prelude.{◌≡◌, ◌-◌, ◌<◌, ◌≤◌, min, [], length, IfOk};
ghost use Rattle.ra_journal.specs.Batches.{batch_from};
ghost use Rattle.ra_journal.specs.Entries.{entry_at};

use crate::entries::Entry;
use crate::listing::Entries;
use ra_base::NoMemory;
use std::alloc::Global;
use std::marker::Model;

/// How many entries a batch has room for.
const ROOM: usize = 1024;

/// A copy of some consecutive entries of a journal. Contracts see the list of them.
#[derive(Drop)]
pub struct Batch {
    entries: Entries,
}

impl Model for Batch {
    ghost use Rattle.std.specs.Prelude.{◌≡◌, ◌≤◌, List};
    ghost use Rattle.ra_journal.specs.declared.entries.Entry.{Entry};

    ghost Value = { List Entry };

    ghost view = { λ b. b.entries.items };

    ghost invariant = { λ b. b.entries.room ≡ 1024 };
}

impl Batch {
    /// A batch without entries, which has room for 1,024.
    pub fn make(alloc: Global) -> Result<Batch, NoMemory>
        ensures { IfOk result (λ batch. batch ≡ []) }
    {
        let entries = Entries::make(alloc, ROOM)?;
        Ok(Batch { entries })
    }

    /// How many entries there are.
    pub fn len(&self) -> u64
        ensures value { result ≡ length self.now }
        ensures within { result ≤ 1024 }
    {
        self.entries.len() as u64
    }

    /// The entry at a place of the batch, counted from 0.
    pub fn entry(&self, i: u64) -> Entry
        requires { i < length self.now }
        ensures { result ≡ entry_at self.now i }
    {
        self.entries.get(i as usize)
    }

    /// Removes all entries.
    pub fn clear(&mut self)
        ensures { self.new ≡ [] }
    {
        self.entries.clear();
    }

    /// Replaces all entries by those of a list from a place on, as many as there is room for, and gives their number.
    pub(crate) fn fill(&mut self, entries: &Entries, at: usize) -> u64
        requires { at ≤ length entries.now.items }
        ensures entries { self.new ≡ batch_from entries.now.items at }
        ensures number { result ≡ min 1024 (length entries.now.items - at) }
    {
        self.entries.refill(entries, at) as u64
    }
}
