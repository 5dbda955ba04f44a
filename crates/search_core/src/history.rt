// Histories: lists of entries.
ghost use Rattle.std.specs.Prelude.{◌≡◌, ◌-◌, ◌≤◌, [], ◌∷◌, ◌++◌, OnOk, OnErr};

use crate::entry::Entry;
use arch_model::Memory;
use std::alloc::Global;
use std::marker::Model;

/// A list of entries, with room for some more.
#[derive(Drop)]
pub struct History {
    entries: Vec<Entry>,
}

impl Model for History {
    ghost use Rattle.std.specs.Prelude.{◌-◌, vec_len, vec_capacity};
    ghost use Rattle.search_core.specs.HistoryParts.{HistoryParts};

    ghost Value = { HistoryParts };

    ghost view = { λ a. record {
      entries = a.entries.items;
      spare = vec_capacity a.entries - vec_len a.entries;
    } };
}

impl History {
    /// The history without entries, and without room for any.
    pub fn new(alloc: Global) -> History
        ensures entries { result.entries ≡ [] }
        ensures spare { result.spare ≡ 0 }
    {
        History {
            entries: Vec::new(alloc),
        }
    }

    /// Makes room for at least one more entry. The entries stay. The only error is want of memory,
    /// which comes only where there was no room.
    pub fn reserve(&mut self) -> Result<(), Memory>
        ensures entries { self.new.entries ≡ self.old.entries }
        ensures ok { OnOk result (1 ≤ self.new.spare) }
        ensures err { OnErr result (self.new ≡ self.old) }
        ensures none { OnErr result (self.old.spare ≡ 0) }
    {
        self.entries.reserve(1)
    }

    /// Appends an entry where there is room for it, and takes no memory.
    pub fn push_spare(&mut self, entry: Entry)
        requires { 1 ≤ self.old.spare }
        ensures entries { self.new.entries ≡ self.old.entries ++ entry ∷ [] }
        ensures spare { self.new.spare ≡ self.old.spare - 1 }
    {
        self.entries.push_reserved(entry);
    }

    /// The entries, in order.
    pub fn entries(&self) -> &[Entry]
        ensures { result.now ≡ self.now.entries }
    {
        self.entries.as_slice()
    }
}
