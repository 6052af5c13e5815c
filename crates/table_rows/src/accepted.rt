// Tables that were accepted, and their entries.
ghost use Rattle.table_rows.specs.Claims.{FewEntries};

use machines::{Table, next_at, value_at};
use values::ValueKind;

// An entry of a table: in a state, on an event, a value and the next state.
#[derive(Clone, Copy)]
pub struct Entry {
    pub state: usize,
    pub event: usize,
    pub value: u32,
    pub next: usize,
}

// A table that was accepted: its events, its values and their top.
#[derive(Clone, Copy)]
pub struct AcceptedTable<'a> {
    pub events: usize,
    pub kind: ValueKind,
    pub top: u32,
    pub table: Table<'a>,
    pub ghost few: { FewEntries events table.states },
}

impl<'a> AcceptedTable<'a> {
    ghost use Rattle.std.specs.Prelude.{◌≡◌, ◌*◌};
    ghost use Rattle.table_rows.specs.Handed.{entry_of};

    // How many entries it has.
    pub fn entries(self) -> usize
        ensures { result ≡ self.entry.table.states * self.entry.events }
    {
        self.table.states * self.events
    }

    // Entry i, where entries are ordered by state, then event.
    pub fn entry(self, i: usize) -> Entry
        ensures { result ≡ entry_of self.entry i }
    {
        Entry {
            state: i / self.events,
            event: i % self.events,
            value: value_at(self.kind, self.table.entries, i),
            next: next_at(self.kind, self.table.entries, i),
        }
    }
}
