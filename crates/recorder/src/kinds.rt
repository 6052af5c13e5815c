// The two kinds of values that a tool has (document 02, F-7): numbers with a meet table, a byte each, and registers, whose masks have 32 bits.
// What a call does by kind is said here; every call is said once, for both.
ghost use Rattle.std.specs.Prelude.{◌≡◌, refl, true, List, ℕ, ◌+◌, ◌*◌, ◌≤◌, ◌<◌, length, get_or, set, replicate, take};
ghost use Rattle.limits.specs.Limits.{event_limit, meet_limit, state_limit, store_limit, value_limit};
ghost use Rattle.theory.specs.ValueSetTests.{every};
ghost use Rattle.values.specs.ValueTests.{value_fits};
ghost use Rattle.values.specs.HandedIn.{setup_of};
ghost use Rattle.machines.specs.TableBytes.{entry_width};
ghost use Rattle.synthesis.specs.Compilation.{compile_answer, compile_contents};
ghost use Rattle.recorder.specs.Store.{Meaning, number_meaning, register_meaning, counted_setup};
ghost use Rattle.recorder.specs.Decisions.{spliced_column};

use crate::row_store::{Room, copy_column, copy_masks, entries_below, make_room, masks_in_order};
use limits::{MEET_LIMIT, REGISTER_TABLE_BYTES, STORE_LIMIT, TABLE_BYTES};
use refusal::Refusal;
use synthesis::compile;
use values::{SetUp, ValueKind, Values};

// What a set-up says of the values. A store's values are a column of them; a rule's table is compiled into bytes.
pub trait Kind: Copy {
    type Value: Copy;

    type Column: Copy;

    type Table: Copy;

    // The kind in document 01's words, and the numbers that the cells hold.
    ghost meaning: { Meaning Self Self.Column Self.Value Self.Table };

    fn kind(&self) -> ValueKind
        ensures { result ≡ meaning.kind self.now };

    // The set-up with so many events, as it would be handed in.
    fn handed_in(&self, events: u8) -> SetUp<'_>
        ensures { setup_of result ≡ counted_setup meaning events self.now };

    // Whether so many values of a column, from a place on, are values of the kind. Behind the end they are 0.
    fn values_fit(&self, column: &Self::Column, from: usize, count: usize) -> bool
        ensures { result ≡ every count (λ i. value_fits (meaning.kind self.now) (get_or (meaning.cells column.now) (from + i) 0)) };

    // A column of zeros.
    fn blank() -> Self::Column
        ensures { meaning.cells result ≡ replicate store_limit 0 };

    // The value at a place; behind the end it is 0.
    fn value_at(column: &Self::Column, place: usize) -> Self::Value
        ensures { meaning.number result ≡ get_or (meaning.cells column.now) place 0 };

    fn wide(value: Self::Value) -> u32
        ensures { result ≡ meaning.number value };

    // The values of a table's entries for the old ones at a place. Where they don't fit, or the table has fewer, nothing is changed.
    fn splice(&self, column: &mut Self::Column, room: Room, table: &[u8])
        ensures { meaning.cells column.new ≡ spliced_column (meaning.kind self.now) room table.now (meaning.cells column.old) };

    // Room for the bytes of the largest table.
    fn blank_table(&self) -> Self::Table
        ensures { length (meaning.bytes result) ≡ state_limit * event_limit * entry_width (meaning.kind self.now) };

    // The compiler's answer for a rule: the number of states, or 5 to 10; the table goes to the bytes.
    fn compile(&self, events: u8, rule: &[u8], table: &mut Self::Table) -> Result<usize, Refusal>
        ensures answer { result ≡ compile_answer state_limit (counted_setup meaning events self.now) rule.now (meaning.bytes table.old) }
        ensures contents { meaning.bytes table.new
            ≡ compile_contents state_limit (counted_setup meaning events self.now) rule.now (meaning.bytes table.old) }
        ensures same_length { length (meaning.bytes table.new) ≡ length (meaning.bytes table.old) };

    fn bytes(table: &Self::Table) -> &[u8]
        ensures { result.now ≡ meaning.bytes table.now };

    // Lent values are written one by one.
    ghost write: { (l : List Self.Value) (i : ℕ) (v : Self.Value) → meaning.numbers (set l i v) ≡ set (meaning.numbers l) i (meaning.number v) };

    ghost read: { (l : List Self.Value) (i : ℕ) (v : Self.Value) → meaning.number (get_or l i v) ≡ get_or (meaning.numbers l) i (meaning.number v) };

    ghost count: { (l : List Self.Value) → length (meaning.numbers l) ≡ length l };
}

// So many numbers, with the one that is top and their meet table's entries, which come first in the array.
#[derive(Clone, Copy)]
pub struct Numbers {
    pub values: u8,
    pub top: u8,
    pub meet: [u8; MEET_LIMIT],
}

// Registers of so many lines; a value is its masks, low + 65536 * high.
#[derive(Clone, Copy)]
pub struct Registers {
    pub lines: u8,
}

impl Kind for Numbers {
    type Value = u8;

    type Column = [u8; STORE_LIMIT];

    type Table = [u8; TABLE_BYTES];

    ghost meaning = { number_meaning };

    ghost write = { λ l i v. refl };

    ghost read = { λ l i v. refl };

    ghost count = { λ l. refl };

    fn kind(&self) -> ValueKind {
        ValueKind::Numbered(u32::from(self.values))
    }

    fn handed_in(&self, events: u8) -> SetUp<'_> {
        let values = usize::from(self.values);
        SetUp {
            events: usize::from(events),
            values: Values::Numbered {
                values,
                top: usize::from(self.top),
                meet: &self.meet[..MEET_LIMIT.min(values * values)],
            },
        }
    }

    fn values_fit(&self, column: &[u8; STORE_LIMIT], from: usize, count: usize) -> bool {
        entries_below(column, from, count, usize::from(self.values))
    }

    fn blank() -> [u8; STORE_LIMIT] {
        [0; STORE_LIMIT]
    }

    fn value_at(column: &[u8; STORE_LIMIT], place: usize) -> u8 {
        column.get(place).copied().unwrap_or(0)
    }

    fn wide(value: u8) -> u32 {
        u32::from(value)
    }

    fn splice(&self, column: &mut [u8; STORE_LIMIT], room: Room, table: &[u8]) {
        if !room.fits() || table.len() / 2 < room.new {
            return;
        }
        make_room(column, room, 0);
        copy_column(column, room.at, table, 2, 0, room.new);
    }

    fn blank_table(&self) -> [u8; TABLE_BYTES] {
        [0; TABLE_BYTES]
    }

    fn compile(
        &self,
        events: u8,
        rule: &[u8],
        table: &mut [u8; TABLE_BYTES],
    ) -> Result<usize, Refusal> {
        compile(self.handed_in(events), rule, table)
    }

    fn bytes(table: &[u8; TABLE_BYTES]) -> &[u8] {
        table
    }
}

impl Kind for Registers {
    type Value = u32;

    type Column = [u32; STORE_LIMIT];

    type Table = [u8; REGISTER_TABLE_BYTES];

    ghost meaning = { register_meaning };

    ghost write = { λ l i v. refl };

    ghost read = { λ l i v. refl };

    ghost count = { λ l. refl };

    fn kind(&self) -> ValueKind {
        ValueKind::Register(u32::from(self.lines))
    }

    fn handed_in(&self, events: u8) -> SetUp<'_> {
        SetUp {
            events: usize::from(events),
            values: Values::Register {
                lines: usize::from(self.lines),
            },
        }
    }

    fn values_fit(&self, column: &[u32; STORE_LIMIT], from: usize, count: usize) -> bool {
        masks_in_order(column, from, count, self.lines)
    }

    fn blank() -> [u32; STORE_LIMIT] {
        [0; STORE_LIMIT]
    }

    fn value_at(column: &[u32; STORE_LIMIT], place: usize) -> u32 {
        column.get(place).copied().unwrap_or(0)
    }

    fn wide(value: u32) -> u32 {
        value
    }

    fn splice(&self, column: &mut [u32; STORE_LIMIT], room: Room, table: &[u8]) {
        if !room.fits() || table.len() / 5 < room.new {
            return;
        }
        make_room(column, room, 0);
        copy_masks(column, room.at, table, room.new);
    }

    fn blank_table(&self) -> [u8; REGISTER_TABLE_BYTES] {
        [0; REGISTER_TABLE_BYTES]
    }

    fn compile(
        &self,
        events: u8,
        rule: &[u8],
        table: &mut [u8; REGISTER_TABLE_BYTES],
    ) -> Result<usize, Refusal> {
        compile(self.handed_in(events), rule, table)
    }

    fn bytes(table: &[u8; REGISTER_TABLE_BYTES]) -> &[u8] {
        table
    }
}
