// Tables in bytes (document 01, "Table of a rule" and refusal 11): an entry is a value and a next state, ordered by state, then
// event. A number has one byte; a register's masks have four (document 02, F-7).
#![tactic(auto)]

ghost use Rattle.std.specs.Prelude.{◌≡◌, ◌&&◌, ◌+◌, ◌*◌, ◌/◌, ◌≤◌, ◌<◌, length, get_or, eqb, ltb};
ghost use Rattle.theory.specs.ValueSetTests.{every};
ghost use Rattle.refusal.specs.RefusalAnswers.{judgement};
ghost use Rattle.values.specs.Setup.{value_width};
ghost use Rattle.machines.specs.TableBytes.{entry_width};
ghost use Rattle.machines.specs.TableRefusal.{entry_value, entry_next};
ghost use Rattle.machines.specs.TableRefusal.{entry_test, table_test, table_refusal};
ghost use Rattle.machines.specs.StoredEntries.{kept_bytes, storable, after_store};
ghost use Rattle.std.proofs.lemmas.List.Edits.{sets};
ghost use Rattle.values.specs.ValueTests.{value_fits};
ghost use Rattle.values.specs.ValueTests.{masks_from};
ghost use Rattle.values.specs.Setup.{value_from};

use refusal::Refusal;
use values::{ValueKind, masks_value, value_fits, value_from};

// A table in bytes: its states, and its entries by state, then event.
#[derive(Clone, Copy)]
pub struct Table<'a> {
    pub states: usize,
    pub entries: &'a [u8],
}

// A device: a table and the state in which it starts.
#[derive(Clone, Copy)]
pub struct Device<'a> {
    pub table: Table<'a>,
    pub start: usize,
}

// The value of entry i of two bytes; 0 past the end.
fn number_at(bytes: &[u8], i: usize) -> u32
    ensures { result ≡ get_or bytes.now (i * 2) 0 }
{
    let n = bytes.len();
    if i < n - n / 2 {
        u32::from(bytes[i * 2])
    } else {
        0
    }
}

// The value of entry i of five bytes; bytes past the end are 0.
fn masks_at(lines: u32, bytes: &[u8], i: usize) -> u32
    ensures { result ≡ masks_from bytes.now (i * 5) }
{
    let whole = bytes.len() / 5;
    if i < whole {
        let at = i * 5;
        return masks_value(bytes[at], bytes[at + 1], bytes[at + 2], bytes[at + 3]);
    }
    if i == whole {
        value_from(ValueKind::Register(lines), bytes, i * 5)
    } else {
        0
    }
}

// The value of entry i; 0 past the end.
pub fn value_at(kind: ValueKind, bytes: &[u8], i: usize) -> u32
    ensures { result ≡ entry_value kind bytes.now i }
{
    match kind {
        ValueKind::Numbered(_) => number_at(bytes, i),
        ValueKind::Register(lines) => masks_at(lines, bytes, i),
    }
}

// The next state of entry i of two bytes; 0 past the end.
fn second_at(bytes: &[u8], i: usize) -> usize
    ensures { result ≡ get_or bytes.now (i * 2 + 1) 0 }
{
    if i < bytes.len() / 2 {
        usize::from(bytes[i * 2 + 1])
    } else {
        0
    }
}

// The next state of entry i of five bytes; 0 past the end.
fn fifth_at(bytes: &[u8], i: usize) -> usize
    ensures { result ≡ get_or bytes.now (i * 5 + 4) 0 }
{
    if i < bytes.len() / 5 {
        usize::from(bytes[i * 5 + 4])
    } else {
        0
    }
}

// The next state of entry i; 0 past the end.
pub fn next_at(kind: ValueKind, bytes: &[u8], i: usize) -> usize
    ensures { result ≡ entry_next kind bytes.now i }
{
    match kind {
        ValueKind::Numbered(_) => second_at(bytes, i),
        ValueKind::Register(_) => fifth_at(bytes, i),
    }
}

// Whether n is a × b, for products of any size.
fn is_product(n: usize, a: usize, b: usize) -> bool
    ensures { result ≡ eqb n (a * b) }
{
    if b == 0 {
        return n == 0;
    }
    if n % b != 0 {
        return false;
    }
    n / b == a
}

// The bytes of an entry.
pub fn entry_width(kind: ValueKind) -> usize
    ensures { (result ≡ entry_width kind) × (result ≡ value_width kind + 1) × (1 < result) × (result ≤ 5) }
{
    match kind {
        ValueKind::Numbered(_) => 2,
        ValueKind::Register(_) => 5,
    }
}

// Whether n bytes are the entries of a table, so many bytes each.
fn is_table_length(width: usize, n: usize, states: usize, events: usize) -> bool
    requires { 1 < width }
    ensures { result ≡ eqb n (states * events * width) }
{
    if n % width != 0 {
        return false;
    }
    is_product(n / width, states, events)
}

// Whether the entry at a place has a value of the kind and a next state below `states`.
#[inline(always)]
fn entry_in_order(kind: ValueKind, states: usize, bytes: &[u8], at: usize, width: usize) -> bool
    requires { (at + width ≤ length bytes.now) × (width ≡ value_width kind + 1) }
    ensures { result ≡ (value_fits kind (value_from kind bytes.now at) && ltb (get_or bytes.now (at + value_width kind) 0) states) }
{
    if !value_fits(kind, value_from(kind, bytes, at)) {
        return false;
    }
    usize::from(bytes[at + width - 1]) < states
}

// Whether the first `entries` entries are in order. It is copied to each place that calls it, where the kind is known: to look at the kind
// of each entry takes half as long again.
#[inline(always)]
fn entries_in_order(
    kind: ValueKind,
    states: usize,
    bytes: &[u8],
    entries: usize,
    width: usize,
) -> bool
    requires { (entries * entry_width kind ≤ length bytes.now) × (width ≡ entry_width kind) × (width ≡ value_width kind + 1) }
    ensures { result ≡ every entries (entry_test kind states bytes.now) }
{
    for i in 0..entries {
        if !entry_in_order(kind, states, bytes, i * width, width) {
            return false;
        }
    }
    true
}

// Whether all whole entries are in order.
#[inline(always)]
fn all_in_order(kind: ValueKind, states: usize, bytes: &[u8]) -> bool
    ensures { result ≡ every (length bytes.now / entry_width kind) (entry_test kind states bytes.now) }
{
    let width = entry_width(kind);
    entries_in_order(kind, states, bytes, bytes.len() / width, width)
}

// Whether a table handed in is in order.
fn table_in_order(
    limit: usize,
    events: usize,
    kind: ValueKind,
    states: usize,
    start: usize,
    bytes: &[u8],
) -> bool
    ensures { result ≡ table_test (entry_width kind) limit events (entry_test kind states bytes.now) states start bytes.now }
{
    if states == 0 {
        return false;
    }
    if limit < states {
        return false;
    }
    if states <= start {
        return false;
    }
    let width = entry_width(kind);
    let n = bytes.len();
    if !is_table_length(width, n, states, events) {
        return false;
    }
    match kind {
        ValueKind::Numbered(values) => all_in_order(ValueKind::Numbered(values), states, bytes),
        ValueKind::Register(lines) => all_in_order(ValueKind::Register(lines), states, bytes),
    }
}

// Refusal 11, for a device with values of a kind; a rule's table is one that starts at state 0.
pub fn check_table(
    limit: usize,
    events: usize,
    kind: ValueKind,
    device: Device<'_>,
) -> Result<(), Refusal>
    ensures { result ≡ judgement (table_refusal limit events kind device.entry.table.states device.entry.start
        device.entry.table.entries.now) }
{
    let table = device.table;
    if table_in_order(
        limit,
        events,
        kind,
        table.states,
        device.start,
        table.entries,
    ) {
        Ok(())
    } else {
        Err(Refusal::TableLimits)
    }
}

// Stores an entry from a place on: a number's low byte, or the four bytes of masks, each mask's low byte first; and the next state.
fn put_entry(kind: ValueKind, to: &mut [u8], at: usize, value: u32, next: u8)
    requires { at + entry_width kind ≤ length to.old }
    ensures { to.new ≡ sets to.old at (kept_bytes kind value next) }
{
    match kind {
        ValueKind::Numbered(_) => {
            to[at] = (value % 256) as u8;
            to[at + 1] = next;
        }
        ValueKind::Register(_) => {
            to[at] = (value % 65536 % 256) as u8;
            to[at + 1] = (value % 65536 / 256) as u8;
            to[at + 2] = (value / 65536 % 256) as u8;
            to[at + 3] = (value / 65536 / 256) as u8;
            to[at + 4] = next;
        }
    }
}

// Stores the first `count` entries of flat arrays, with values of a kind. Nothing is stored, and the answer is false, where an array or
// the buffer is too short.
pub fn store_entries(
    kind: ValueKind,
    values: &[u32],
    nexts: &[u8],
    count: usize,
    to: &mut [u8],
) -> bool
    ensures answer { result ≡ storable (entry_width kind) values.now nexts.now count to.old }
    ensures contents { to.new ≡ after_store (entry_width kind) (kept_bytes kind) values.now nexts.now count to.old }
{
    let width = entry_width(kind);
    if values.len() < count {
        return false;
    }
    if nexts.len() < count {
        return false;
    }
    if to.len() / width < count {
        return false;
    }
    for i in 0..count {
        put_entry(kind, to, i * width, values[i], nexts[i]);
    }
    true
}
