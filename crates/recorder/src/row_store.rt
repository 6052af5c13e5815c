// Document 02, F-12: one store of rows for all channels, packed in channel order. Where a channel's rows start follows from the counts of
// states; no place is stored. Its next states are bytes, its values bytes or masks of 32 bits.
ghost use Rattle.std.specs.Prelude.{◌≡◌, ◌+◌, ◌*◌, ◌-◌, ◌≤◌, ◌<◌, max, min, ltb, leb, length, get_or, set};
ghost use Rattle.std.specs.Int.Bits.{bit_or};
ghost use Rattle.std.proofs.Math.Seq.{paste};
ghost use Rattle.limits.specs.Limits.{channel_limit, row_limit, store_limit};
ghost use Rattle.theory.specs.ValueSetTests.{every};
ghost use Rattle.values.specs.ValueTests.{masks_fit};
ghost use Rattle.recorder.specs.Store.{rows_start};
ghost use Rattle.recorder.specs.Splicing.{rows_before, row_count, column, mask_column};
ghost use Rattle.recorder.specs.Decisions.{together, Storable, room_of, RoomFits, room_test, roomed};

use limits::{CHANNEL_LIMIT, ROW_LIMIT, STORE_LIMIT};
use machines::value_at;
use values::{ValueKind, value_fits};

// What a splice goes by: where the old entries lie and how many they are, how many come for them, and how many lie behind.
#[derive(Clone, Copy)]
pub struct Room {
    pub at: usize,
    pub old: usize,
    pub new: usize,
    pub later: usize,
}

impl Room {
    // Whether the store has room for the old entries and for the new ones, with the later ones behind them.
    pub fn fits(self) -> bool
        ensures { result ≡ room_test self }
    {
        let fixed = self.at.saturating_add(self.later);
        fixed.saturating_add(self.old) <= STORE_LIMIT
            && fixed.saturating_add(self.new) <= STORE_LIMIT
    }
}

// The rows of the first so many channels.
pub fn rows_before(states: &[u16; CHANNEL_LIMIT], count: usize) -> usize
    requires { (count ≤ channel_limit) × (length states.now ≡ channel_limit) }
    ensures { (result ≡ rows_before states.now count) × (result ≤ count * 65535) }
{
    let mut rows: usize = 0;
    for i in 0..count {
        rows += usize::from(states[i]);
    }
    rows
}

// Where the rows of a channel start.
pub fn rows_start(states: &[u16; CHANNEL_LIMIT], channel: usize, events: u8) -> usize
    requires { (channel ≤ channel_limit) × (length states.now ≡ channel_limit) }
    ensures { result ≡ rows_start events states.now channel }
{
    rows_before(states, channel) * usize::from(events)
}

// Refusal 25's test of a tool.
pub fn rows_fit(states: &[u16; CHANNEL_LIMIT]) -> bool
    requires { length states.now ≡ channel_limit }
    ensures { result ≡ leb (row_count states.now) row_limit }
{
    rows_before(states, CHANNEL_LIMIT) <= ROW_LIMIT
}

// Refusal 25's test of a load: the rows of the other channels and those of the new table. The channel's own old rows are free.
pub fn rows_left(states: &[u16; CHANNEL_LIMIT], channel: usize, new: usize) -> bool
    requires { (channel < channel_limit) × (new ≤ 65535) × (length states.now ≡ channel_limit) }
    ensures { result ≡ leb (row_count (set states.now channel new)) row_limit }
{
    let rows = rows_before(states, CHANNEL_LIMIT);
    let own = usize::from(states[channel]);
    rows - own + new <= ROW_LIMIT
}

// Where the rows of a channel lie, and what a table of so many states needs in their place.
pub fn room_for(states: &[u16; CHANNEL_LIMIT], channel: usize, events: u8, new: u16) -> Room
    requires { Storable events states.now channel new × (length states.now ≡ channel_limit) }
    ensures { (result ≡ room_of events states.now channel new) × RoomFits result }
{
    let n = usize::from(events);
    let all = rows_before(states, CHANNEL_LIMIT);
    let passed = rows_before(states, channel + 1);
    Room {
        at: rows_start(states, channel, events),
        old: usize::from(states[channel]) * n,
        new: usize::from(new) * n,
        later: (all - passed) * n,
    }
}

// How many of so many entries from a place on lie in the store.
fn entries_there(from: usize, count: usize) -> usize
    ensures { result ≡ min count (store_limit - from) }
{
    if STORE_LIMIT <= from {
        return 0;
    }
    count.min(STORE_LIMIT - from)
}

// The largest of so many entries from a place on, or 0; those that would lie behind the store are 0. No early exit: the loop is one of vectors.
fn largest(entries: &[u8; STORE_LIMIT], from: usize, count: usize) -> u8
    requires { length entries.now ≡ store_limit }
    ensures { result ≡ together max count (λ i. get_or entries.now (from + i) 0) }
{
    let mut most: u8 = 0;
    for i in 0..entries_there(from, count) {
        most = most.max(entries[from + i]);
    }
    most
}

// Whether so many entries from a place on are below a bound. Those that would lie behind the store, where 25 answers, are 0.
pub fn entries_below(entries: &[u8; STORE_LIMIT], from: usize, count: usize, bound: usize) -> bool
    requires { length entries.now ≡ store_limit }
    ensures { result ≡ every count (λ i. ltb (get_or entries.now (from + i) 0) bound) }
{
    if count == 0 {
        return true;
    }
    usize::from(largest(entries, from, count)) < bound
}

// The bits of so many values from a place on; those that would lie behind the store are 0. No early exit: the loop is one of vectors.
fn all_bits(values: &[u32; STORE_LIMIT], from: usize, count: usize) -> u32
    requires { length values.now ≡ store_limit }
    ensures { result ≡ together bit_or count (λ i. get_or values.now (from + i) 0) }
{
    let mut bits: u32 = 0;
    for i in 0..entries_there(from, count) {
        bits = bits | values[from + i];
    }
    bits
}

// Whether no mask of so many values from a place on has a bit at or above the line count.
pub fn masks_in_order(values: &[u32; STORE_LIMIT], from: usize, count: usize, lines: u8) -> bool
    requires { length values.now ≡ store_limit }
    ensures { result ≡ every count (λ i. masks_fit lines (get_or values.now (from + i) 0)) }
{
    let bits = all_bits(values, from, count);
    value_fits(ValueKind::Register(u32::from(lines)), bits)
}

// Room for new entries in the place of old ones: what lies behind them moves up or down, and zeros come last.
pub fn make_room<T: Copy>(rows: &mut [T], room: Room, zero: T)
    requires room { RoomFits room × (length rows.old ≡ store_limit) }
    requires copied { T.is_infallible zero × ((y : T) → T.is_clone zero y → y ≡ zero) }
    ensures { rows.new ≡ roomed zero rows.old room.at room.old room.new room.later }
{
    let behind = room.at + room.old;
    let moved = room.at + room.new;
    rows.copy_within(behind..behind + room.later, moved);
    rows[moved + room.later..].fill(zero);
}

// Copies one byte of each entry of a table, whose entries have so many bytes, into the store from a place on.
pub fn copy_column(
    store: &mut [u8; STORE_LIMIT],
    at: usize,
    table: &[u8],
    width: usize,
    which: usize,
    count: usize,
)
    requires { (at + count ≤ store_limit) × (which < width) × (width ≤ 5) × (count * width ≤ length table.now) × (length store.old ≡ store_limit) }
    ensures { store.new ≡ paste store.old at (column width which table.now count) count }
{
    for i in 0..count {
        store[at + i] = table[i * width + which];
    }
}

// Copies the values of a table's entries, five bytes each whatever the line count, into the store from a place on.
pub fn copy_masks(store: &mut [u32; STORE_LIMIT], at: usize, table: &[u8], count: usize)
    requires { (at + count ≤ store_limit) × (count * 5 ≤ length table.now) × (length store.old ≡ store_limit) }
    ensures { store.new ≡ paste store.old at (mask_column table.now count) count }
{
    for i in 0..count {
        store[at + i] = value_at(ValueKind::Register(16), table, i);
    }
}
