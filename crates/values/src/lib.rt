// Document 01, "Value sets": the check of a set-up, the four-value set, values of either kind, their meet and how they compare.
#![tactic(auto)]

ghost use Rattle.std.specs.Prelude.{◌≡◌, true, ◌+◌, ◌*◌, ◌^◌, ◌<◌, ◌≤◌, min, length, get_or, IfOk};
ghost use Rattle.refusal.specs.RefusalAnswers.{judgement};
ghost use Rattle.limits.specs.Limits.{line_limit, value_limit};
ghost use Rattle.theory.specs.ValueSets.{meet_at, four_value_meet, pack, top_masks};
ghost use Rattle.theory.specs.ValueSetTests.{idempotent_test, commutative_test, associative_test, neutral_test};
ghost use Rattle.values.specs.DownSets.{down_set, pair_test, pairs_test, DownSets};
ghost use Rattle.values.specs.Setup.{setup, register_setup};
ghost use Rattle.values.specs.HandedIn.{setup_of, setup_of_set, IsNumbered, IsRegister};
ghost use Rattle.refusal.specs.Refusal.{refusal_of};
ghost use Rattle.values.specs.SetupTests.{events_test, values_test, lines_test, entries_test, meet_test, setup_refusal, Square};
ghost use Rattle.values.specs.Setup.{value_width};
ghost use Rattle.values.specs.Setup.{masks_value, value_from};
ghost use Rattle.values.specs.ValueTests.{masks_from};
ghost use Rattle.values.specs.Setup.{meet_of};
ghost use Rattle.values.specs.ValueTests.{masks_fit, value_fits, comparison};

use limits::{EVENT_LIMIT, LINE_LIMIT, VALUE_LIMIT};
use refusal::Refusal;

// What the values are: so many numbers with a meet table, or registers of so many lines, whose value is low + 65536 * high.
#[derive(Clone, Copy)]
pub enum ValueKind {
    Numbered(u32),
    Register(u32),
}

// The values of an accepted set-up: their kind, the top value, and the meet table, which registers have none of.
#[derive(Clone, Copy)]
pub struct ValueSet<'a> {
    pub kind: ValueKind,
    pub top: u32,
    pub meet: &'a [u8],
}

// The values of a set-up as it is handed in: so many numbers with a top and a meet table, or registers of so many lines.
#[derive(Clone, Copy)]
pub enum Values<'a> {
    Numbered {
        values: usize,
        top: usize,
        meet: &'a [u8],
    },
    Register {
        lines: usize,
    },
}

// A set-up as it is handed in.
#[derive(Clone, Copy)]
pub struct SetUp<'a> {
    pub events: usize,
    pub values: Values<'a>,
}

// What comparing two values tells (document 02, F-5).
#[derive(Clone, Copy)]
pub enum Comparison {
    Equal,
    StrictlyBelow,
    NotBelow,
}

const FOUR_VALUE_MEET: [u8; 16] = [0, 0, 0, 0, 0, 1, 0, 1, 0, 0, 2, 2, 0, 1, 2, 3];

// The four-value set: 0 is conflict, 1 low, 2 high, 3 top.
pub fn four_values() -> [u8; 16]
    ensures { result ≡ four_value_meet }
{
    FOUR_VALUE_MEET
}

// The entry of a table, or 0 outside it.
fn entry(table: &[u8], at: usize) -> u32
    ensures { result ≡ get_or table.now at 0 }
{
    match table.get(at) {
        Some(entry) => u32::from(*entry),
        None => 0,
    }
}

// The meet of two values.
pub fn meet_of(kind: ValueKind, table: &[u8], a: u32, b: u32) -> u32
    ensures { result ≡ meet_of kind table.now a b }
{
    match kind {
        ValueKind::Numbered(n) => entry(table, (a as usize) * (n as usize) + (b as usize)),
        ValueKind::Register(_) => a & b,
    }
}

// The least number that is no mask of so many lines.
fn mask_bound(lines: u32) -> u32
    requires { lines ≤ 16 }
    ensures { (result ≡ 2 ^ lines) × (1 ≤ result) × (result ≤ 65536) }
{
    1u32 << lines
}

// Whether no mask has a bit at or above the line count.
fn masks_fit(lines: u32, v: u32) -> bool
    ensures { result ≡ masks_fit lines v }
{
    if 16 <= lines {
        return true;
    }
    let bound = mask_bound(lines);
    if bound <= v % 65536 {
        return false;
    }
    v / 65536 < bound
}

// Whether a number is a value of a kind.
pub fn value_fits(kind: ValueKind, v: u32) -> bool
    ensures { result ≡ value_fits kind v }
{
    match kind {
        ValueKind::Numbered(n) => v < n,
        ValueKind::Register(lines) => masks_fit(lines, v),
    }
}

// The bytes of a value.
pub fn value_width(kind: ValueKind) -> usize
    ensures { result ≡ value_width kind }
{
    match kind {
        ValueKind::Numbered(_) => 1,
        ValueKind::Register(_) => 4,
    }
}

// The value of two masks in bytes, each mask's low byte first.
pub fn masks_value(a: u8, b: u8, c: u8, d: u8) -> u32
    ensures { result ≡ masks_value a b c d }
{
    u32::from(a) + 256 * u32::from(b) + 65536 * (u32::from(c) + 256 * u32::from(d))
}

// A byte, or 0 past the end.
fn byte_at(bytes: &[u8], at: usize) -> u8
    ensures { result ≡ get_or bytes.now at 0 }
{
    if at < bytes.len() { bytes[at] } else { 0 }
}

fn masks_from(bytes: &[u8], at: usize) -> u32
    ensures { result ≡ masks_from bytes.now at }
{
    if bytes.len() <= at {
        return 0;
    }
    let rest = &bytes[at..];
    if 4 <= rest.len() {
        return masks_value(rest[0], rest[1], rest[2], rest[3]);
    }
    masks_value(
        byte_at(rest, 0),
        byte_at(rest, 1),
        byte_at(rest, 2),
        byte_at(rest, 3),
    )
}

// The value in the bytes from a place on; bytes past the end are 0.
pub fn value_from(kind: ValueKind, bytes: &[u8], at: usize) -> u32
    ensures { result ≡ value_from kind bytes.now at }
{
    match kind {
        ValueKind::Numbered(_) => entry(bytes, at),
        ValueKind::Register(_) => masks_from(bytes, at),
    }
}

// How b compares with c. b is at or below c where the meet of b and c is b; that is looked at first.
pub fn compare(kind: ValueKind, table: &[u8], b: u32, c: u32) -> Comparison
    ensures { result ≡ comparison kind table.now b c }
{
    if meet_of(kind, table, b, c) != b {
        return Comparison::NotBelow;
    }
    if b == c {
        return Comparison::Equal;
    }
    Comparison::StrictlyBelow
}

// A whole meet table of at most 16 values.
#[derive(Clone, Copy)]
struct MeetTable<'a> {
    values: usize,
    entries: &'a [u8],
    ghost small: { values ≤ value_limit },
    ghost whole: { length entries.now ≡ values * values },
}

impl<'a> MeetTable<'a> {
    fn meet(self, a: usize, b: usize) -> usize
        requires { (a < self.values) × (b < self.values) }
        ensures { result ≡ meet_at self.entry.values self.entry.entries.now a b }
    {
        usize::from(self.entries[a * self.values + b])
    }

    // Whether every entry is below values.
    fn is_closed(self) -> bool
        ensures { result ≡ entries_test self.entry.values self.entry.entries.now }
    {
        for entry in self.entries {
            if self.values <= usize::from(*entry) {
                return false;
            }
        }
        true
    }

    // Whether the meet of each value with itself is that value.
    fn is_idempotent(self) -> bool
        ensures { result ≡ idempotent_test self.entry.values self.entry.entries.now }
    {
        for a in 0..self.values {
            if self.meet(a, a) != a {
                return false;
            }
        }
        true
    }

    // Whether the order of every two values does not matter.
    fn is_commutative(self) -> bool
        ensures { result ≡ commutative_test self.entry.values self.entry.entries.now }
    {
        for a in 0..self.values {
            for b in 0..self.values {
                if self.meet(a, b) != self.meet(b, a) {
                    return false;
                }
            }
        }
        true
    }

    // Whether the grouping of every three values does not matter; left at the first triple that breaks the law. It stays a function of its
    // own: inside the whole check its inner loop took up to 1.7 times as long, by the place of the code.
    #[inline(never)]
    fn is_associative(self) -> bool
        requires { entries_test self.values self.entries.now ≡ true }
        ensures { result ≡ associative_test self.entry.values self.entry.entries.now }
    {
        let values = self.values;
        let mut holds = true;
        'triples: for a in 0..values {
            for b in 0..values {
                for c in 0..values {
                    if self.meet(self.meet(a, b), c) != self.meet(a, self.meet(b, c)) {
                        holds = false;
                        break 'triples;
                    }
                }
            }
        }
        holds
    }

    // Whether the meet of each value with top is that value.
    fn has_top(self, top: usize) -> bool
        requires { top < self.values }
        ensures { result ≡ neutral_test self.entry.values self.entry.entries.now top }
    {
        for a in 0..self.values {
            if self.meet(a, top) != a {
                return false;
            }
        }
        true
    }

    // The values at or below a: those b whose meet with a is b. A bit for each value, that of 0 the highest.
    fn down_set(self, a: usize) -> u32
        requires { a < self.values }
        ensures { result ≡ down_set self.entry.values self.entry.entries.now a }
    {
        let mut set: u32 = 0;
        for b in 0..self.values {
            set += set;
            if self.meet(a, b) == b {
                set += 1;
            }
        }
        set
    }

    // The values at or below each value.
    fn down_sets(self) -> [u32; VALUE_LIMIT]
        ensures { DownSets self.entry.values self.entry.entries.now result }
    {
        let mut sets = [0u32; VALUE_LIMIT];
        for a in 0..self.values {
            sets[a] = self.down_set(a);
        }
        sets
    }

    // Whether the order of two values does not matter, their meet is a value, and what is at or below it is what is at or below both.
    fn is_lawful_pair(self, sets: &[u32; VALUE_LIMIT], a: usize, b: usize) -> bool
        requires { DownSets self.values self.entries.now sets.now × (a < self.values) × (b < self.values) }
        ensures { result ≡ pair_test self.entry.values self.entry.entries.now a b }
    {
        let m = self.meet(a, b);
        if m != self.meet(b, a) {
            return false;
        }
        if self.values <= m {
            return false;
        }
        sets[m] == sets[a] & sets[b]
    }

    // Whether every two values pass that test; each pair is tested once.
    fn has_lawful_pairs(self) -> bool
        ensures { result ≡ pairs_test self.entry.values self.entry.entries.now }
    {
        let sets = self.down_sets();
        for a in 0..self.values {
            for b in 0..a {
                if !self.is_lawful_pair(&sets, a, b) {
                    return false;
                }
            }
        }
        true
    }
}

// Whether the table is whole, its entries are values, and the laws hold.
fn lawful_meet(values: usize, top: usize, meet: &[u8]) -> bool
    requires { values_test values top ≡ true }
    ensures { result ≡ meet_test values top meet.now }
{
    if meet.len() != values * values {
        return false;
    }
    let table = MeetTable {
        values,
        entries: meet,
    };
    if !table.is_closed() {
        return false;
    }
    if !table.is_idempotent() {
        return false;
    }
    if !table.is_commutative() {
        return false;
    }
    if !table.is_associative() {
        return false;
    }
    table.has_top(top)
}

// The answer of `lawful_meet`, without a test of triples: where all pairs pass, the grouping of three values does not matter.
fn lawful_by_sets(values: usize, top: usize, meet: &[u8]) -> bool
    requires { values_test values top ≡ true }
    ensures { result ≡ meet_test values top meet.now }
{
    if meet.len() != values * values {
        return false;
    }
    let table = MeetTable {
        values,
        entries: meet,
    };
    if !table.is_idempotent() {
        return false;
    }
    if !table.has_lawful_pairs() {
        return false;
    }
    table.has_top(top)
}

// Whether events are 1 to 16.
pub fn events_in_limits(events: usize) -> bool
    ensures { result ≡ events_test events }
{
    if events < 1 {
        return false;
    }
    events <= EVENT_LIMIT
}

// Whether values are 1 to 16 and top is below them.
pub fn values_in_limits(values: usize, top: usize) -> bool
    ensures { result ≡ values_test values top }
{
    if values < 1 {
        return false;
    }
    if VALUE_LIMIT < values {
        return false;
    }
    top < values
}

// Refusals 1, 2 and 3, in this order.
fn check_numbers(events: usize, values: usize, top: usize, meet: &[u8]) -> Result<(), Refusal>
    ensures { result ≡ judgement (setup_refusal (setup events values top meet.now)) }
{
    if !events_in_limits(events) {
        return Err(Refusal::SetupEvents);
    }
    if !values_in_limits(values, top) {
        return Err(Refusal::SetupValues);
    }
    if !lawful_meet(values, top, meet) {
        return Err(Refusal::SetupMeet);
    }
    Ok(())
}

// The same, with the laws tested by sets of values.
fn check_numbers_by_sets(
    events: usize,
    values: usize,
    top: usize,
    meet: &[u8],
) -> Result<(), Refusal>
    ensures { result ≡ judgement (setup_refusal (setup events values top meet.now)) }
{
    if !events_in_limits(events) {
        Err(Refusal::SetupEvents)
    } else if !values_in_limits(values, top) {
        Err(Refusal::SetupValues)
    } else if !lawful_by_sets(values, top, meet) {
        Err(Refusal::SetupMeet)
    } else {
        Ok(())
    }
}

// Whether lines are 1 to 16.
pub fn lines_in_limits(lines: usize) -> bool
    ensures { result ≡ lines_test lines }
{
    if lines < 1 {
        return false;
    }
    lines <= LINE_LIMIT
}

// Refusals 1 and 20, in this order (document 02, F-7).
fn check_register(events: usize, lines: usize) -> Result<(), Refusal>
    ensures { result ≡ judgement (setup_refusal (register_setup events lines)) }
{
    if !events_in_limits(events) {
        return Err(Refusal::SetupEvents);
    }
    if !lines_in_limits(lines) {
        return Err(Refusal::SetupLines);
    }
    Ok(())
}

// Top of a register: all lines' bits in both masks. More lines than 16 are taken as 16.
pub fn register_top(lines: usize) -> u32
    ensures { result ≡ pack (top_masks (min lines line_limit)) }
{
    if lines < LINE_LIMIT {
        let mask = mask_bound(lines as u32) - 1;
        return mask + 65536 * mask;
    }
    4294967295
}

fn numbered<'a>(values: usize, top: usize, meet: &'a [u8]) -> ValueSet<'a>
    requires { values_test values top ≡ true }
    ensures { IsNumbered values top meet.now result }
{
    let count = values as u32;
    let top = top as u32;
    ValueSet {
        kind: ValueKind::Numbered(count),
        top,
        meet,
    }
}

fn registers<'a>(lines: usize) -> ValueSet<'a>
    requires { lines_test lines ≡ true }
    ensures { IsRegister lines result }
{
    let count = lines as u32;
    ValueSet {
        kind: ValueKind::Register(count),
        top: register_top(lines),
        meet: &[],
    }
}

impl<'a> SetUp<'a> {
    // The check of a set-up: 1 to 3, or 1 and 20, in this order; an accepted one yields its values.
    pub fn check(self) -> Result<ValueSet<'a>, Refusal>
        ensures judged { refusal_of result ≡ setup_refusal (setup_of self.entry) }
        ensures yields { IfOk result (λ v. setup_of self.entry ≡ setup_of_set self.entry.events v) }
    {
        match self.values {
            Values::Numbered { values, top, meet } => {
                check_numbers(self.events, values, top, meet)?;
                Ok(numbered(values, top, meet))
            }
            Values::Register { lines } => {
                check_register(self.events, lines)?;
                Ok(registers(lines))
            }
        }
    }

    // The same check, with the laws tested by sets of values.
    pub fn check_by_sets(self) -> Result<ValueSet<'a>, Refusal>
        ensures judged { refusal_of result ≡ setup_refusal (setup_of self.entry) }
        ensures yields { IfOk result (λ v. setup_of self.entry ≡ setup_of_set self.entry.events v) }
    {
        match self.values {
            Values::Numbered { values, top, meet } => {
                check_numbers_by_sets(self.events, values, top, meet)?;
                Ok(numbered(values, top, meet))
            }
            Values::Register { lines } => {
                check_register(self.events, lines)?;
                Ok(registers(lines))
            }
        }
    }
}
