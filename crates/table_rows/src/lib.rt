// The rows of a table handed in, printed into a lent buffer; and the check of a table handed in to be rendered. Values are numbers, or a
// register's masks (document 02, F-7).
#![tactic(auto)]

mod accepted;

ghost use Rattle.std.specs.Prelude.{◌≡◌, ◌++◌, ℕ, List, IfOk};
ghost use Rattle.std.proofs.Math.Option.{none};
ghost use Rattle.text_output.specs.Output.{Puts};
ghost use Rattle.refusal.specs.{Refusal.{refusal_of}, RefusalAnswers.{answered}};
ghost use Rattle.table_rows.specs.TableText.{value_text, row_line};
ghost use Rattle.table_rows.specs.Rendering.{count_refusal, handed_refusal, Renders};
ghost use Rattle.table_rows.specs.Handed.{kind_of, values_of, IsAccepted};
ghost use Rattle.table_rows.specs.Rows.{rows_text, PrintsRows};

pub use accepted::{AcceptedTable, Entry};
use limits::{ENTRY_LIMIT, TABLE_LIMIT};
use machines::{Device, Table, check_table};
use refusal::Refusal;
use text_output::{put_field, put_line};
use values::{ValueKind, events_in_limits, lines_in_limits, register_top, values_in_limits};

// Every output has room in so many bytes.
pub const ROWS_LENGTH: usize = ENTRY_LIMIT * 20 + 24;

// Every output for a register has room in so many.
pub const REGISTER_ROWS_LENGTH: usize = ENTRY_LIMIT * 28 + 24;

// The kind of a table's values as it is handed in: so many numbers, or registers of so many lines.
#[derive(Clone, Copy)]
pub enum HandedKind {
    Numbered(usize),
    Register(usize),
}

// The values of a table by their counts, once these were judged: their kind and their top.
#[derive(Clone, Copy)]
struct CountedValues {
    kind: ValueKind,
    top: u32,
}

// 1 and 2 for the numbers of a set-up, 1 and 20 for those of a register's, whose top is fixed: the one handed in is not looked at.
fn check_counts(events: usize, kind: HandedKind, top: usize) -> Result<CountedValues, Refusal>
    ensures { result ≡ answered (count_refusal events (kind_of kind) top) (values_of kind top) }
{
    if !events_in_limits(events) {
        return Err(Refusal::SetupEvents);
    }
    match kind {
        HandedKind::Numbered(values) => {
            if !values_in_limits(values, top) {
                return Err(Refusal::SetupValues);
            }
            Ok(CountedValues {
                kind: ValueKind::Numbered(values as u32),
                top: top as u32,
            })
        }
        HandedKind::Register(lines) => {
            if !lines_in_limits(lines) {
                return Err(Refusal::SetupLines);
            }
            Ok(CountedValues {
                kind: ValueKind::Register(lines as u32),
                top: register_top(lines),
            })
        }
    }
}

// The numbers of a set-up judged, then 11 for a table, of which every state may be the start.
pub fn check_handed<'a>(
    events: usize,
    kind: HandedKind,
    top: usize,
    table: Table<'a>,
) -> Result<AcceptedTable<'a>, Refusal>
    ensures judged { refusal_of result ≡ handed_refusal events (kind_of kind) top table.entry.states table.entry.entries.now }
    ensures yields { IfOk result (IsAccepted events kind top table.entry) }
{
    let values = check_counts(events, kind, top)?;
    check_table(TABLE_LIMIT, events, values.kind, Device { table, start: 0 })?;
    Ok(AcceptedTable {
        events,
        kind: values.kind,
        top: values.top,
        table,
    })
}

// A value behind a text, a register's masks with another text between. This and the functions below put their texts into a buffer as
// those of text_output do.
pub fn put_value(
    out: &mut [u8],
    at: usize,
    kind: ValueKind,
    before: &[u8],
    between: &[u8],
    value: u32,
) -> usize
    ensures { Puts out.old (before.now ++ value_text kind between.now value) out.new at result }
{
    match kind {
        ValueKind::Numbered(_) => put_field(out, at, before, value as usize),
        ValueKind::Register(_) => {
            let behind = put_field(out, at, before, (value % 65536) as usize);
            put_field(out, behind, between, (value / 65536) as usize)
        }
    }
}

fn put_row(out: &mut [u8], at: usize, kind: ValueKind, entry: Entry) -> usize
    ensures { Puts out.old (row_line kind entry.state entry.event entry.value entry.next) out.new at result }
{
    let a = put_field(out, at, b"row=", entry.state);
    let b = put_field(out, a, b" ", entry.event);
    let c = put_value(out, b, kind, b" ", b" ", entry.value);
    put_line(out, c, b" ", entry.next)
}

// A text that can be put at the front of a buffer as text_output puts its texts.
pub trait Text {
    ghost bytes: { Self → List ℕ };

    fn put(&self, out: &mut [u8]) -> usize
        ensures { Puts out.old (bytes self.now) out.new 0 result };
}

// Puts a text into a buffer that has room for it: its length, or 13. Put into an empty one it tells its length.
pub fn render<T: Text>(text: &T, to: &mut [u8]) -> Result<usize, Refusal>
    ensures { Renders none (T.bytes text.now) to.old to.new result }
{
    let length = text.put(&mut []);
    if to.len() < length {
        return Err(Refusal::BufferLength);
    }
    text.put(to);
    Ok(length)
}

// The rows of a table.
#[derive(Clone, Copy)]
struct PrintedRows<'a>(AcceptedTable<'a>);

impl<'a> Text for PrintedRows<'a> {
    ghost bytes = { λ r. rows_text r.0.events r.0.kind r.0.table.states r.0.table.entries.now };

    fn put(&self, out: &mut [u8]) -> usize {
        let accepted = self.0;
        let a = put_line(out, 0, b"events=", accepted.events);
        let mut at = put_line(out, a, b"states=", accepted.table.states);
        for i in 0..accepted.entries() {
            at = put_row(out, at, accepted.kind, accepted.entry(i));
        }
        at
    }
}

// Prints a table: its events, its states and a row for each entry, by state, then event. An entry has two bytes, a register's five. The
// length of the text, or 1, 2, 11, 13; for a register 1, 20, 11, 13.
pub fn rows(
    events: usize,
    kind: HandedKind,
    table: Table<'_>,
    to: &mut [u8],
) -> Result<usize, Refusal>
    ensures { PrintsRows events (kind_of kind) table.entry.states table.entry.entries.now to.old to.new result }
{
    let accepted = check_handed(events, kind, 0, table)?;
    render(&PrintedRows(accepted), to)
}
