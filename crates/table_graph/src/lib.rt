// A table rendered as a Graphviz digraph in a lent buffer. Values are numbers, or a register's masks (document 02, F-7).
#![tactic(auto)]

ghost use Rattle.text_output.specs.Output.{Puts};
ghost use Rattle.table_rows.specs.Handed.{kind_of};
ghost use Rattle.table_graph.specs.GraphText.{label_text, arrow_line};
ghost use Rattle.table_graph.specs.Graph.{table_digraph, Draws};

use limits::ENTRY_LIMIT;
use machines::Table;
use refusal::Refusal;
use table_rows::{AcceptedTable, Entry, HandedKind, Text, check_handed, put_value, render};
use text_output::{put_field, put_word};
use values::ValueKind;

// Every digraph has room in so many bytes.
pub const GRAPH_LENGTH: usize = ENTRY_LIMIT * 33 + 18;

// Every digraph of a register's table has room in so many.
pub const REGISTER_GRAPH_LENGTH: usize = ENTRY_LIMIT * 40 + 18;

// A value behind a slash, `open` for the top value. This and the functions below put their texts as those of text_output do.
fn put_label(out: &mut [u8], at: usize, kind: ValueKind, top: u32, value: u32) -> usize
    ensures { Puts out.old (label_text kind top value) out.new at result }
{
    if value == top {
        put_word(out, at, b"/open")
    } else {
        put_value(out, at, kind, b"/", b".", value)
    }
}

fn put_arrow(out: &mut [u8], at: usize, kind: ValueKind, top: u32, entry: Entry) -> usize
    ensures { Puts out.old (arrow_line kind top entry.state entry.event entry.value entry.next) out.new at result }
{
    let a = put_field(out, at, b"  ", entry.state);
    let b = put_field(out, a, b" -> ", entry.next);
    let c = put_field(out, b, b" [label=\"", entry.event);
    let d = put_label(out, c, kind, top, entry.value);
    put_word(out, d, b"\"];\n")
}

// A table as a digraph.
#[derive(Clone, Copy)]
struct Digraph<'a>(AcceptedTable<'a>);

impl<'a> Text for Digraph<'a> {
    ghost bytes = { λ d. table_digraph d.0 };

    fn put(&self, out: &mut [u8]) -> usize {
        let accepted = self.0;
        let mut at = put_word(out, 0, b"digraph table {\n");
        for i in 0..accepted.entries() {
            at = put_arrow(out, at, accepted.kind, accepted.top, accepted.entry(i));
        }
        put_word(out, at, b"}\n")
    }
}

// Renders a table as a digraph: an arrow a line, by state, then event. A register's top is fixed: the one handed in is not looked at. The
// length of the text, or 1, 2, 11, 13; for a register 1, 20, 11, 13.
pub fn dot(
    events: usize,
    kind: HandedKind,
    top: usize,
    table: Table<'_>,
    to: &mut [u8],
) -> Result<usize, Refusal>
    ensures { Draws events (kind_of kind) top table.entry.states table.entry.entries.now to.old to.new result }
{
    let accepted = check_handed(events, kind, top, table)?;
    render(&Digraph(accepted), to)
}
