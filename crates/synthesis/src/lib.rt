// Document 01, "Table of a rule": from rule bytes to the table, refusals 10 and 13.
#![tactic(auto)]

mod demands;
mod entries;
mod exploration;
mod node_sets;
mod tables;

ghost use Rattle.std.specs.Prelude.{◌≡◌, ◌*◌, ◌<◌, ◌≤◌, length};
ghost use Rattle.std.proofs.Math.Option.{none};
ghost use Rattle.refusal.specs.RefusalAnswers.{or_else, plain_unless, judgement};
ghost use Rattle.values.specs.Setup.{meet_of, setup_top};
ghost use Rattle.values.specs.HandedIn.{setup_of, setup_of_set};
ghost use Rattle.formulas.specs.RuleConditions.{node_width};
ghost use Rattle.formulas.specs.NodeWalks.{field};
ghost use Rattle.formulas.specs.RuleRefusal.{count_fits, fields_refusal};
ghost use Rattle.synthesis.specs.Compilation.{compile_answer, compile_contents};
ghost use Rattle.synthesis.specs.MadeTable.{Ready, Tried, Answered};
ghost use Rattle.values.specs.SetupTests.{setup_refusal};
ghost use Rattle.values.specs.ValueTests.{value_fits};
ghost use Rattle.limits.specs.Limits.{event_limit, node_limit, state_limit};

use demands::keep_demands;
use formulas::{Nodes, check_nodes, count_fits, decode};
use limits::{ENTRY_LIMIT, EVENT_LIMIT, STATE_LIMIT};
use machines::store_entries;
use node_sets::{EMPTY, NodeSet, ROWS};
use refusal::Refusal;
use tables::table_of;
use values::{SetUp, ValueKind, ValueSet};

// A table is first attempted in arrays for so many states, so that a small rule does not wait for large ones to be cleared.
const SMALL_STATES: usize = 64;

const SMALL_ENTRIES: usize = SMALL_STATES * EVENT_LIMIT;

// 5 to 9, for a rule of so many bytes that has these nodes.
fn judge_nodes(kind: ValueKind, events: usize, bytes: usize, nodes: &Nodes) -> Result<(), Refusal>
    ensures { result ≡ judgement (or_else (plain_unless (count_fits (node_width kind) node_limit bytes) Refusal.NodeCount)
        (fields_refusal (field nodes.now.kinds) (field nodes.now.firsts) (field nodes.now.values) nodes.now.count
        (value_fits kind) events)) }
{
    if !count_fits(kind, bytes) {
        return Err(Refusal::NodeCount);
    }
    check_nodes(events, kind, nodes)
}

// The table of these nodes, whose demands the rows have, in arrays for so many states; none where there are more. It is stored to the bytes,
// or 13.
fn attempt<const STATES: usize, const ENTRIES: usize>(
    value_set: ValueSet<'_>,
    nodes: &Nodes,
    rows: &[NodeSet; ROWS],
    events: usize,
    to: &mut [u8],
) -> Option<Result<usize, Refusal>>
    requires { Ready nodes.now rows.now events × (0 < STATES) × (STATES ≤ state_limit) × (STATES * events ≤ ENTRIES)
        × (ENTRIES ≤ state_limit * event_limit) }
    ensures { Tried value_set.entry.kind nodes.now (meet_of value_set.entry.kind value_set.entry.meet.now) value_set.entry.top
        events STATES to.old to.new result }
{
    let mut states = [EMPTY; STATES];
    let mut values = [0u32; ENTRIES];
    let mut nexts = [0u8; ENTRIES];
    let n = table_of(
        value_set,
        nodes,
        rows,
        events,
        STATES,
        &mut states,
        &mut values,
        &mut nexts,
    )?;
    if store_entries(value_set.kind, &values, &nexts, n * events, to) {
        Some(Ok(n))
    } else {
        Some(Err(Refusal::BufferLength))
    }
}

// The table of these nodes in lent bytes: 10, 13. Their demands are kept once for both attempts.
fn compile_nodes(
    value_set: ValueSet<'_>,
    nodes: &Nodes,
    events: usize,
    to: &mut [u8],
) -> Result<usize, Refusal>
    requires { (nodes.now.count ≤ node_limit) × (events ≤ event_limit) }
    ensures { Answered value_set.entry.kind nodes.now (meet_of value_set.entry.kind value_set.entry.meet.now) value_set.entry.top
        events to.old to.new result }
{
    let mut rows = [EMPTY; ROWS];
    keep_demands(nodes, &mut rows);
    if let Some(few) = attempt::<SMALL_STATES, SMALL_ENTRIES>(value_set, nodes, &rows, events, to) {
        return few;
    }
    let many = attempt::<STATE_LIMIT, ENTRY_LIMIT>(value_set, nodes, &rows, events, to);
    many.unwrap_or(Err(Refusal::StateCount))
}

// The table of a rule in lent bytes, entries by state and then event, for a set-up that was accepted: 5 to 10, 13.
fn compile_accepted(
    events: usize,
    value_set: ValueSet<'_>,
    rule: &[u8],
    to: &mut [u8],
) -> Result<usize, Refusal>
    requires { (setup_refusal (setup_of_set events value_set) ≡ none)
        × (setup_top (setup_of_set events value_set) ≡ value_set.top) }
    ensures answer { result ≡ compile_answer state_limit (setup_of_set events value_set.entry) rule.now to.old }
    ensures contents { to.new ≡ compile_contents state_limit (setup_of_set events value_set.entry) rule.now to.old }
{
    let nodes = decode(value_set.kind, rule);
    judge_nodes(value_set.kind, events, rule.len(), &nodes)?;
    compile_nodes(value_set, &nodes, events, to)
}

// The table of a rule in lent bytes, two bytes an entry, or five for registers: 1 to 3, or 1 and 20; 5 to 10, 13.
pub fn compile(set_up: SetUp<'_>, rule: &[u8], to: &mut [u8]) -> Result<usize, Refusal>
    ensures answer { result ≡ compile_answer state_limit (setup_of set_up.entry) rule.now to.old }
    ensures contents { to.new ≡ compile_contents state_limit (setup_of set_up.entry) rule.now to.old }
{
    let value_set = set_up.check_by_sets()?;
    compile_accepted(set_up.events, value_set, rule, to)
}
