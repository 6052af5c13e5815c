// The rule of a table (document 01, "Rule of a table"): refusals 1 to 3, or 1 and 20 with registers, 11, 12, 23 and 13.
#![tactic(auto)]

ghost use Rattle.std.specs.Prelude.{◌≡◌, ◌≤◌, ◌<◌, length};
ghost use Rattle.limits.specs.Limits.{table_limit, node_limit};
ghost use Rattle.values.specs.HandedIn.{setup_of};
ghost use Rattle.characteristic.specs.RuleWriting.{write_answer, write_contents};
ghost use Rattle.characteristic.specs.NodeOutput.{Ready, WalksState, WalksRows, WritesRule, first_nodes};

mod machine;
mod nodes;
mod path;

use limits::{BINDER_LIMIT, TABLE_LIMIT};
use machine::Machine;
use machines::{Device, check_table};
use nodes::{Node, NodeList};
use path::Path;
use refusal::Refusal;
use values::SetUp;

// The recursion follows document 01's "Rule of a table": `write_state` its rule of a state, `write_rows` its rows.

// Appends the rule of a state behind so many nodes: X where it is open on the path; otherwise V and its rows, with the state open. The
// answer is how many nodes there are then. As a call of its own it took a quarter more of a rule of many states.
#[cycle(write_rows_write_state)]
#[inline(always)]
fn write_state(
    machine: &Machine<'_>,
    state: usize,
    path: &mut Path,
    nodes: &mut NodeList,
    count: usize,
) -> Option<usize>
    requires { Ready machine.now state path.old (first_nodes nodes.old count) }
    ensures { WalksState machine.now state path.old path.new (first_nodes nodes.old count) nodes.new result }
{
    if let Some(binders) = path.place(state) {
        return nodes.put(count, Node::Variable(binders));
    }
    let part = nodes.put(count, Node::Greatest)?;
    path.open(state);
    write_rows(machine, state, 0, path, nodes, part)?;
    path.close(state);
    Some(nodes.count)
}

// Appends the rows of a state from an event on: A, G event, the rule of the next state, O event.value, nested to the right. The count
// goes from call to call, and is kept in the list at the end.
#[cycle(write_rows_write_state)]
fn write_rows(
    machine: &Machine<'_>,
    state: usize,
    event: usize,
    path: &mut Path,
    nodes: &mut NodeList,
    count: usize,
) -> Option<()>
    requires { Ready machine.now state path.old (first_nodes nodes.old count) × (event < machine.now.events) }
    ensures { WalksRows machine.now state event path.old path.new (first_nodes nodes.old count) nodes.new result }
{
    let part = nodes.put_both(count, Node::Conjunction, Node::Transition(event))?;
    let (next, value) = machine.row(state, event);
    let end = write_state(machine, next, path, nodes, part)?;
    let output = Node::Output(event, value);
    if event + 1 == machine.events {
        nodes.count = nodes.put(end, output)?;
        return Some(());
    }
    let rest = nodes.put_both(end, Node::Conjunction, output)?;
    write_rows(machine, state, event + 1, path, nodes, rest)
}

// Writes the rule of a table that is in order: refusals 12, 23 and 13, and the output.
fn write_nodes(machine: &Machine<'_>, start: usize, to: &mut [u8]) -> Result<usize, Refusal>
    requires { start < table_limit }
    ensures { WritesRule machine.now start to.old to.new result }
{
    let mut path = Path::new();
    let mut nodes = NodeList::new(machine.kind);
    let count = write_state(machine, start, &mut path, &mut nodes, 0);
    nodes.count = count.ok_or(Refusal::WrittenSize)?;
    if BINDER_LIMIT < path.longest {
        return Err(Refusal::BinderDepth);
    }
    let bytes = nodes.bytes();
    if to.len() < bytes.len() {
        return Err(Refusal::BufferLength);
    }
    to[..bytes.len()].copy_from_slice(bytes);
    Ok(nodes.count)
}

// The rule of a device's table from its start: its node count, with its nodes at the front of the lent buffer, three bytes each, or six
// over a register. A refusal leaves the buffer as it was.
pub fn write_rule(set_up: SetUp<'_>, device: Device<'_>, to: &mut [u8]) -> Result<usize, Refusal>
    ensures answer { result ≡ write_answer table_limit node_limit (setup_of set_up.entry) device.entry.table.states device.entry.start
        device.entry.table.entries.now to.old }
    ensures contents { to.new ≡ write_contents table_limit node_limit (setup_of set_up.entry) device.entry.table.states
        device.entry.start device.entry.table.entries.now to.old }
{
    let values = set_up.check()?;
    check_table(TABLE_LIMIT, set_up.events, values.kind, device)?;
    let machine = Machine::new(values.kind, set_up.events, device.table.entries);
    write_nodes(&machine, device.start, to)
}
