// The values of a table, by state and then event (document 01, "Table of a rule").
ghost use Rattle.std.specs.Prelude.{◌≡◌, ◌+◌, ◌*◌, ◌<◌, ◌≤◌, length};
ghost use Rattle.values.specs.Setup.{meet_of};
ghost use Rattle.limits.specs.Limits.{event_limit, node_limit, state_limit};
ghost use Rattle.synthesis.specs.NodeWords.{set_of};
ghost use Rattle.synthesis.specs.MarkedNodes.{word_set, marked_in, Came};
ghost use Rattle.synthesis.specs.TableEntries.{state_value, EntriesTo, RowTo, Met};

use crate::node_sets::{NodeSet, last_set, marks_of, power};
use formulas::{NodeKind, Nodes};
use limits::SET_WORDS;
use values::{ValueSet, meet_of};

// The entry of a state and an event.
pub fn entry_at(state: usize, events: usize, event: usize) -> usize
    requires { (state < state_limit) × (event < events) × (events ≤ event_limit) }
    ensures { result ≡ state * events + event }
{
    state * events + event
}

// Every event of a state gets top.
fn open_row(top: u32, state: usize, events: usize, to: &mut [u32])
    requires { (state < state_limit) × (events ≤ event_limit) × (state * events + events ≤ length to.old) }
    ensures { RowTo (λ e. top) events state events to.old to.new }
{
    for event in 0..events {
        to[entry_at(state, events, event)] = top;
    }
}

// An O node comes to the row of a state: its value is met with the entry of its event.
fn meet_node(
    value_set: ValueSet<'_>,
    nodes: &Nodes,
    node: usize,
    state: usize,
    events: usize,
    to: &mut [u32],
)
    requires { (node < node_limit) × (state < state_limit) × (events ≤ event_limit) × (state * events + events ≤ length to.old) }
    ensures { Met (meet_of value_set.entry.kind value_set.entry.meet.now) nodes.now.firsts nodes.now.values events state node
        to.old to.new }
{
    let event = usize::from(nodes.firsts[node]);
    if event < events {
        let at = entry_at(state, events, event);
        to[at] = meet_of(value_set.kind, value_set.meet, nodes.values[node], to[at]);
    }
}

// The nodes of one word, the first of which is base, come to the row of a state, the last node first. Each turn takes the last bit
// off what is left.
fn meet_word(
    value_set: ValueSet<'_>,
    nodes: &Nodes,
    word: u64,
    base: usize,
    state: usize,
    events: usize,
    to: &mut [u32],
)
    requires { (base + 64 ≤ node_limit) × (state < state_limit) × (events ≤ event_limit) × (state * events + events ≤ length to.old) }
    ensures { (length to.new ≡ length to.old)
        × Came (Met (meet_of value_set.entry.kind value_set.entry.meet.now) nodes.now.firsts nodes.now.values events state) (word_set word base) (base + 64)
        to.old base to.new }
{
    let mut rest = word;
    let mut end: usize = 64;
    while 0 < rest {
        end = last_set(rest);
        rest = rest % power(end);
        meet_node(value_set, nodes, base + end, state, events, to);
    }
}

// The marked nodes of a state's set come to the state's row, the last node first.
fn meet_row(
    value_set: ValueSet<'_>,
    nodes: &Nodes,
    marks: &NodeSet,
    set: &NodeSet,
    state: usize,
    events: usize,
    to: &mut [u32],
)
    requires { (state < state_limit) × (events ≤ event_limit) × (state * events + events ≤ length to.old) }
    ensures { Came (Met (meet_of value_set.entry.kind value_set.entry.meet.now) nodes.now.firsts nodes.now.values events state)
        (marked_in (set_of set.now) marks.now) node_limit to.old 0 to.new }
{
    for w in (0..SET_WORDS).rev() {
        let word = set[w] & marks[w];
        meet_word(value_set, nodes, word, w * 64, state, events, to);
    }
}

// The values of n states.
pub fn fill_values(
    value_set: ValueSet<'_>,
    nodes: &Nodes,
    states: &[NodeSet],
    n: usize,
    events: usize,
    to: &mut [u32],
)
    requires { (nodes.now.count ≤ node_limit) × (n ≤ state_limit) × (events ≤ event_limit)
        × (n ≤ length states.now) × (n * events ≤ length to.old) }
    ensures { (length to.new ≡ length to.old)
        × EntriesTo (state_value (meet_of value_set.entry.kind value_set.entry.meet.now) value_set.entry.top nodes.now.kinds nodes.now.firsts
        nodes.now.values nodes.now.count states.now)
        events (n * events) to.new }
{
    let marks = marks_of(nodes, NodeKind::Output);
    for state in 0..n {
        open_row(value_set.top, state, events, to);
        meet_row(value_set, nodes, &marks, &states[state], state, events, to);
    }
}
