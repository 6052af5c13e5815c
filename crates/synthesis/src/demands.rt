// The demands of every node, worked out before the walk over states (document 01, "Table of a rule").
// Nodes stand in prefix order: a node, then its parts; the nodes remaining are the falling number of each walk.
ghost use Rattle.std.specs.Prelude.{◌≡◌, ◌+◌, ◌<◌, ◌≤◌, length, get_or};
ghost use Rattle.limits.specs.Limits.{node_limit, binder_limit};
ghost use Rattle.synthesis.specs.NodeWalks.{EndsHere, EndsFrom};
ghost use Rattle.synthesis.specs.Binding.{OwnBinder, Bound};
ghost use Rattle.synthesis.specs.DemandRows.{Gathered, RowsTo};
ghost use Rattle.synthesis.specs.KeptDemands.{KeepsDemands};

use crate::node_sets::{EMPTY, NodeSet, ROWS, set_single, unite};
use formulas::{NodeKind, Nodes};
use limits::{BINDER_LIMIT, NODE_LIMIT};

// The node after the formula at a node, those of the nodes behind it being known.
fn end_of(nodes: &Nodes, ends: &[usize; NODE_LIMIT + 1], at: usize) -> usize
    requires { (at < node_limit) × (get_or ends.now (at + 1) 0 ≤ node_limit) }
    ensures { EndsHere nodes.now.kinds ends.now at result }
{
    let Some(kind) = NodeKind::of(nodes.kinds[at]) else {
        return at + 1;
    };
    match kind {
        NodeKind::Truth | NodeKind::Variable | NodeKind::Output => at + 1,
        NodeKind::Transition | NodeKind::Greatest => ends[at + 1],
        NodeKind::Conjunction => ends[ends[at + 1]],
    }
}

// The node after the formula at each node, from the last node down.
fn fill_ends(nodes: &Nodes, ends: &mut [usize; NODE_LIMIT + 1])
    requires { nodes.now.count ≤ node_limit }
    ensures { EndsFrom nodes.now.kinds nodes.now.count ends.new 0 }
{
    ends[nodes.count] = nodes.count;
    for i in (0..nodes.count).rev() {
        ends[i] = end_of(nodes, &*ends, i);
    }
}

// The node of a variable's own binder, below so many; 0 where the stack has none.
fn own_binder(stack: &[u8; BINDER_LIMIT], depth: usize, first: usize) -> u8
    ensures { OwnBinder stack.now depth first result }
{
    if first < depth {
        let place = depth - 1 - first;
        if place < BINDER_LIMIT {
            return stack[place];
        }
    }
    0
}

// Gives each variable of the formula at a node its binder's node. The stack has the binders around, the innermost last: twelve cells, since
// a rule that 23 lets through has no more on a path.
fn bind(
    nodes: &Nodes,
    at: usize,
    left: usize,
    depth: usize,
    stack: &mut [u8; BINDER_LIMIT],
    binders: &mut [u8; NODE_LIMIT],
) -> usize
    requires { (at + left ≤ node_limit) × (depth ≤ at) }
    ensures { Bound nodes.now.kinds nodes.now.firsts at left depth stack.old binders.old
        stack.new binders.new result }
{
    if left == 0 {
        return at;
    }
    let Some(kind) = NodeKind::of(nodes.kinds[at]) else {
        return at + 1;
    };
    match kind {
        NodeKind::Truth | NodeKind::Output => at + 1,
        NodeKind::Variable => {
            binders[at] = own_binder(&*stack, depth, usize::from(nodes.firsts[at]));
            at + 1
        }
        NodeKind::Transition => bind(nodes, at + 1, left - 1, depth, stack, binders),
        NodeKind::Conjunction => {
            let second = bind(nodes, at + 1, left - 1, depth, stack, binders);
            bind(nodes, second, at + left - second, depth, stack, binders)
        }
        NodeKind::Greatest => {
            if depth < BINDER_LIMIT {
                stack[depth] = at as u8;
            }
            bind(nodes, at + 1, left - 1, depth + 1, stack, binders)
        }
    }
}

// Gives each node of the formula at a node its demands, except below its G nodes; the answer is the node after that formula.
fn gather(
    nodes: &Nodes,
    binders: &[u8; NODE_LIMIT],
    ends: &[usize; NODE_LIMIT + 1],
    at: usize,
    left: usize,
    rows: &mut [NodeSet; ROWS],
) -> usize
    requires { (at + left ≤ node_limit) × EndsFrom nodes.now.kinds (at + left) ends.now 0 }
    ensures { Gathered nodes.now.kinds binders.now at left rows.old rows.new result }
{
    if left == 0 {
        return at;
    }
    let Some(kind) = NodeKind::of(nodes.kinds[at]) else {
        rows[at] = EMPTY;
        return at + 1;
    };
    match kind {
        NodeKind::Truth => {
            rows[at] = EMPTY;
            at + 1
        }
        NodeKind::Variable => {
            let binder = usize::from(binders[at]);
            rows[at] = rows[binder];
            at + 1
        }
        NodeKind::Transition => {
            set_single(&mut rows[at], at);
            ends[at + 1]
        }
        NodeKind::Output => {
            set_single(&mut rows[at], at);
            at + 1
        }
        NodeKind::Conjunction => {
            let second = gather(nodes, binders, ends, at + 1, left - 1, rows);
            let end = gather(nodes, binders, ends, second, at + left - second, rows);
            rows[at] = unite(&rows[at + 1], &rows[second]);
            end
        }
        NodeKind::Greatest => {
            let end = gather(nodes, binders, ends, at + 1, left - 1, rows);
            rows[at] = rows[at + 1];
            end
        }
    }
}

// Each node's row gets its demands: the root's formula, then the part of each G in rising order. A G lies between a variable and its
// binder, so that the binder's row is there before.
fn fill_rows(
    nodes: &Nodes,
    binders: &[u8; NODE_LIMIT],
    ends: &[usize; NODE_LIMIT + 1],
    rows: &mut [NodeSet; ROWS],
)
    requires { (nodes.now.count ≤ node_limit) × EndsFrom nodes.now.kinds nodes.now.count ends.now 0 }
    ensures { RowsTo nodes.now.kinds binders.now nodes.now.count rows.new nodes.now.count }
{
    gather(nodes, binders, ends, 0, nodes.count, rows);
    let transition = NodeKind::Transition.number();
    for i in 0..nodes.count {
        if nodes.kinds[i] == transition {
            gather(nodes, binders, ends, i + 1, nodes.count - i - 1, rows);
        }
    }
}

// Each node's row gets its demands, before the walk over states looks them up (document 02, F-3).
pub fn keep_demands(nodes: &Nodes, rows: &mut [NodeSet; ROWS])
    requires { nodes.now.count ≤ node_limit }
    ensures { KeepsDemands nodes.now.kinds nodes.now.firsts nodes.now.count rows.new }
{
    let mut stack = [0u8; BINDER_LIMIT];
    let mut binders = [0u8; NODE_LIMIT];
    bind(nodes, 0, nodes.count, 0, &mut stack, &mut binders);
    let mut ends = [0usize; NODE_LIMIT + 1];
    fill_ends(nodes, &mut ends);
    fill_rows(nodes, &binders, &ends, rows);
}
