// Formulas in bytes (document 01, "Rules"): refusals 5 to 9, and 23 of document 02, F-9.
#![tactic(auto)]

ghost use Rattle.std.specs.Prelude.{◌≡◌, ◌+◌, ◌/◌, ◌≤◌, ◌<◌, cond};
ghost use Rattle.std.proofs.Math.Option.{none, some};
ghost use Rattle.formulas.specs.RuleConditions.{node_width};
ghost use Rattle.refusal.specs.RefusalAnswers.{judgement};
ghost use Rattle.formulas.specs.RuleReading.{kind_of, number_of, fields_fit, awaited, unbound_below, path_full, bound_near};
ghost use Rattle.formulas.specs.RuleRefusal.{count_fits, tree_refusal, fields_refusal, rule_refusal};
ghost use Rattle.formulas.specs.NodeWalks.{Keeps, Scanned, VariablesJudged, field};
ghost use Rattle.formulas.specs.NodeArrays.{decoded};
ghost use Rattle.values.specs.ValueTests.{value_fits};
ghost use Rattle.limits.specs.Limits.{node_limit, binder_limit};

use limits::{BINDER_LIMIT, NODE_LIMIT};
use refusal::Refusal;
use values::{ValueKind, value_fits, value_from};

// The kinds of node, by document 01's letters T, X, G, O, A and V.
#[derive(Clone, Copy, PartialEq, Eq)]
pub enum NodeKind {
    Truth,
    Variable,
    Transition,
    Output,
    Conjunction,
    Greatest,
}

impl NodeKind {
    // The kind that a byte stands for.
    #[tactic(auto, unfolding(crate::specs::RuleReading::kind_of))]
    pub fn of(byte: u8) -> Option<NodeKind>
        ensures { result ≡ kind_of byte }
    {
        match byte {
            0 => Some(NodeKind::Truth),
            1 => Some(NodeKind::Variable),
            2 => Some(NodeKind::Transition),
            3 => Some(NodeKind::Output),
            4 => Some(NodeKind::Conjunction),
            5 => Some(NodeKind::Greatest),
            _ => None,
        }
    }

    // The byte of a kind.
    pub fn number(self) -> u8
        ensures { result ≡ number_of self }
    {
        match self {
            NodeKind::Truth => 0,
            NodeKind::Variable => 1,
            NodeKind::Transition => 2,
            NodeKind::Output => 3,
            NodeKind::Conjunction => 4,
            NodeKind::Greatest => 5,
        }
    }
}

// The fields of nodes, however they lie in bytes: the first `count` of each array.
#[derive(Clone, Copy)]
pub struct Nodes {
    pub count: usize,
    pub kinds: [u8; NODE_LIMIT],
    pub firsts: [u8; NODE_LIMIT],
    pub values: [u32; NODE_LIMIT],
}

// The lowest node at fault for each of 8, 23 and 9, as far as a walk has come.
#[derive(Clone, Copy)]
struct Faults {
    unbound: Option<usize>,
    too_deep: Option<usize>,
    unprotected: Option<usize>,
}

// The bytes of a node, with values of a kind.
pub fn node_width(kind: ValueKind) -> usize
    ensures { (result ≡ node_width kind) × (1 < result) × (result ≤ 6) }
{
    match kind {
        ValueKind::Numbered(_) => 3,
        ValueKind::Register(_) => 6,
    }
}

// 5: so many bytes are 1 to 256 whole nodes.
#[tactic(auto, unfolding(crate::specs::RuleRefusal::count_fits))]
pub fn count_fits(kind: ValueKind, n: usize) -> bool
    ensures { result ≡ count_fits (node_width kind) node_limit n }
{
    let width = node_width(kind);
    let count = n / width;
    n % width == 0 && 0 < count && count <= NODE_LIMIT
}

// The fields of the first 256 nodes; those beyond the node count are 0.
pub fn decode(kind: ValueKind, bytes: &[u8]) -> Nodes
    ensures { result ≡ decoded kind bytes.now }
{
    let width = node_width(kind);
    let count = NODE_LIMIT.min(bytes.len() / width);
    let mut kinds = [0u8; NODE_LIMIT];
    let mut firsts = [0u8; NODE_LIMIT];
    let mut values = [0u32; NODE_LIMIT];
    for i in 0..count {
        let at = i * width;
        kinds[i] = bytes[at];
        firsts[i] = bytes[at + 1];
        values[i] = value_from(kind, bytes, at + 2);
    }
    Nodes {
        count,
        kinds,
        firsts,
        values,
    }
}

// 6, for one node: the kind is known, the event is below the event count, the value fits, and unused fields are 0.
#[tactic(auto, unfolding(crate::specs::RuleReading::fields_fit))]
fn fields_fit(events: usize, kind: Option<NodeKind>, first: u8, value: u32, fits: bool) -> bool
    ensures { result ≡ fields_fit events kind first value fits }
{
    match kind {
        Some(NodeKind::Truth | NodeKind::Conjunction | NodeKind::Greatest) => first == 0
            && value == 0,
        Some(NodeKind::Variable) => value == 0,
        Some(NodeKind::Transition) => usize::from(first) < events && value == 0,
        Some(NodeKind::Output) => usize::from(first) < events && fits,
        None => false,
    }
}

// How many parts are awaited after a node of this kind, where so many others were awaited beside it.
#[tactic(auto, unfolding(crate::specs::RuleReading::awaited))]
fn awaited(kind: Option<NodeKind>, others: usize) -> usize
    requires { others ≤ node_limit }
    ensures { result ≡ awaited kind others }
{
    match kind {
        Some(NodeKind::Transition | NodeKind::Greatest) => others + 1,
        Some(NodeKind::Conjunction) => others + 2,
        _ => others,
    }
}

// 6, then 7: the fields of every node fit, and the nodes are those of one formula. `used` counts the nodes up to its end.
fn check_fields(events: usize, kind: ValueKind, nodes: &Nodes) -> Result<(), Refusal>
    requires { nodes.now.count ≤ node_limit }
    ensures { result ≡ judgement (tree_refusal (field nodes.now.kinds) (field nodes.now.firsts) (field nodes.now.values) nodes.now.count
        (value_fits kind) events) }
{
    let mut parts: usize = 1;
    let mut used: usize = 0;
    for i in 0..nodes.count {
        let node = NodeKind::of(nodes.kinds[i]);
        let v = nodes.values[i];
        if !fields_fit(events, node, nodes.firsts[i], v, value_fits(kind, v)) {
            return Err(Refusal::NodeFields(i));
        }
        if 1 <= parts {
            parts = awaited(node, parts - 1);
            used += 1;
        }
    }
    if 0 < parts {
        return Err(Refusal::NodeTree(nodes.count));
    }
    if used < nodes.count {
        return Err(Refusal::NodeTree(used));
    }
    Ok(())
}

// 8, for one variable: it counts as many binders as it stands below, or more.
#[tactic(auto, unfolding(crate::specs::RuleReading::unbound_below))]
fn unbound(first: u8, depth: usize) -> bool
    ensures { result ≡ unbound_below depth first }
{
    depth <= usize::from(first)
}

// 23, for one V: so many others stand above it that a path has too many.
#[tactic(auto, unfolding(crate::specs::RuleReading::path_full))]
fn path_full(depth: usize) -> bool
    ensures { result ≡ path_full binder_limit depth }
{
    BINDER_LIMIT <= depth
}

// 9, for one variable: its own binder is one of the last so many.
#[tactic(auto, unfolding(crate::specs::RuleReading::bound_near))]
fn bound_near(first: u8, near: usize) -> bool
    ensures { result ≡ bound_near near first }
{
    usize::from(first) < near
}

// What is noted after a node: the node itself where it is the first at fault.
#[tactic(auto, unfolding(crate::specs::NodeWalks::noted, crate::specs::RuleReading::first_of))]
fn noted(before: Option<usize>, fault: bool, at: usize) -> Option<usize>
    ensures { Keeps (cond fault (some at) none) before result }
{
    before.or(fault.then_some(at))
}

// 8, 23 and 9 over the formula at a node, in a closed position: below `depth` binders, `near` of them since the last G. Notes the lowest
// variable without binder, the lowest V with too many above it, and the lowest variable whose own binder is one of the near ones. The
// answer is the node after the formula.
#[cycle(closed_position_open_position)]
fn closed_position(
    nodes: &Nodes,
    at: usize,
    left: usize,
    depth: usize,
    near: usize,
    faults: &mut Faults,
) -> usize
    requires { (at + left ≤ node_limit) × (depth ≤ at) × (near ≤ depth) }
    ensures { Scanned (field nodes.now.kinds) (field nodes.now.firsts) depth near at left faults.old faults.new result }
{
    if left == 0 {
        return at;
    }
    let Some(kind) = NodeKind::of(nodes.kinds[at]) else {
        return at + 1;
    };
    match kind {
        NodeKind::Truth | NodeKind::Output => at + 1,
        NodeKind::Variable => {
            faults.unbound = noted(faults.unbound, unbound(nodes.firsts[at], depth), at);
            faults.unprotected = noted(faults.unprotected, bound_near(nodes.firsts[at], near), at);
            at + 1
        }
        NodeKind::Transition => open_position(nodes, at + 1, left - 1, depth, faults),
        NodeKind::Conjunction => {
            let second = closed_position(nodes, at + 1, left - 1, depth, near, faults);
            closed_position(nodes, second, at + left - second, depth, near, faults)
        }
        NodeKind::Greatest => {
            faults.too_deep = noted(faults.too_deep, path_full(depth), at);
            closed_position(nodes, at + 1, left - 1, depth + 1, near + 1, faults)
        }
    }
}

// The same in an open position: no binder since the last G, or since the root. 9 notes nothing there. One function for each position of the
// grammar, as document 01 names them.
#[cycle(closed_position_open_position)]
fn open_position(nodes: &Nodes, at: usize, left: usize, depth: usize, faults: &mut Faults) -> usize
    requires { (at + left ≤ node_limit) × (depth ≤ at) }
    ensures { Scanned (field nodes.now.kinds) (field nodes.now.firsts) depth 0 at left faults.old faults.new result }
{
    if left == 0 {
        return at;
    }
    let Some(kind) = NodeKind::of(nodes.kinds[at]) else {
        return at + 1;
    };
    match kind {
        NodeKind::Truth | NodeKind::Output => at + 1,
        NodeKind::Variable => {
            faults.unbound = noted(faults.unbound, unbound(nodes.firsts[at], depth), at);
            at + 1
        }
        NodeKind::Transition => open_position(nodes, at + 1, left - 1, depth, faults),
        NodeKind::Conjunction => {
            let second = open_position(nodes, at + 1, left - 1, depth, faults);
            open_position(nodes, second, at + left - second, depth, faults)
        }
        NodeKind::Greatest => {
            faults.too_deep = noted(faults.too_deep, path_full(depth), at);
            closed_position(nodes, at + 1, left - 1, depth + 1, 1, faults)
        }
    }
}

// 8, then 23, then 9: every variable has its binder, no path has too many, and a G lies between each variable and its binder.
fn check_variables(nodes: &Nodes) -> Result<(), Refusal>
    requires { nodes.now.count ≤ node_limit }
    ensures { VariablesJudged (field nodes.now.kinds) (field nodes.now.firsts) nodes.now.count result }
{
    let mut faults = Faults {
        unbound: None,
        too_deep: None,
        unprotected: None,
    };
    open_position(nodes, 0, nodes.count, 0, &mut faults);
    if let Some(p) = faults.unbound {
        return Err(Refusal::UnboundVariable(p));
    }
    if faults.too_deep.is_some() {
        return Err(Refusal::BinderDepth);
    }
    if let Some(q) = faults.unprotected {
        return Err(Refusal::UnprotectedVariable(q));
    }
    Ok(())
}

// 5 to 8, 23 and 9 for decoded nodes, the first `count` of each array, with the set-up's count of events and kind of values.
pub fn check_nodes(events: usize, kind: ValueKind, nodes: &Nodes) -> Result<(), Refusal>
    ensures { result ≡ judgement (fields_refusal (field nodes.now.kinds) (field nodes.now.firsts) (field nodes.now.values) nodes.now.count
        (value_fits kind) events) }
{
    if nodes.count == 0 {
        return Err(Refusal::NodeCount);
    }
    if NODE_LIMIT < nodes.count {
        return Err(Refusal::NodeCount);
    }
    check_fields(events, kind, nodes)?;
    check_variables(nodes)
}

// 5 to 8, 23 and 9 for a rule in bytes, with the set-up's count of events and kind of values.
pub fn check_rule(events: usize, kind: ValueKind, bytes: &[u8]) -> Result<(), Refusal>
    ensures { result ≡ judgement (rule_refusal events kind bytes.now) }
{
    if !count_fits(kind, bytes.len()) {
        return Err(Refusal::NodeCount);
    }
    check_nodes(events, kind, &decode(kind, bytes))
}
