// The nodes of a rule, as they are appended to a buffer of the walk's own.
ghost use Rattle.std.specs.Prelude.{◌≡◌, ◌∷◌, ◌++◌, ◌+◌, ◌*◌, ◌≤◌, ◌<◌, length};
ghost use Rattle.formulas.specs.RuleConditions.{node_width};
ghost use Rattle.limits.specs.Limits.{node_limit};
ghost use Rattle.std.proofs.lemmas.List.Edits.{sets};
ghost use Rattle.theory.specs.ValueSets.{unpack};
ghost use Rattle.values.specs.Setup.{mask_bytes};
ghost use Rattle.machines.specs.Claims.{OfBytes};

use formulas::{NodeKind, node_width};
use limits::NODE_LIMIT;
use values::ValueKind;

// The bytes of all nodes that a rule may have, at six a node at most.
pub const RULE_BYTES: usize = NODE_LIMIT * 6;

// A node of a written rule: X, G, O, A or V.
#[derive(Clone, Copy)]
pub enum Node {
    Variable(usize),
    Transition(usize),
    Output(usize, u32),
    Conjunction,
    Greatest,
}

// The first nodes of a rule, with values of a kind: at the front of `bytes`, `width` bytes each. How many there are goes from call to
// call, and is kept in `count` where the rows of a state end: to store it with each node makes a rule over many events slower.
#[derive(Drop)]
pub struct NodeList {
    pub kind: ValueKind,
    pub width: usize,
    pub bytes: [u8; RULE_BYTES],
    pub count: usize,
    pub ghost within: { count ≤ node_limit },
    pub ghost width_is: { width ≡ node_width kind },
}

// Stores the fields of a node behind so many others of a width, its value in four bytes: of a number the first counts, and the next node
// is stored over the others. No branch on the kind of value: a rule of many nodes takes up to a quarter longer with one, by where its
// code lies.
fn put_fields(to: &mut [u8], width: usize, count: usize, number: u8, first: u8, value: u32)
    requires { count * width + 6 ≤ length to.old }
    ensures { to.new ≡ sets to.old (count * width) (number ∷ first ∷ mask_bytes (unpack value).low ++ mask_bytes (unpack value).high) }
{
    let at = count * width;
    to[at] = number;
    to[at + 1] = first;
    to[at + 2..at + 6].copy_from_slice(&value.to_le_bytes());
}

impl Node {
    ghost use Rattle.std.specs.Prelude.{◌≡◌};
    ghost use Rattle.formulas.specs.{NodeCode.{kind_number, first_field, value_field}, RuleReading.{number_of}};
    ghost use Rattle.characteristic.specs.NodeOutput.{node_of};

    // Its kind, its first field and its value; a field that the kind does not use is 0.
    fn fields(self) -> (NodeKind, usize, u32)
        ensures kind { number_of result.0 ≡ kind_number (node_of self) }
        ensures first { result.1 ≡ first_field (node_of self) }
        ensures value { result.2 ≡ value_field (node_of self) }
    {
        match self {
            Node::Variable(binders) => (NodeKind::Variable, binders, 0),
            Node::Transition(event) => (NodeKind::Transition, event, 0),
            Node::Output(event, value) => (NodeKind::Output, event, value),
            Node::Conjunction => (NodeKind::Conjunction, 0, 0),
            Node::Greatest => (NodeKind::Greatest, 0, 0),
        }
    }
}

impl NodeList {
    ghost use Rattle.std.specs.Prelude.{◌≡◌, [], ◌∷◌};
    ghost use Rattle.characteristic.specs.NodeOutput.{node_of, FitsBytes, Appends, first_nodes, all_nodes, listed};
    ghost use Rattle.formulas.specs.RuleConditions.{node_bytes};

    // No nodes yet.
    pub fn new(kind: ValueKind) -> NodeList
        ensures kind { result.kind ≡ kind }
        ensures none { result.count ≡ 0 }
    {
        NodeList {
            kind,
            width: node_width(kind),
            bytes: [0; RULE_BYTES],
            count: 0,
        }
    }

    // Stores a node behind so many others.
    #[inline(always)]
    fn store(&mut self, count: usize, node: Node)
        requires { (count < node_limit) × FitsBytes self.old.kind (node_of node) }
        ensures kind { self.new.kind ≡ self.old.kind }
        ensures count { self.new.count ≡ self.old.count }
        ensures bytes { listed (first_nodes self.new (count + 1)) ≡ listed (first_nodes self.old count) ++ node_bytes self.old.kind (node_of node) }
    {
        let (node_kind, first, value) = node.fields();
        put_fields(
            &mut self.bytes,
            self.width,
            count,
            node_kind.number(),
            first as u8,
            value,
        );
    }

    // Appends a node behind so many others: how many they are then; nothing where they are already as many as a rule may have.
    // Inlined: a rule of many nodes is written faster.
    #[inline(always)]
    pub fn put(&mut self, count: usize, node: Node) -> Option<usize>
        requires { (count ≤ node_limit) × FitsBytes self.old.kind (node_of node) }
        ensures { Appends (node_of node ∷ []) (first_nodes self.old count) self.new result }
    {
        if count == NODE_LIMIT {
            return None;
        }
        self.store(count, node);
        Some(count + 1)
    }

    // Appends two nodes, or nothing: faster than one after the other.
    #[inline(always)]
    pub fn put_both(&mut self, count: usize, one: Node, other: Node) -> Option<usize>
        requires { (count ≤ node_limit) × FitsBytes self.old.kind (node_of one) × FitsBytes self.old.kind (node_of other) }
        ensures { Appends (node_of one ∷ node_of other ∷ []) (first_nodes self.old count) self.new result }
    {
        if NODE_LIMIT <= count + 1 {
            return None;
        }
        self.store(count, one);
        self.store(count + 1, other);
        Some(count + 2)
    }

    // The bytes of the nodes.
    pub fn bytes(&self) -> &[u8]
        ensures { result.now ≡ listed (all_nodes self.now) }
    {
        &self.bytes[..self.count * self.width]
    }
}
