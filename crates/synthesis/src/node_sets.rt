// Sets of node numbers, four words of 64 bits a set.
ghost use Rattle.std.specs.Prelude.{◌≡◌, true, false, ◌+◌, ◌<◌, ◌≤◌, ◌^◌, length};
ghost use Rattle.theory.specs.DemandSets.{only, union};
ghost use Rattle.limits.specs.Limits.{node_limit};
ghost use Rattle.formulas.specs.RuleReading.{number_of};
ghost use Rattle.synthesis.specs.NodeWords.{set_of, set_bits};
ghost use Rattle.synthesis.specs.MarkedNodes.{LastSet, Marks};

use formulas::{NodeKind, Nodes};
use limits::{NODE_LIMIT, SET_WORDS};

// Node k is bit k % 64 of word k / 64.
pub type NodeSet = [u64; SET_WORDS];

// A set for each node, and an empty one.
pub const ROWS: usize = NODE_LIMIT + 1;

pub const EMPTY: NodeSet = [0; SET_WORDS];

// 2 to the k-th.
pub fn power(k: usize) -> u64
    requires { k < 64 }
    ensures { result ≡ 2 ^ k }
{
    1u64 << (k as u64)
}

// The set of one node, in its place: as a value it would pass through the stack.
#[inline(always)]
pub fn set_single(set: &mut NodeSet, node: usize)
    requires { node < node_limit }
    ensures { set_of set.new ≡ only node }
{
    *set = EMPTY;
    set[node / 64] |= power(node % 64);
}

// The nodes of either set. Its words one by one: no plainer as a loop.
pub fn unite(a: &NodeSet, b: &NodeSet) -> NodeSet
    ensures { set_of result ≡ union (set_of a.now) (set_of b.now) }
{
    [a[0] | b[0], a[1] | b[1], a[2] | b[2], a[3] | b[3]]
}

// Whether two sets are the same.
pub fn same(a: &NodeSet, b: &NodeSet) -> bool
    ensures { (result ≡ true → a.now ≡ b.now) × (result ≡ false → set_bits a.now ≡ set_bits b.now → ⊥) }
{
    *a == *b
}

// The last set bit of a word that is not 0.
pub fn last_set(word: u64) -> usize
    requires { 0 < word }
    ensures { LastSet word result }
{
    63 - u64::leading_zeros(word) as usize
}

// The marks of the nodes of one kind.
pub fn marks_of(nodes: &Nodes, kind: NodeKind) -> NodeSet
    requires { nodes.now.count ≤ node_limit }
    ensures { Marks nodes.now.kinds nodes.now.count (number_of kind) result }
{
    let number = kind.number();
    let mut marks = EMPTY;
    for i in 0..nodes.count {
        if nodes.kinds[i] == number {
            marks[i / 64] |= power(i % 64);
        }
    }
    marks
}
