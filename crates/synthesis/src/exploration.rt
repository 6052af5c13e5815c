// The states that event sequences reach, in document 01's order ("Table of a rule"), and the next state of each on each event.
ghost use Rattle.std.specs.Prelude.{◌≡◌, ℕ, ◌+◌, ◌*◌, ◌<◌, ◌≤◌, length, get_or, set, IfSome, unwrap_or};
ghost use Rattle.theory.specs.DemandSets.{empty};
ghost use Rattle.limits.specs.Limits.{event_limit, node_limit, state_limit};
ghost use Rattle.synthesis.specs.NodeWords.{set_of, row, bits_at};
ghost use Rattle.synthesis.specs.StatePlaces.{place_count, link_count, set_place, Different, Chained};
ghost use Rattle.synthesis.specs.Exploring.{PassedStates, NextSets, next_bits, Found, Counted, MarkedExpanded, sequences, said};
ghost use Rattle.synthesis.specs.MarkedNodes.{word_set, Came};

use crate::entries::entry_at;
use crate::node_sets::{EMPTY, NodeSet, ROWS, last_set, marks_of, power, same, unite};
use formulas::{NodeKind, Nodes};
use limits::{EVENT_LIMIT, SET_WORDS, STATE_LIMIT};

// A G node of a set is passed: the demands of its part come into the next set on its event.
fn advance_node(
    nodes: &Nodes,
    rows: &[NodeSet; ROWS],
    events: usize,
    node: usize,
    sets: &mut [NodeSet; EVENT_LIMIT],
)
    requires { (node < node_limit) × (events ≤ event_limit) }
    ensures { PassedStates nodes.now.firsts rows.now events node sets.old sets.new }
{
    let event = usize::from(nodes.firsts[node]);
    if event < events {
        sets[event] = unite(&sets[event], &rows[node + 1]);
    }
}

// The first n sets are emptied.
fn clear(sets: &mut [NodeSet; EVENT_LIMIT], n: usize)
    requires { n ≤ event_limit }
    ensures { (e : ℕ) → e < n → row sets.new e ≡ empty }
{
    for e in 0..n {
        sets[e] = EMPTY;
    }
}

// The nodes of one word, the first of which is base, are passed, the last node first. Each turn takes the last bit off what is left.
// Its twin is `meet_word`: as one function they would take the step as a closure over what is lent, which is no plainer.
fn advance_word(
    nodes: &Nodes,
    rows: &[NodeSet; ROWS],
    events: usize,
    word: u64,
    base: usize,
    sets: &mut [NodeSet; EVENT_LIMIT],
)
    requires { (base + 64 ≤ node_limit) × (events ≤ event_limit) }
    ensures { Came (PassedStates nodes.now.firsts rows.now events) (word_set word base) (base + 64) sets.old base
        sets.new }
{
    let mut rest = word;
    let mut end: usize = 64;
    while 0 < rest {
        end = last_set(rest);
        rest = rest % power(end);
        advance_node(nodes, rows, events, base + end, sets);
    }
}

// The next sets of a state, one for each event: the demands of the parts of the set's G nodes, which are marked, for the event.
fn advance(
    nodes: &Nodes,
    marks: &NodeSet,
    rows: &[NodeSet; ROWS],
    set: &NodeSet,
    events: usize,
    sets: &mut [NodeSet; EVENT_LIMIT],
)
    requires { events ≤ event_limit }
    ensures { NextSets marks.now nodes.now.firsts rows.now (set_of set.now) events sets.new }
{
    clear(sets, events);
    for w in (0..SET_WORDS).rev() {
        let word = set[w] & marks[w];
        advance_word(nodes, rows, events, word, w * 64, sets);
    }
}

// States have places by their sets. 2 is of order 130 modulo 131, so that no two bits of a word weigh the same.
const PLACES: usize = 131;

// A link for each state, to an earlier one of its place where there is one.
const LINKS: usize = STATE_LIMIT;

// The place of a set.
fn place_of(set: NodeSet) -> usize
    ensures { result ≡ set_place set }
{
    let [first, second, third, last] = set;
    let mixed = first ^ (second >> 1) ^ (third >> 2) ^ (last >> 3);
    (mixed % PLACES as u64) as usize
}

// How a state is found by its set: the head of each place, and the links.
#[derive(Drop)]
struct Places {
    heads: [u8; PLACES],
    links: [u8; LINKS],
}

impl Places {
    // The one of n states that is the set. All states of a place are linked, from the head of the place on, and no two are the same.
    fn find(&self, states: &[NodeSet], n: usize, set: &NodeSet, place: usize) -> Option<usize>
        requires { (n ≤ length states.now) × (n ≤ link_count) × (place ≡ set_place set.now) × Different n states.now
            × Chained n states.now self.now.heads self.now.links }
        ensures few { IfSome result (λ j. j < n) }
        ensures found { Found states.now n set.now (unwrap_or result n) }
    {
        let mut j = usize::from(self.heads[place]);
        loop {
            if same(&states[j], set) {
                return Some(j);
            }
            let next = usize::from(self.links[j]);
            if j <= next {
                return None;
            }
            j = next;
        }
    }

    // State k becomes the head of a place, linked to the head before it.
    fn link(&mut self, place: usize, k: usize)
        requires { (place < place_count) × (k < link_count) }
        ensures head { self.new.heads ≡ set self.old.heads place k }
        ensures linked { self.new.links ≡ set self.old.links k (get_or self.old.heads place 0) }
    {
        self.links[k] = self.heads[place];
        self.heads[place] = k as u8;
    }
}

// The states that the events lead to from state i come after the n there are, and the entries of state i get their numbers; the answer is
// the number of states then, or none where there are more than the limit. The sets are room for the next sets.
fn expand(
    nodes: &Nodes,
    marks: &NodeSet,
    rows: &[NodeSet; ROWS],
    events: usize,
    limit: usize,
    i: usize,
    n: usize,
    states: &mut [NodeSet],
    nexts: &mut [u8],
    sets: &mut [NodeSet; EVENT_LIMIT],
    places: &mut Places,
) -> Option<usize>
    requires { (i < n) × (n ≤ limit) × (limit ≤ state_limit) × (events ≤ event_limit) × (limit ≤ length states.old)
        × (limit * events ≤ length nexts.old) × Different n states.old × Chained n states.old places.old.heads places.old.links }
    ensures sizes { (length states.new ≡ length states.old) × (length nexts.new ≡ length nexts.old) }
    ensures found { IfSome result (λ k. (n ≤ k) × (k ≤ limit) × Different k states.new × Chained k states.new places.new.heads places.new.links) }
    ensures expanded { MarkedExpanded marks.now nodes.now.firsts rows.now events limit i n states.old nexts.old (said limit result)
        states.new nexts.new }
{
    advance(nodes, marks, rows, &states[i], events, sets);
    let mut k = n;
    for event in 0..events {
        let set = sets[event];
        let place = place_of(set);
        let found = places.find(&*states, k, &set, place);
        let j = found.unwrap_or(k);
        if found.is_none() {
            if k == limit {
                return None;
            }
            states[k] = set;
            places.link(place, k);
            k += 1;
        }
        nexts[entry_at(i, events, event)] = j as u8;
    }
    Some(k)
}

// The states that event sequences reach, in order, from the demands of node 0, and the numbers of the next states, by state and then event;
// none where there are more than the limit.
pub fn explore(
    nodes: &Nodes,
    rows: &[NodeSet; ROWS],
    events: usize,
    limit: usize,
    states: &mut [NodeSet],
    nexts: &mut [u8],
) -> Option<usize>
    requires { (0 < limit) × (limit ≤ state_limit) × (nodes.now.count ≤ node_limit) × (events ≤ event_limit)
        × (limit ≤ length states.old) × (limit * events ≤ length nexts.old) }
    ensures sizes { (length states.new ≡ length states.old) × (length nexts.new ≡ length nexts.old) }
    ensures few { IfSome result (λ n. n ≤ limit) }
    ensures counted { Counted (next_bits nodes.now.kinds nodes.now.firsts rows.now nodes.now.count) (bits_at rows.now 0) events limit
        (sequences (next_bits nodes.now.kinds nodes.now.firsts rows.now nodes.now.count) (bits_at rows.now 0) events limit)
        (said limit result) (said limit result * events) states.new nexts.new }
{
    let marks = marks_of(nodes, NodeKind::Transition);
    states[0] = rows[0];
    let mut sets = [EMPTY; EVENT_LIMIT];
    let mut places = Places {
        heads: [0; PLACES],
        links: [0; LINKS],
    };
    let mut n: usize = 1;
    let mut i: usize = 0;
    // No `for`: n grows on the way.
    while i < n {
        n = expand(
            nodes,
            &marks,
            rows,
            events,
            limit,
            i,
            n,
            states,
            nexts,
            &mut sets,
            &mut places,
        )?;
        i += 1;
    }
    Some(n)
}
