// The table of the formula whose nodes these are (document 01, "Table of a rule").
ghost use Rattle.std.specs.Prelude.{◌≡◌, ◌*◌, ◌<◌, ◌≤◌, length, IfSome};
ghost use Rattle.limits.specs.Limits.{state_limit};
ghost use Rattle.values.specs.Setup.{meet_of};
ghost use Rattle.synthesis.specs.Exploring.{said};
ghost use Rattle.synthesis.specs.MadeTable.{Ready, Tables};

use crate::entries::fill_values;
use crate::exploration::explore;
use crate::node_sets::{NodeSet, ROWS};
use formulas::Nodes;
use values::ValueSet;

// The number of states, or none where there are more than the limit; the entries by state and then event. The rows have each node's demands;
// `states` is room for the sets of nodes that states are.
pub fn table_of(
    value_set: ValueSet<'_>,
    nodes: &Nodes,
    rows: &[NodeSet; ROWS],
    events: usize,
    limit: usize,
    states: &mut [NodeSet],
    values: &mut [u32],
    nexts: &mut [u8],
) -> Option<usize>
    requires { Ready nodes.now rows.now events × (0 < limit) × (limit ≤ state_limit)
        × (limit ≤ length states.old) × (limit * events ≤ length values.old) × (limit * events ≤ length nexts.old) }
    ensures sizes { (length values.new ≡ length values.old) × (length nexts.new ≡ length nexts.old) }
    ensures few { IfSome result (λ n. n ≤ limit) }
    ensures tables { Tables nodes.now (meet_of value_set.entry.kind value_set.entry.meet.now) value_set.entry.top events limit
        values.new nexts.new (said limit result) }
{
    let n = explore(nodes, rows, events, limit, states, nexts)?;
    fill_values(value_set, nodes, &*states, n, events, values);
    Some(n)
}
