// The path of open states to a node of a rule.
ghost use Rattle.std.specs.Prelude.{◌≤◌};

use limits::TABLE_LIMIT;

// Of each open state, how many states were open with it when it was opened; of each other state none. `longest` is the length of the
// longest path so far. Narrow entries, as all are cleared for each rule.
#[derive(Drop)]
pub struct Path {
    pub opened: [Option<u16>; TABLE_LIMIT],
    pub depth: usize,
    pub longest: usize,
    pub ghost counted: { depth ≤ longest },
}

impl Path {
    ghost use Rattle.std.specs.Prelude.{◌≡◌, ◌+◌, ◌<◌, None, Some, max, set, replicate};
    ghost use Rattle.limits.specs.Limits.{table_limit, node_limit};
    ghost use Rattle.characteristic.specs.NodeOutput.{Held, place_of};

    // No state is open.
    pub fn new() -> Path
        ensures opened { result.opened ≡ replicate table_limit None }
        ensures depth { result.depth ≡ 0 }
        ensures longest { result.longest ≡ 0 }
    {
        Path {
            opened: [None; TABLE_LIMIT],
            depth: 0,
            longest: 0,
        }
    }

    // How many states were opened after this one, if it is open.
    pub fn place(&self, state: usize) -> Option<usize>
        requires { (state < table_limit) × Held self.now }
        ensures { result ≡ place_of self.now state }
    {
        self.opened[state].map(|depth| self.depth - usize::from(depth))
    }

    // Opens a state.
    pub fn open(&mut self, state: usize)
        requires { (state < table_limit) × (self.old.depth < node_limit) }
        ensures opened { self.new.opened ≡ set self.old.opened state (Some (self.old.depth + 1)) }
        ensures depth { self.new.depth ≡ self.old.depth + 1 }
        ensures longest { self.new.longest ≡ max self.old.longest (self.old.depth + 1) }
    {
        self.depth += 1;
        self.opened[state] = Some(self.depth as u16);
        self.longest = self.longest.max(self.depth);
    }

    // Closes the state that was opened last.
    pub fn close(&mut self, state: usize)
        requires { (state < table_limit) × (0 < self.old.depth) }
        ensures opened { self.new.opened ≡ set self.old.opened state None }
        ensures depth { self.new.depth + 1 ≡ self.old.depth }
        ensures longest { self.new.longest ≡ self.old.longest }
    {
        self.opened[state] = None;
        self.depth -= 1;
    }
}
