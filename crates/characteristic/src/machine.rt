// The machine whose rule is written.
ghost use Rattle.std.specs.Prelude.{ℕ, ◌≤◌, ◌<◌, get_or};
ghost use Rattle.limits.specs.Limits.{event_limit, table_limit};

use machines::{next_at, value_at};
use values::ValueKind;

// A table over so many events, with values of a kind.
#[derive(Clone, Copy)]
pub struct Machine<'a> {
    pub kind: ValueKind,
    pub events: usize,
    pub entries: &'a [u8],
    pub ghost some_events: { 0 < events },
    pub ghost few_events: { events ≤ event_limit },
    pub ghost in_bytes: { (i : ℕ) → get_or entries.now i 0 < 256 },
}

impl<'a> Machine<'a> {
    ghost use Rattle.std.specs.Prelude.{◌≡◌};
    ghost use Rattle.machines.specs.Claims.{OfBytes};
    ghost use Rattle.characteristic.specs.NodeOutput.{mealy_of};

    pub fn new(kind: ValueKind, events: usize, entries: &'a [u8]) -> Machine<'a>
        requires { (0 < events) × (events ≤ event_limit) }
        ensures kind { result.kind ≡ kind }
        ensures events { result.events ≡ events }
        ensures entries { result.entries.now ≡ entries.now }
    {
        Machine {
            kind,
            events,
            entries,
        }
    }

    // The next state and the value of a state on an event. Both by one index: a rule over many events is written faster.
    #[inline(always)]
    pub fn row(&self, state: usize, event: usize) -> (usize, u32)
        requires { (state < table_limit) × (event < self.now.events) }
        ensures next { result.0 ≡ (mealy_of self.now).next state event }
        ensures small { result.0 < table_limit }
        ensures value { result.1 ≡ (mealy_of self.now).value state event }
        ensures fits { OfBytes self.now.kind result.1 }
    {
        let i = state * self.events + event;
        let next = next_at(self.kind, self.entries, i);
        (next, value_at(self.kind, self.entries, i))
    }
}
