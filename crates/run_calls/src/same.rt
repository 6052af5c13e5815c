// What a call left as it was.
ghost use Rattle.std.specs.Prelude.{◌<◌};

use limits::CHANNEL_LIMIT;
use recorder::{NumberTool, Numbers, ToolSetup};

fn same_setup(a: &ToolSetup<Numbers>, b: &ToolSetup<Numbers>) -> bool {
    a.events == b.events
        && a.kind.values == b.kind.values
        && a.kind.top == b.kind.top
        && a.wheel.pulses == b.wheel.pulses
        && a.wheel.millimetres == b.wheel.millimetres
        && a.kind.meet == b.kind.meet
}

// Whether two tools are the same in every cell.
pub fn same(a: &NumberTool, b: &NumberTool) -> bool {
    same_setup(&a.setup, &b.setup)
        && a.states == b.states
        && a.current == b.current
        && a.total == b.total
        && a.value == b.value
        && a.next == b.next
}

// The entries of the rows of the first so many channels.
fn entries_before(tool: &NumberTool, count: usize) -> usize {
    let states = tool.states.iter().take(count);
    let rows = states.fold(0usize, |rows, &n| rows.saturating_add(usize::from(n)));
    rows.saturating_mul(usize::from(tool.setup.events))
}

// A channel's part of an array of entries; none where it lies behind the array.
fn part_of<'a>(tool: &NumberTool, entries: &'a [u8], channel: usize) -> &'a [u8]
    requires { channel < 8 }
{
    let from = entries_before(tool, channel);
    let to = entries_before(tool, channel + 1);
    entries.get(from..to).unwrap_or(&[])
}

// Whether a channel is the same in two tools of one set-up, wherever its rows lie.
fn same_channel(a: &NumberTool, b: &NumberTool, channel: usize) -> bool
    requires { channel < 8 }
{
    a.states[channel] == b.states[channel]
        && a.current[channel] == b.current[channel]
        && a.total[channel] == b.total[channel]
        && part_of(a, &a.value, channel) == part_of(b, &b.value, channel)
        && part_of(a, &a.next, channel) == part_of(b, &b.next, channel)
}

// Whether every channel but one is the same in two tools of one set-up.
pub fn others_same(a: &NumberTool, b: &NumberTool, channel: usize) -> bool {
    (0..CHANNEL_LIMIT).all(|i| i == channel || same_channel(a, b, i))
}

// Whether the cells behind the last table are 0.
pub fn zeros_behind(tool: &NumberTool) -> bool {
    let used = entries_before(tool, CHANNEL_LIMIT);
    let value = tool.value.iter().skip(used);
    let next = tool.next.iter().skip(used);
    value.chain(next).all(|entry| *entry == 0)
}
