// Loads two rules in turn into channel 0 of a tool of either kind, many times over, with the first in channel 1. Standard input is bytes: the kind;
// events, values, top, pulses and millimetres per turn; how long the first rule is; the two rules. The kind is 0, numbers with the four-value
// set's meet, or any other, registers, whose lines stand in the place of the values, and top is not looked at. Prints how many loads were
// accepted. bench/ times it.
#![tactic(auto)]

use recorder::{Kind, NumberTool, RegisterTool, Tool};
use standard_input::read_full;
use std::io;

const LOAD_ROUNDS: usize = 16384;

// With rules of registers of 3 and 256 nodes.
const ROOM: usize = 1561;

// How many of the loads of two rules into channel 0 are accepted, with the first in channel 1.
fn load_rounds<K: Kind>(tool: Tool<K, K::Column>, first: &[u8], second: &[u8]) -> u64 {
    let mut tool = tool.load(1, first).tool;
    let mut accepted: u64 = 0;
    for _ in 0..LOAD_ROUNDS {
        for rule in [first, second] {
            let answer = tool.load(0, rule);
            tool = answer.tool;
            if answer.reply.is_ok() {
                accepted = accepted.saturating_add(1);
            }
        }
    }
    accepted
}

// The loads of an input that are accepted; none for one that ends before its rules, and 0 for one that ends in the first.
fn loads(line: &[u8]) -> Option<u64> {
    let [
        kind,
        events,
        values,
        top,
        pulses,
        millimetres,
        size,
        rules @ ..,
    ] = line
    else {
        return None;
    };
    let Some((first, second)) = rules.split_at_checked(usize::from(*size)) else {
        return Some(0);
    };
    let events = usize::from(*events);
    let values = usize::from(*values);
    let top = usize::from(*top);
    let pulses = usize::from(*pulses);
    let millimetres = usize::from(*millimetres);
    Some(match kind {
        0 => {
            let meet = values::four_values();
            let made = NumberTool::set_up(events, values, top, &meet, pulses, millimetres);
            load_rounds(made.tool, first, second)
        }
        _ => {
            let made = RegisterTool::set_up(events, values, pulses, millimetres);
            load_rounds(made.tool, first, second)
        }
    })
}

fn main(rt: HostRuntime) -> io::Result<()> {
    let mut line = [0u8; ROOM];
    let n = read_full(&mut rt.stdin(), &mut line)?;
    if let Some(accepted) = loads(&line[..n]) {
        println!(rt; "{accepted}")?;
    }
    Ok(())
}
