// Plays events on channel 0 of a tool of either kind, many times over. Standard input is bytes: how; the kind; events, values, top, pulses and
// millimetres per turn; how long a rule is, low byte first; the rule; the events. How is 0, each event by a call of its own, with three pulses; 1,
// all by one replay, with no pulses; or any other, all by one replay, with three pulses each. The kind is 0, numbers with the four-value set's
// meet, or any other, registers, whose lines stand in the place of the values, and top is not looked at. Prints the sum of what the event calls
// replied, or of what the last replay replied and wrote. bench/ times it.
#![tactic(auto)]

use recorder::{Kind, NumberTool, RegisterTool, Reply, Tool};
use standard_input::read_full;
use std::io;

const EVENT_ROUNDS: usize = 256;

const REPLAY_ROUNDS: usize = 16384;

const EVENTS: usize = 4096;

// With a rule of registers of 256 nodes, and the events.
const ROOM: usize = 5641;

// The value and the remainder of a reply.
fn replied(reply: Reply) -> u64 {
    match reply {
        Ok(Some(reading)) => u64::from(reading.value) + u64::from(reading.remainder),
        _ => 0,
    }
}

// What a tool is set up with.
#[derive(Clone, Copy)]
struct SetUp {
    events: usize,
    values: usize,
    top: usize,
    pulses: usize,
    millimetres: usize,
}

// A tool with a rule in channel 0, of numbers with the four-value set's meet. This and the next are functions of their own: with their calls
// beside those of events, each event cost a copy of the tool more.
fn of_numbers(setup: &SetUp, rule: &[u8]) -> NumberTool {
    let meet = values::four_values();
    let made = NumberTool::set_up(
        setup.events,
        setup.values,
        setup.top,
        &meet,
        setup.pulses,
        setup.millimetres,
    );
    made.tool.load(0, rule).tool
}

// The same of registers.
fn of_register(setup: &SetUp, rule: &[u8]) -> RegisterTool {
    let made = RegisterTool::set_up(setup.events, setup.values, setup.pulses, setup.millimetres);
    made.tool.load(0, rule).tool
}

// Each event by a call of its own.
fn play<K: Kind>(mut tool: Tool<K, K::Column>, word: &[u8]) -> u64 {
    let mut sum: u64 = 0;
    for _ in 0..EVENT_ROUNDS {
        for e in word {
            let answer = tool.event(0, usize::from(*e), 3);
            tool = answer.tool;
            sum = sum.wrapping_add(replied(answer.reply));
        }
    }
    sum
}

// All events by one replay.
fn replay<K: Kind>(
    mut tool: Tool<K, K::Column>,
    word: &[u8],
    pulses: &[u32],
    values: &mut [K::Value],
) -> u64 {
    let mut last: u64 = 0;
    for _ in 0..REPLAY_ROUNDS {
        let answer = tool.replay(0, word, pulses, values);
        tool = answer.tool;
        last = replied(answer.reply);
    }
    values
        .iter()
        .fold(last, |sum, v| sum.wrapping_add(u64::from(K::wide(*v))))
}

fn sum_by<K: Kind>(tool: Tool<K, K::Column>, how: u8, word: &[u8], values: &mut [K::Value]) -> u64 {
    match how {
        0 => play(tool, word),
        1 => replay(tool, word, &[], values),
        _ => replay(tool, word, &[3u32; EVENTS], values),
    }
}

// The sum for an input; none for one that ends before its rule, and 0 for one that ends in it.
fn sum_for(line: &[u8]) -> Option<u64> {
    let [
        how,
        kind,
        events,
        values,
        top,
        pulses,
        millimetres,
        low,
        high,
        others @ ..,
    ] = line
    else {
        return None;
    };
    let setup = SetUp {
        events: usize::from(*events),
        values: usize::from(*values),
        top: usize::from(*top),
        pulses: usize::from(*pulses),
        millimetres: usize::from(*millimetres),
    };
    let size = usize::from(*low) + usize::from(*high) * 256;
    let Some((rule, word)) = others.split_at_checked(size) else {
        return Some(0);
    };
    Some(match kind {
        0 => sum_by(of_numbers(&setup, rule), *how, word, &mut [0u8; EVENTS]),
        _ => sum_by(of_register(&setup, rule), *how, word, &mut [0u32; EVENTS]),
    })
}

fn main(rt: HostRuntime) -> io::Result<()> {
    let mut line = [0u8; ROOM];
    let n = read_full(&mut rt.stdin(), &mut line)?;
    if let Some(sum) = sum_for(&line[..n]) {
        println!(rt; "{sum}")?;
    }
    Ok(())
}
