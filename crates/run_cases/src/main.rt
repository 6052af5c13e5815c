// Document 01's cases that are run, as document 02, F-9 and F-12, changes them: chains and loops of rules and of tables, at and above the
// limits.
#![tactic(auto)]

use conformance::{Grade, Verdict, trial};
use limits::{NODE_LIMIT, TABLE_BYTES, TABLE_LIMIT, WORD_LIMIT};
use machines::{Device, Table};
use refusal::Refusal;
use std::io::Stdout;
use std::{array, fmt, io};
use values::{SetUp, Values};

// A rule of as many nodes as there may be: those before its last, and its bytes.
const TRANSITIONS: usize = NODE_LIMIT - 1;

const RULE_ROOM: usize = NODE_LIMIT * 3;

// A table for one event of one state more than there may be: its states, its bytes, and the place of its last value.
const LOOP_STATES: usize = TABLE_LIMIT + 1;

const LOOP_ROOM: usize = LOOP_STATES * 2;

const LAST_VALUE: usize = TABLE_LIMIT * 2;

// An answer as its line. A count stands behind its key.
#[derive(Drop)]
struct CountLine<'a>(&'a str, Result<usize, Refusal>);

impl fmt::Display for CountLine<'_> {
    fn fmt<W: fmt::Write>(&self, f: &mut fmt::Formatter<W>) -> fmt::Result {
        let key = self.0;
        match self.1 {
            Ok(n) => write!(f, "{key}={n}"),
            Err(refusal) => write!(f, "refused={refusal}"),
        }
    }
}

#[derive(Drop)]
struct VerdictLine(Result<Verdict, Refusal>);

impl fmt::Display for VerdictLine {
    fn fmt<W: fmt::Write>(&self, f: &mut fmt::Formatter<W>) -> fmt::Result {
        match self.0 {
            Ok(Verdict::Pass(Grade::Same)) => write!(f, "pass=same"),
            Ok(Verdict::Pass(Grade::Stricter)) => write!(f, "pass=stricter"),
            Ok(Verdict::Fail(n)) => write!(f, "fail={n}"),
            Err(refusal) => write!(f, "refused={refusal}"),
        }
    }
}

// G0 255 times, then T.
fn chain_of_transitions() -> [u8; RULE_ROOM] {
    let mut rule = [0u8; RULE_ROOM];
    for kind in rule.iter_mut().step_by(3).take(TRANSITIONS) {
        *kind = 2;
    }
    rule
}

// The state after entry i of a chain whose state 0 is entry `first` of 64; the last state returns to itself.
fn next_in_chain(i: usize, first: usize) -> u8 {
    (i.min(62) + 1).saturating_sub(first) as u8
}

// One event, value 3: the entries of a chain, two bytes each, that starts at entry `first` of 64.
fn chain_of_states(first: usize) -> [u8; 128] {
    array::from_fn(|b| {
        if b % 2 == 0 {
            3
        } else {
            next_in_chain(b / 2, first)
        }
    })
}

// The four values, with so many events.
fn set_up(events: usize, meet: &[u8]) -> SetUp<'_> {
    SetUp {
        events,
        values: Values::Numbered {
            values: 4,
            top: 3,
            meet,
        },
    }
}

// A table for one event, of as many states as it has entries.
fn table_of(entries: &[u8]) -> Table<'_> {
    Table {
        states: entries.len() / 2,
        entries,
    }
}

// A device that starts at state 0 of such a table.
fn device_of(entries: &[u8]) -> Device<'_> {
    Device {
        table: table_of(entries),
        start: 0,
    }
}

// The states of a rule; its table goes to a lent buffer.
fn compile(stdout: Stdout, events: usize, rule: &[u8], table: &mut [u8]) -> io::Result<()> {
    let meet = values::four_values();
    let compiled = synthesis::compile(set_up(events, &meet), rule, table);
    println!(stdout; "{}", CountLine("states", compiled))
}

// The nodes of the rule of a chain of states; and the states of that rule, which fills the lent buffer.
fn write_chain(stdout: Stdout, entries: &[u8], rule: &mut [u8]) -> io::Result<()> {
    let meet = values::four_values();
    let written = characteristic::write_rule(set_up(1, &meet), device_of(entries), rule);
    println!(stdout; "{}", CountLine("nodes", written))?;
    if written.is_ok() {
        compile(stdout, 1, rule, &mut [0u8; 128])?;
    }
    Ok(())
}

// The state after entry i of a loop whose state 0 is entry `first` of 257, in one byte; the last state returns to 0.
fn next_in_loop(i: usize, first: usize) -> u8 {
    if i < TABLE_LIMIT {
        ((i + 1).saturating_sub(first) % 256) as u8
    } else {
        0
    }
}

// One event: the entries of a loop, two bytes each, that starts at entry `first` of 257; the last state has a value of its own.
fn loop_of_states(first: usize, value: u8, last_value: u8) -> [u8; LOOP_ROOM] {
    array::from_fn(|b| match b {
        LAST_VALUE => last_value,
        _ if b % 2 == 0 => value,
        _ => next_in_loop(b / 2, first),
    })
}

// The trial of a device against a table, both for one event.
fn try_device(stdout: Stdout, device: &[u8], table: &[u8], word: &mut [u8]) -> io::Result<()> {
    let meet = values::four_values();

    let verdict = trial(set_up(1, &meet), table_of(table), device_of(device), word);
    println!(stdout; "{}", VerdictLine(verdict))
}

// A device of value 0, and 3 in its last state, against a table of value 3, and 1 in its last state, both loops: it fails where both are in
// their last states. With 63 and 254 states that is after 63 x 254 events.
fn try_longest(stdout: Stdout, word: &mut [u8]) -> io::Result<()> {
    let device = loop_of_states(194, 0, 3);
    let table = loop_of_states(3, 3, 1);
    try_device(stdout, &device[388..], &table[6..], word)
}

// Tables of 256 and of 257 states.
fn try_tables(stdout: Stdout, word: &mut [u8]) -> io::Result<()> {
    let device = loop_of_states(256, 0, 3);
    let most = loop_of_states(1, 3, 1);
    try_device(stdout, &device[512..], &most[2..], word)?;
    let more = loop_of_states(0, 3, 1);
    try_device(stdout, &device[512..], &more, word)
}

// Devices of 64 and of 65 states.
fn try_devices(stdout: Stdout, word: &mut [u8]) -> io::Result<()> {
    let table = loop_of_states(256, 3, 1);
    let most = loop_of_states(193, 0, 3);
    try_device(stdout, &most[386..], &table[512..], word)?;
    let more = loop_of_states(192, 0, 3);
    try_device(stdout, &more[384..], &table[512..], word)
}

// A buffer of one byte less than the longest word has.
fn try_short(stdout: Stdout) -> io::Result<()> {
    let device = loop_of_states(256, 0, 3);
    let table = loop_of_states(256, 3, 1);
    let mut word = [0u8; WORD_LIMIT - 1];
    try_device(stdout, &device[512..], &table[512..], &mut word)
}

fn trials(stdout: Stdout) -> io::Result<()> {
    let mut word = [0u8; WORD_LIMIT];
    try_longest(stdout, &mut word)?;
    try_tables(stdout, &mut word)?;
    try_devices(stdout, &mut word)?;
    try_short(stdout)
}

// The rules of chains of states, and of loops of 256 and of 257.
fn writings(stdout: Stdout) -> io::Result<()> {
    let mut exact = [0u8; 147];
    let twelve = chain_of_states(52);
    write_chain(stdout, &twelve[104..], &mut exact)?;
    let mut room = [0u8; RULE_ROOM];
    let thirteen = chain_of_states(51);
    write_chain(stdout, &thirteen[102..], &mut room)?;
    let sixty_three = chain_of_states(1);
    write_chain(stdout, &sixty_three[2..], &mut room)?;
    let sixty_four = chain_of_states(0);
    write_chain(stdout, &sixty_four, &mut room)?;
    let most = loop_of_states(1, 3, 3);
    write_chain(stdout, &most[2..], &mut room)?;
    let more = loop_of_states(0, 3, 3);
    write_chain(stdout, &more, &mut room)
}

fn main(rt: HostRuntime) -> io::Result<()> {
    let stdout = rt.stdout();
    let rule = chain_of_transitions();
    let mut table = [0u8; TABLE_BYTES];
    compile(stdout, 2, &rule[576..], &mut table)?;
    compile(stdout, 2, &rule[573..], &mut table)?;
    compile(stdout, 2, &rule, &mut table)?;
    writings(stdout)?;
    trials(stdout)
}
