// Document 02, F-12: 512 rows among the channels, packed; 25.
ghost use Rattle.std.specs.Prelude.{◌≤◌};

use crate::answers::{Items, ReplyText};
use crate::calls;
use recorder::NumberTool;
use std::io;
use std::io::Stdout;

// Makes each node of memory that is 0, three bytes each, a G0.
fn chain(nodes: &mut [u8]) {
    for kind in nodes.iter_mut().step_by(3) {
        *kind = 2;
    }
}

fn load(
    stdout: Stdout,
    name: &str,
    tool: &mut NumberTool,
    channel: usize,
    rule: &[u8],
) -> io::Result<()> {
    println!(stdout; "{name} in {channel}: {}", calls::load(tool, channel, rule))
}

// G0 for each node but the last, then O0 with a value: a rule of so many bytes.
fn load_chain<const SIZE: usize>(
    stdout: Stdout,
    name: &str,
    tool: &mut NumberTool,
    channel: usize,
    value: u8,
) -> io::Result<()>
    requires some { 3 ≤ SIZE }
    requires most { SIZE ≤ 768 }
{
    let mut rule = [0u8; SIZE];
    chain(&mut rule);
    rule[SIZE - 3] = 3;
    rule[SIZE - 1] = value;
    load(stdout, name, tool, channel, &rule)
}

fn load_3(stdout: Stdout, tool: &mut NumberTool, channel: usize) -> io::Result<()> {
    // A O1.1 V G1 X0
    load(
        stdout,
        "3 rows",
        tool,
        channel,
        &[4, 0, 0, 3, 1, 1, 5, 0, 0, 2, 1, 0, 1, 0, 0],
    )
}

// V A A O0.1 G0 X0 G1 V A A O1.2 G1 X0 G0 X1
fn load_2(stdout: Stdout, tool: &mut NumberTool, channel: usize) -> io::Result<()> {
    load(
        stdout,
        "2 rows",
        tool,
        channel,
        &[
            5, 0, 0, 4, 0, 0, 4, 0, 0, 3, 0, 1, 2, 0, 0, 1, 0, 0, 2, 1, 0, 5, 0, 0, 4, 0, 0, 4, 0,
            0, 3, 1, 2, 2, 1, 0, 1, 0, 0, 2, 0, 0, 1, 1, 0,
        ],
    )
}

fn load_1(stdout: Stdout, tool: &mut NumberTool, channel: usize) -> io::Result<()> {
    load(stdout, "1 row", tool, channel, &[0, 0, 0])
}

// Loops of 16 and 17 states joined: A V G0 16 times X0 V G0 17 times X0.
fn load_272(stdout: Stdout, tool: &mut NumberTool, channel: usize) -> io::Result<()> {
    let mut rule = [0u8; 114];
    chain(&mut rule);
    rule[0] = 4;
    rule[3] = 5;
    rule[54] = 1;
    rule[57] = 5;
    rule[111] = 1;
    load(stdout, "272 states", tool, channel, &rule)
}

// What 5 to 10 refuse, on a tool that has no row left: 25 comes after them.
fn load_refused(stdout: Stdout, tool: &mut NumberTool, channel: usize) -> io::Result<()> {
    let many = [0u8; 771];
    load(stdout, "257 nodes", tool, channel, &many)?;
    load(stdout, "G2 T", tool, channel, &[2, 2, 0, 0, 0, 0])?;
    load(stdout, "A T", tool, channel, &[4, 0, 0, 0, 0, 0])?;
    load(stdout, "X0", tool, channel, &[1, 0, 0])?;
    load_deep(stdout, tool, channel)?;
    load(stdout, "V X0", tool, channel, &[5, 0, 0, 1, 0, 0])?;
    load_272(stdout, tool, channel)
}

// Thirteen V, then T.
fn load_deep(stdout: Stdout, tool: &mut NumberTool, channel: usize) -> io::Result<()> {
    let mut rule = [0u8; 42];
    for kind in rule.iter_mut().step_by(3).take(13) {
        *kind = 5;
    }
    load(stdout, "13 V", tool, channel, &rule)
}

fn clear(stdout: Stdout, tool: &mut NumberTool, channel: usize) -> io::Result<()> {
    println!(stdout; "clear in {channel}: {}", calls::clear(tool, channel))
}

// Twelve events on a channel, and their values.
fn play(stdout: Stdout, tool: &mut NumberTool, channel: usize) -> io::Result<()> {
    let word = [0, 1, 1, 0, 1, 0, 0, 1, 1, 1, 0, 0];
    let mut values = [9u8; 12];
    let answer = tool.replay(channel, &word, &[], &mut values);
    *tool = answer.tool;
    match answer.reply {
        Ok(Some(_)) => println!(stdout; "events in {channel}: {}", Items(&values)),
        reply => println!(stdout; "events in {channel}: {}", ReplyText(reply)),
    }
}

fn set_up() -> NumberTool {
    let meet = values::four_values();
    NumberTool::set_up(2, 4, 3, &meet, 7, 10).tool
}

// 256 and 256 rows, and one; the rows that a channel has are free for its own next table.
fn full(stdout: Stdout) -> io::Result<()> {
    let t = &mut set_up();
    load_chain::<765>(stdout, "256 rows", t, 3, 1)?;
    load_chain::<765>(stdout, "256 rows", t, 5, 2)?;
    load_1(stdout, t, 7)?;
    load_1(stdout, t, 0)?;
    load_1(stdout, t, 8)?;
    load_refused(stdout, t, 4)?;
    play(stdout, t, 4)?;
    load_chain::<765>(stdout, "256 rows", t, 5, 1)?;
    load_chain::<765>(stdout, "256 rows", t, 3, 2)?;
    play(stdout, t, 3)?;
    play(stdout, t, 5)?;
    load_3(stdout, t, 3)?;
    load_chain::<747>(stdout, "250 rows", t, 0, 1)?;
    load_3(stdout, t, 7)?;
    load_1(stdout, t, 1)?;
    clear(stdout, t, 5)?;
    load_1(stdout, t, 1)?;
    play(stdout, t, 7)
}

// The channels on both sides of a table that grows and shrinks.
fn sides(stdout: Stdout, tool: &mut NumberTool) -> io::Result<()> {
    for channel in [0, 1, 3, 6, 7] {
        play(stdout, tool, channel)?;
    }
    Ok(())
}

// 256 rows replaced by 3 and back, then cleared, with other channels on both sides.
fn replaced(stdout: Stdout) -> io::Result<()> {
    let t = &mut set_up();
    load_2(stdout, t, 7)?;
    load_chain::<765>(stdout, "256 rows", t, 3, 1)?;
    load_2(stdout, t, 0)?;
    load_3(stdout, t, 1)?;
    load_2(stdout, t, 6)?;
    sides(stdout, t)?;
    load_3(stdout, t, 3)?;
    sides(stdout, t)?;
    load_chain::<765>(stdout, "256 rows", t, 3, 2)?;
    sides(stdout, t)?;
    load_chain::<765>(stdout, "256 rows", t, 1, 1)?;
    load_chain::<747>(stdout, "250 rows", t, 1, 1)?;
    sides(stdout, t)?;
    clear(stdout, t, 3)?;
    sides(stdout, t)?;
    clear(stdout, t, 3)?;
    clear(stdout, t, 0)?;
    sides(stdout, t)?;
    load_1(stdout, t, 2)?;
    load_2(stdout, t, 0)?;
    println!(stdout; "restart all: {}", calls::restart_all(t))?;
    sides(stdout, t)
}

pub fn stores(stdout: Stdout) -> io::Result<()> {
    full(stdout)?;
    replaced(stdout)
}
