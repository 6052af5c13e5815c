// A mixed list of calls on all eight channels of a tool, accepted and refused, against stored output; set-ups with wheels; replays with
// pulses; tables that grow and shrink in the one store; then every call on tools that no list of calls makes. Beside each reply stands
// what it should not have changed, where it did.
#![tactic(auto)]

mod answers;
mod calls;
mod replays;
mod same;
mod spoilt;
mod stores;

use answers::ReplyText;
use recorder::NumberTool;
use replays::replays;
use spoilt::spoilt_tools;
use std::io;
use std::io::Stdout;
use stores::stores;

fn load(stdout: Stdout, tool: &mut NumberTool, channel: usize, rule: &[u8]) -> io::Result<()> {
    println!(stdout; "load {channel}: {}", calls::load(tool, channel, rule))
}

fn event(
    stdout: Stdout,
    tool: &mut NumberTool,
    channel: usize,
    e: usize,
    pulses: u32,
) -> io::Result<()> {
    println!(stdout;
        "event {channel}: {}",
        calls::event(tool, channel, e, pulses)
    )
}

fn restart(stdout: Stdout, tool: &mut NumberTool, channel: usize) -> io::Result<()> {
    println!(stdout; "restart {channel}: {}", calls::restart(tool, channel))
}

fn clear(stdout: Stdout, tool: &mut NumberTool, channel: usize) -> io::Result<()> {
    println!(stdout; "clear {channel}: {}", calls::clear(tool, channel))
}

fn restart_all(stdout: Stdout, tool: &mut NumberTool) -> io::Result<()> {
    println!(stdout; "restart all: {}", calls::restart_all(tool))
}

// Two events on a channel, the first with no pulses and the second with the most.
fn twice(
    stdout: Stdout,
    tool: &mut NumberTool,
    channel: usize,
    first: usize,
    second: usize,
) -> io::Result<()> {
    event(stdout, tool, channel, first, 0)?;
    event(stdout, tool, channel, second, u32::MAX)
}

// One event on each channel, with other pulses on each.
fn round(stdout: Stdout, tool: &mut NumberTool, e: usize) -> io::Result<()> {
    for (channel, pulses) in (1..9).enumerate() {
        event(stdout, tool, channel, e, pulses)?;
    }
    Ok(())
}

// Rules of document 01's cases, accepted and refused, and numbers above 7.
fn loads(stdout: Stdout, tool: &mut NumberTool) -> io::Result<()> {
    // V A G1 O1.1 G1 X0
    load(
        stdout,
        tool,
        0,
        &[5, 0, 0, 4, 0, 0, 2, 1, 0, 3, 1, 1, 2, 1, 0, 1, 0, 0],
    )?;
    // A O1.1 V G1 X0
    load(
        stdout,
        tool,
        3,
        &[4, 0, 0, 3, 1, 1, 5, 0, 0, 2, 1, 0, 1, 0, 0],
    )?;
    // A O0.1 O0.2
    load(stdout, tool, 7, &[4, 0, 0, 3, 0, 1, 3, 0, 2])?;
    // T
    load(stdout, tool, 5, &[0, 0, 0])?;
    // V X0
    load(stdout, tool, 0, &[5, 0, 0, 1, 0, 0])?;
    // X0
    load(stdout, tool, 3, &[1, 0, 0])?;
    // A T
    load(stdout, tool, 1, &[4, 0, 0, 0, 0, 0])?;
    // G9
    load(stdout, tool, 1, &[2, 9, 0])?;
    load(stdout, tool, 8, &[0, 0, 0])
}

// A loaded and a cleared channel that are loaded again start with no pulses; a refused loading keeps them.
fn loads_again(stdout: Stdout, tool: &mut NumberTool) -> io::Result<()> {
    // T
    load(stdout, tool, 3, &[0, 0, 0])?;
    event(stdout, tool, 3, 0, 9)?;
    load(stdout, tool, 5, &[0, 0, 0])?;
    event(stdout, tool, 5, 0, 9)?;
    // X0
    load(stdout, tool, 5, &[1, 0, 0])?;
    event(stdout, tool, 5, 0, 9)
}

// A set-up of the four values with a wheel.
fn set_up(stdout: Stdout, top: usize, pulses: usize, millimetres: usize) -> io::Result<()> {
    let meet = values::four_values();
    let made = NumberTool::set_up(2, 4, top, &meet, pulses, millimetres);
    println!(stdout; "wheel {pulses} {millimetres}: {}", ReplyText(made.reply))
}

// 18 comes after 1 to 3, and no number wraps.
fn set_ups(stdout: Stdout) -> io::Result<()> {
    set_up(stdout, 3, 0, 1)?;
    set_up(stdout, 3, 1, 0)?;
    set_up(stdout, 3, 1, 1)?;
    set_up(stdout, 3, 65535, 65535)?;
    set_up(stdout, 3, 65536, 1)?;
    set_up(stdout, 3, 1, 65536)?;
    set_up(stdout, 3, 65537, 65537)?;
    set_up(stdout, 3, 4294967297, 1)?;
    set_up(stdout, 3, 1, usize::MAX)?;
    set_up(stdout, 4, 0, 0)
}

fn main(rt: HostRuntime) -> io::Result<()> {
    let stdout = rt.stdout();
    let meet = values::four_values();
    let made = NumberTool::set_up(2, 4, 3, &meet, 7, 10);
    println!(stdout; "{}", ReplyText(made.reply))?;
    let mut t = made.tool;
    round(stdout, &mut t, 1)?;
    loads(stdout, &mut t)?;
    round(stdout, &mut t, 1)?;
    round(stdout, &mut t, 1)?;
    twice(stdout, &mut t, 7, 0, 2)?;
    twice(stdout, &mut t, 0, 0, 1)?;
    twice(stdout, &mut t, 9, 0, 1)?;
    restart(stdout, &mut t, 0)?;
    restart(stdout, &mut t, 1)?;
    restart(stdout, &mut t, 8)?;
    round(stdout, &mut t, 1)?;
    restart_all(stdout, &mut t)?;
    round(stdout, &mut t, 0)?;
    clear(stdout, &mut t, 3)?;
    clear(stdout, &mut t, 2)?;
    clear(stdout, &mut t, 8)?;
    round(stdout, &mut t, 1)?;
    loads_again(stdout, &mut t)?;
    let spoilt = NumberTool::set_up(2, 4, 4, &meet, 7, 10);
    println!(stdout; "{}", ReplyText(spoilt.reply))?;
    let mut blank = spoilt.tool;
    event(stdout, &mut blank, 0, 0, 0)?;
    restart_all(stdout, &mut blank)?;
    restart_all(stdout, &mut t)?;
    set_ups(stdout)?;
    replays(stdout)?;
    stores(stdout)?;
    spoilt_tools(stdout)
}
