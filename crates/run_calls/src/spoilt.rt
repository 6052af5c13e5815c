// Tools that no list of calls makes: what 17 and 25 are said of, and what they pass over.
use crate::calls;
use limits::{CHANNEL_LIMIT, TOTAL_LIMIT};
use recorder::{NumberTool, Wheel};
use std::io;
use std::io::Stdout;

// Each call that names a channel; the rule loaded is T.
fn calls_on(stdout: Stdout, tool: &mut NumberTool, channel: usize) -> io::Result<()> {
    let event = calls::event(tool, channel, 1, 3);
    let other = calls::event(tool, channel, 9, 4);
    let replay = calls::replay(tool, channel);
    let restart = calls::restart(tool, channel);
    let load = calls::load(tool, channel, &[0, 0, 0]);
    let clear = calls::clear(tool, channel);
    print!(stdout; "channel {channel}: event {event}, event 9 {other}, replay {replay}")?;
    println!(stdout; ", restart {restart}, load {load}, clear {clear}")
}

// The calls on a loaded channel, an empty one, another loaded one and a number above 7; then restart all.
fn every_call(stdout: Stdout, name: &str, mut tool: NumberTool) -> io::Result<()> {
    println!(stdout; "{name}")?;
    for channel in [2, 3, 7, 10] {
        calls_on(stdout, &mut tool, channel)?;
    }
    println!(stdout; "restart all: {}", calls::restart_all(&mut tool))
}

// Channels 2 and 7 loaded, with three states each: entries 0 to 5, and 6 to 11.
pub fn sound() -> NumberTool {
    let meet = values::four_values();
    let tool = NumberTool::set_up(2, 4, 3, &meet, 7, 10).tool;
    // A O1.1 V G1 X0
    let tool = tool
        .load(2, &[4, 0, 0, 3, 1, 1, 5, 0, 0, 2, 1, 0, 1, 0, 0])
        .tool;
    // V A G1 O1.1 G1 X0
    let rule = [5, 0, 0, 4, 0, 0, 2, 1, 0, 3, 1, 1, 2, 1, 0, 1, 0, 0];
    tool.load(7, &rule).tool
}

// One channel is spoilt.
fn spoilt_channels(stdout: Stdout) -> io::Result<()> {
    let mut t = sound();
    t.states[2] = 257;
    every_call(stdout, "states=257 in channel 2", t)?;
    let mut t = sound();
    t.current[2] = 3;
    every_call(stdout, "current=3 in channel 2", t)?;
    let mut t = sound();
    t.next[0] = 3;
    every_call(stdout, "next=3 in channel 2", t)?;
    let mut t = sound();
    t.value[11] = 4;
    every_call(stdout, "value=4 in channel 7", t)?;
    let mut t = sound();
    t.states[2] = 255;
    t.next[0] = 255;
    every_call(stdout, "next=255 in channel 2, of 255 states", t)?;
    let mut t = sound();
    t.states[2] = 256;
    t.value[511] = 4;
    every_call(
        stdout,
        "value=4 in the last row of channel 2, of 256 states",
        t,
    )
}

// The limits themselves, and what is no part of a table.
fn sound_channels(stdout: Stdout) -> io::Result<()> {
    let mut t = sound();
    t.states[2] = 256;
    every_call(stdout, "states=256 in channel 2", t)?;
    let mut t = sound();
    t.states[2] = 256;
    t.current[2] = 255;
    t.next[511] = 255;
    every_call(
        stdout,
        "current=255 and next=255 in channel 2, of 256 states",
        t,
    )?;
    let mut t = sound();
    t.current[2] = 2;
    every_call(stdout, "current=2 in channel 2", t)?;
    let mut t = sound();
    t.value[12] = 255;
    t.next[12] = 255;
    t.value[8191] = 255;
    t.next[8191] = 255;
    every_call(stdout, "255 behind the table of channel 7", t)?;
    let mut t = sound();
    t.current[3] = 255;
    every_call(stdout, "current=255 in channel 3, which is empty", t)
}

// 512 rows, and 513: 25, after 17 and before 14 and 15.
fn row_totals(stdout: Stdout) -> io::Result<()> {
    let mut t = sound();
    t.states[2] = 256;
    t.states[4] = 253;
    every_call(stdout, "256, 253 and 3 rows", t)?;
    let mut t = sound();
    t.states[2] = 256;
    t.states[4] = 254;
    every_call(stdout, "256, 254 and 3 rows", t)?;
    let mut t = sound();
    t.states[0] = 257;
    t.states[4] = 249;
    every_call(stdout, "257, 3, 249 and 3 rows", t)?;
    let mut t = sound();
    t.states[0] = 257;
    t.states[4] = 250;
    every_call(stdout, "257, 3, 250 and 3 rows", t)?;
    let mut t = sound();
    t.states = [64u16; CHANNEL_LIMIT];
    every_call(stdout, "64 rows in each channel", t)?;
    t.states[5] = 65;
    every_call(stdout, "one row more", t)
}

// Counts whose rows would lie behind the arrays: what lies there is 0, in order, and 25 answers.
fn rows_behind(stdout: Stdout) -> io::Result<()> {
    let mut t = sound();
    t.states[2] = 65535;
    every_call(stdout, "states=65535 in channel 2", t)?;
    let mut t = sound();
    t.states[0] = 65535;
    every_call(stdout, "states=65535 in channel 0", t)?;
    let mut t = sound();
    t.states = [65535u16; CHANNEL_LIMIT];
    every_call(stdout, "states=65535 in each channel", t)?;
    let mut t = sound();
    t.states[0] = 4094;
    every_call(stdout, "channel 2 across the end of the arrays", t)?;
    t.value[8191] = 4;
    every_call(stdout, "channel 2 across the end of the arrays, value=4", t)?;
    let mut t = sound();
    t.states[0] = 4093;
    t.next[8191] = 3;
    every_call(stdout, "channel 2 at the end of the arrays, next=3", t)
}

// A channel's total is above its limit.
fn spoilt_totals(stdout: Stdout) -> io::Result<()> {
    let mut t = sound();
    t.total[2] = TOTAL_LIMIT + 1;
    every_call(stdout, "total=1099511627777 in channel 2", t)?;
    let mut t = sound();
    t.total[7] = u64::MAX;
    every_call(stdout, "total=18446744073709551615 in channel 7", t)
}

// The limit itself, and totals of empty channels.
fn sound_totals(stdout: Stdout) -> io::Result<()> {
    let mut t = sound();
    t.total[2] = TOTAL_LIMIT;
    every_call(stdout, "total=1099511627776 in channel 2", t)?;
    let mut t = sound();
    t.total[2] = TOTAL_LIMIT - 3;
    every_call(stdout, "total=1099511627773 in channel 2", t)?;
    let mut t = sound();
    t.total[3] = TOTAL_LIMIT + 1;
    t.total[4] = TOTAL_LIMIT + 1;
    every_call(
        stdout,
        "total=1099511627777 in channels 3 and 4, which are empty",
        t,
    )
}

// The set-up is spoilt.
fn spoilt_setups(stdout: Stdout) -> io::Result<()> {
    let mut t = sound();
    t.setup.events = 0;
    every_call(stdout, "events=0", t)?;
    let mut t = sound();
    t.setup.events = 17;
    every_call(stdout, "events=17", t)?;
    let mut t = sound();
    t.setup.kind.values = 0;
    every_call(stdout, "values=0", t)?;
    let mut t = sound();
    t.setup.kind.values = 17;
    every_call(stdout, "values=17", t)?;
    let mut t = sound();
    t.setup.kind.top = 4;
    every_call(stdout, "top=4", t)
}

fn with_wheel(pulses: u32, millimetres: u32) -> NumberTool {
    let mut t = sound();
    t.setup.wheel = Wheel {
        pulses,
        millimetres,
    };
    t
}

// Pulses or millimetres of a turn are out of range; the last wheel is in range.
fn spoilt_wheels(stdout: Stdout) -> io::Result<()> {
    every_call(stdout, "wheel 0 10", with_wheel(0, 10))?;
    every_call(stdout, "wheel 7 0", with_wheel(7, 0))?;
    every_call(stdout, "wheel 65536 10", with_wheel(65536, 10))?;
    every_call(stdout, "wheel 7 65536", with_wheel(7, 65536))?;
    every_call(stdout, "wheel 65535 65535", with_wheel(65535, 65535))
}

// An entry of the meet is no value, or a law is broken.
fn spoilt_meets(stdout: Stdout) -> io::Result<()> {
    let mut t = sound();
    t.setup.kind.meet[5] = 4;
    every_call(stdout, "1 and 1 give 4", t)?;
    let mut t = sound();
    t.setup.kind.meet[5] = 0;
    every_call(stdout, "not idempotent: 1 and 1 give 0", t)?;
    let mut t = sound();
    t.setup.kind.meet[1] = 1;
    every_call(stdout, "not commutative: 0 and 1 give 1", t)?;
    let mut t = sound();
    t.setup.kind.meet[1] = 2;
    t.setup.kind.meet[4] = 2;
    every_call(stdout, "not associative: 0 and 1 give 2", t)?;
    let mut t = sound();
    t.setup.kind.top = 0;
    every_call(stdout, "top=0, which is not neutral", t)
}

pub fn spoilt_tools(stdout: Stdout) -> io::Result<()> {
    spoilt_channels(stdout)?;
    sound_channels(stdout)?;
    row_totals(stdout)?;
    rows_behind(stdout)?;
    spoilt_totals(stdout)?;
    sound_totals(stdout)?;
    spoilt_setups(stdout)?;
    spoilt_wheels(stdout)?;
    spoilt_meets(stdout)
}
