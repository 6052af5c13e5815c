// Sequences of events with their pulses, on channel 7 of a tool with a wheel of 7 pulses and 10 millimetres a turn.
use crate::answers::{Items, ReplyText};
use crate::spoilt::sound;
use limits::TOTAL_LIMIT;
use recorder::NumberTool;
use std::io;
use std::io::Stdout;

// The reply, three bytes that were 9 before the call, and the channel.
fn replay(
    stdout: Stdout,
    name: &str,
    tool: NumberTool,
    word: &[u8],
    pulses: &[u32],
) -> io::Result<()> {
    let mut values = [9u8; 3];
    let answer = tool.replay(7, word, pulses, &mut values);
    let reply = ReplyText(answer.reply);
    let values = Items(&values);
    let state = answer.tool.current[7];
    let total = answer.tool.total[7];
    println!(stdout; "{name}: {reply}, values{values}, state={state} total={total}")
}

// Events for which there are no more pulses have none, and pulses behind the last event are not looked at.
fn counts(stdout: Stdout) -> io::Result<()> {
    replay(stdout, "three pulses", sound(), &[1, 1, 0], &[3, 4, 5])?;
    replay(stdout, "two pulses", sound(), &[1, 1, 0], &[3, 4])?;
    replay(stdout, "no pulses", sound(), &[1, 1, 0], &[])?;
    replay(
        stdout,
        "five pulses",
        sound(),
        &[1, 1, 0],
        &[3, 4, 5, 6, 4294967295],
    )?;
    replay(stdout, "no events", sound(), &[], &[3, 4])?;
    replay(stdout, "neither", sound(), &[], &[])
}

// Channel 7 has a total.
fn with_total(total: u64) -> NumberTool {
    let mut t = sound();
    t.total[7] = total;
    t
}

// The total may become the limit; 19 refuses one more, and nothing changes.
fn totals(stdout: Stdout) -> io::Result<()> {
    let near = with_total(TOTAL_LIMIT - 9);
    replay(stdout, "to the limit", near, &[1, 1, 0], &[3, 4, 2])?;
    replay(stdout, "one more", near, &[1, 1, 0], &[3, 4, 3])?;
    replay(stdout, "one more at once", near, &[1, 1, 0], &[10])?;
    replay(stdout, "far more", near, &[1, 1], &[4294967295, 4294967295])?;
    replay(stdout, "behind the last event", near, &[1, 1], &[3, 4, 3])?;
    let full = with_total(TOTAL_LIMIT);
    replay(stdout, "none at the limit", full, &[1, 1], &[0, 0])?;
    replay(stdout, "no events at the limit", full, &[], &[1])?;
    replay(
        stdout,
        "above the limit",
        with_total(TOTAL_LIMIT + 1),
        &[1, 1],
        &[],
    )
}

// 16, then 19, then 13.
fn order(stdout: Stdout) -> io::Result<()> {
    let near = with_total(TOTAL_LIMIT - 9);
    replay(stdout, "16 before 19", near, &[1, 1, 2], &[3, 4, 3])?;
    replay(stdout, "19 before 13", near, &[1, 1, 0, 0], &[3, 4, 3])?;
    replay(stdout, "13", near, &[1, 1, 0, 0], &[3, 4, 2])
}

pub fn replays(stdout: Stdout) -> io::Result<()> {
    counts(stdout)?;
    totals(stdout)?;
    order(stdout)
}
