// The calls on a tool; each gives its reply, and what it changed beside that.
use crate::answers::{Items, ReplyText};
use crate::same::{others_same, same, zeros_behind};
use recorder::{NumberAnswer, NumberTool, Reply};
use std::fmt;

// What a call came to. A refused call changes nothing, one that names a channel changes no other, and an accepted load or clear leaves zeros
// behind the last table: a flag is set where it was not so.
#[derive(Clone, Copy)]
pub struct Outcome {
    reply: Reply,
    changed: bool,
    others_changed: bool,
    filled_behind: bool,
}

impl fmt::Display for Outcome {
    fn fmt<W: fmt::Write>(&self, f: &mut fmt::Formatter<W>) -> fmt::Result {
        write!(f, "{}", ReplyText(self.reply))?;
        if self.changed {
            write!(f, " CHANGED")?;
        }
        if self.others_changed {
            write!(f, " OTHERS CHANGED")?;
        }
        if self.filled_behind {
            write!(f, " NO ZEROS BEHIND")?;
        }
        Ok(())
    }
}

// The tool is that of an answer from now on.
fn answered(tool: &mut NumberTool, answer: NumberAnswer) -> Outcome {
    let reply = answer.reply;
    let after = answer.tool;
    let changed = reply.is_err() && !same(tool, &after);
    *tool = after;
    Outcome {
        reply,
        changed,
        others_changed: false,
        filled_behind: false,
    }
}

// The same for a call that names a channel.
fn answered_on(tool: &mut NumberTool, channel: usize, answer: NumberAnswer) -> Outcome {
    let others_changed = !others_same(tool, &answer.tool, channel);
    Outcome {
        others_changed,
        ..answered(tool, answer)
    }
}

// The same for a load or a clear.
fn stored(tool: &mut NumberTool, channel: usize, answer: NumberAnswer) -> Outcome {
    let outcome = answered_on(tool, channel, answer);
    Outcome {
        filled_behind: outcome.reply.is_ok() && !zeros_behind(tool),
        ..outcome
    }
}

pub fn load(tool: &mut NumberTool, channel: usize, rule: &[u8]) -> Outcome {
    stored(tool, channel, tool.load(channel, rule))
}

pub fn event(tool: &mut NumberTool, channel: usize, e: usize, pulses: u32) -> Outcome {
    answered_on(tool, channel, tool.event(channel, e, pulses))
}

// A replay of two events; where it is accepted the values are printed too.
#[derive(Drop)]
pub struct Replayed {
    outcome: Outcome,
    values: [u8; 2],
}

impl fmt::Display for Replayed {
    fn fmt<W: fmt::Write>(&self, f: &mut fmt::Formatter<W>) -> fmt::Result {
        write!(f, "{}", self.outcome)?;
        if let Ok(Some(_)) = self.outcome.reply {
            write!(f, " values{}", Items(&self.values))?;
        }
        Ok(())
    }
}

// Event 1 twice, with two pulses each.
pub fn replay(tool: &mut NumberTool, channel: usize) -> Replayed {
    let mut values = [9u8; 2];
    let answer = tool.replay(channel, &[1, 1], &[2, 2], &mut values);
    let outcome = answered_on(tool, channel, answer);
    Replayed { outcome, values }
}

pub fn restart(tool: &mut NumberTool, channel: usize) -> Outcome {
    answered_on(tool, channel, tool.restart(channel))
}

pub fn restart_all(tool: &mut NumberTool) -> Outcome {
    answered(tool, tool.restart_all())
}

pub fn clear(tool: &mut NumberTool, channel: usize) -> Outcome {
    stored(tool, channel, tool.clear(channel))
}
