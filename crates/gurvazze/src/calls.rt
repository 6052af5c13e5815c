// The calls of a tool of either kind: what a line calls for, and what is printed of the reply.
use crate::answers::{Fault, Item, List, ValueText};
use crate::numbers::{has_word, list_from, numbers, only_numbers};
use crate::rules::read_rule;
use crate::setups::Kind;
use command_line::{Command, NUMBER_LIMIT, equal, rest, word};
use limits::CHANNEL_LIMIT;
use recorder::{Reading, Reply, Tool};
use refusal::Refusal;
use std::fmt;
use std::io::Stdout;
use values::SetUp;

// A call: the channel, but for a restart of all; a rule's nodes, an event with its pulses where they are said, or events.
#[derive(Clone, Copy)]
pub enum Call<'a> {
    Load(usize, &'a [u8]),
    Event(usize, usize, Option<u32>),
    Replay(usize, &'a [u8]),
    Restart(usize),
    RestartAll,
    Clear(usize),
    Show(usize),
}

// load C TOKENS
fn load<'a>(set_up: SetUp<'_>, line: &[u8], nodes: &'a mut [u8]) -> Result<Call<'a>, Fault> {
    let [channel] = numbers::<1>(line)?;
    let rule = read_rule(set_up, rest(line, 2), nodes)?;
    Ok(Call::Load(channel, rule))
}

// event C E, event C E PULSES; pulses above 4,294,967,295 are no number.
fn event<'a>(line: &[u8]) -> Result<Call<'a>, Fault> {
    if !has_word(line, 3) {
        let [channel, e] = numbers::<2>(line)?;
        return Ok(Call::Event(channel, e, None));
    }
    let [channel, e, pulses] = only_numbers::<3>(line)?;
    if NUMBER_LIMIT <= pulses {
        return Err(Fault::Number);
    }
    Ok(Call::Event(channel, e, Some(pulses as u32)))
}

// events C E E...
fn events<'a>(line: &[u8], list: &'a mut [u8]) -> Result<Call<'a>, Fault> {
    let [channel] = numbers::<1>(line)?;
    Ok(Call::Replay(channel, list_from(line, 2, list)?))
}

// restart C, restart all
fn restart<'a>(line: &[u8]) -> Result<Call<'a>, Fault> {
    if equal(word(line, 1), b"all") && !has_word(line, 2) {
        return Ok(Call::RestartAll);
    }
    let [channel] = only_numbers::<1>(line)?;
    Ok(Call::Restart(channel))
}

// clear C
fn clear<'a>(line: &[u8]) -> Result<Call<'a>, Fault> {
    let [channel] = only_numbers::<1>(line)?;
    Ok(Call::Clear(channel))
}

// show C
fn show<'a>(line: &[u8]) -> Result<Call<'a>, Fault> {
    let [channel] = only_numbers::<1>(line)?;
    if CHANNEL_LIMIT <= channel {
        return Err(Refusal::ChannelNumber.into());
    }
    Ok(Call::Show(channel))
}

// The call of a line.
pub fn read_call<'a>(
    command: Command,
    set_up: SetUp<'_>,
    line: &[u8],
    list: &'a mut [u8],
) -> Result<Call<'a>, Fault> {
    match command {
        Command::Load => load(set_up, line, list),
        Command::Event => event(line),
        Command::Events => events(line, list),
        Command::Restart => restart(line),
        Command::Clear => clear(line),
        Command::Show => show(line),
        _ => Err(Fault::Command),
    }
}

// What a channel holds; one of no states is empty.
#[derive(Clone, Copy)]
pub struct Channel {
    pub states: u16,
    pub state: u8,
    pub total: u64,
}

impl fmt::Display for Channel {
    fn fmt<W: fmt::Write>(&self, f: &mut fmt::Formatter<W>) -> fmt::Result {
        let Channel {
            states,
            state,
            total,
        } = *self;
        match states {
            0 => write!(f, "empty"),
            _ => write!(f, "states={states} state={state} total={total}"),
        }
    }
}

// A channel, if there is one of this number.
fn channel_of<K: recorder::Kind>(tool: &Tool<K, K::Column>, channel: usize) -> Option<Channel> {
    Some(Channel {
        states: *tool.states.get(channel)?,
        state: *tool.current.get(channel)?,
        total: *tool.total.get(channel)?,
    })
}

// The library's reply; to show a channel is no call of it.
fn reply_to<K: recorder::Kind>(
    tool: &mut Tool<K, K::Column>,
    call: Call,
    values: &mut [K::Value],
) -> Reply {
    let answer = match call {
        Call::Load(channel, rule) => tool.load(channel, rule),
        Call::Event(channel, e, pulses) => tool.event(channel, e, pulses.unwrap_or(0)),
        Call::Replay(channel, events) => tool.replay(channel, events, &[], values),
        Call::Restart(channel) => tool.restart(channel),
        Call::RestartAll => tool.restart_all(),
        Call::Clear(channel) => tool.clear(channel),
        Call::Show(_) => return Ok(None),
    };
    *tool = answer.tool;
    answer.reply
}

// The reply to an event; the distance stands in it where pulses were said.
fn say_reading(
    stdout: Stdout,
    kind: Kind,
    pulses: Option<u32>,
    reading: Reading,
) -> Result<(), Fault> {
    let value = ValueText {
        kind,
        value: reading.value,
    };
    let millimetres = reading.millimetres;
    let remainder = reading.remainder;
    match pulses {
        None => println!(stdout; "value={value}")?,
        Some(_) => println!(stdout; "value={value} mm={millimetres} rest={remainder}")?,
    }
    Ok(())
}

// A call, with its answer printed.
pub fn obey<T: Item, K: recorder::Kind<Value = T>>(
    stdout: Stdout,
    tool: &mut Tool<K, K::Column>,
    call: Call,
    values: &mut [T],
) -> Result<(), Fault> {
    let reply = reply_to(tool, call, values)?;
    match call {
        Call::Load(channel, _) => {
            if let Some(loaded) = channel_of(tool, channel) {
                println!(stdout; "states={}", loaded.states)?;
            }
        }
        Call::Event(_, _, pulses) => {
            if let Some(reading) = reply {
                say_reading(stdout, T::KIND, pulses, reading)?;
            }
        }
        Call::Replay(_, events) => {
            let returned = values.get(..events.len()).unwrap_or(values);
            println!(stdout; "values={}", List(returned))?;
        }
        Call::Restart(_) | Call::RestartAll | Call::Clear(_) => println!(stdout; "ok")?,
        Call::Show(channel) => {
            if let Some(shown) = channel_of(tool, channel) {
                println!(stdout; "{shown}")?;
            }
        }
    }
    Ok(())
}
