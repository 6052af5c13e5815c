// Document 01, "Tool": one set-up and eight channels, and the calls on them, for numbered values and for registers (document 02, F-7);
// document 02, F-6: the distance with every event, F-12: one store of rows. Refusals 14 to 19, and 25.
// Each call first decides, then writes; a refused call returns the tool as it came. The tool goes in and out by value, and is copied once.
#![tactic(auto)]

mod faults;
mod kinds;
mod readings;
mod row_store;

ghost use Rattle.std.specs.Prelude.{◌≡◌, ◌+◌, ◌*◌, ◌%◌, ◌≤◌, ◌<◌, length, get_or, replicate, OnOk};
ghost use Rattle.std.proofs.Math.Seq.{paste};
ghost use Rattle.limits.specs.Limits.{channel_limit, meet_limit, store_limit};
ghost use Rattle.theory.specs.MealyMachine.{after};
ghost use Rattle.theory.specs.MachineRuns.{word_values};
ghost use Rattle.values.specs.Setup.{setup, register_setup};
ghost use Rattle.machines.specs.TableBytes.{entry_width};
ghost use Rattle.channel_log.specs.Calls as calls;
ghost use Rattle.channel_log.specs.Distance.{wheel_of_turn};
ghost use Rattle.recorder.specs.Store.{tool_setup, store_of, replied, answer, replay_answer, number_meaning, register_meaning};
ghost use Rattle.recorder.specs.Store.{whole_setup, wheel_of, occurrences};
ghost use Rattle.recorder.specs.Called.{filled, with_entries, empty_store, called, set_up_called};
ghost use Rattle.recorder.specs.Replay.{replayed, word_test};
ghost use Rattle.recorder.specs.Decisions.{Storable, Bounds, entry_place, own_table, run_of, stepped, settle};

use crate::faults::check_tool;
use crate::readings::{total_with, total_with_all};
use crate::row_store::{copy_column, make_room, room_for, rows_left, rows_start};
pub use kinds::{Kind, Numbers, Registers};
use limits::{CHANNEL_LIMIT, MEET_LIMIT, STORE_LIMIT};
use machines::entry_width;
use refusal::Refusal;
use values::{SetUp, Values};

// What an accepted event returns: the value, which is a number, or a register's masks as low + 65536 * high, and the distance of the channel's
// total, in whole millimetres and a remainder in parts of a millimetre, as many to one as the wheel's turn has pulses.
#[derive(Clone, Copy)]
pub struct Reading {
    pub value: u32,
    pub millimetres: u64,
    pub remainder: u32,
}

// What a call replies: an event a reading, any other accepted call none.
pub type Reply = Result<Option<Reading>, Refusal>;

// Pulses and millimetres of one turn.
#[derive(Clone, Copy)]
pub struct Wheel {
    pub pulses: u32,
    pub millimetres: u32,
}

impl Wheel {
    // The turn of a wheel that 18 lets through.
    fn of_turn(pulses: usize, millimetres: usize) -> Wheel
        ensures { result ≡ record { pulses = pulses % 65536; millimetres = millimetres % 65536 } }
    {
        Wheel {
            pulses: (pulses % 65536) as u32,
            millimetres: (millimetres % 65536) as u32,
        }
    }
}

#[derive(Clone, Copy)]
pub struct ToolSetup<K> {
    pub events: u8,
    pub kind: K,
    pub wheel: Wheel,
}

// A channel of 0 states is empty. The total is of its pulses. The channels' tables lie packed in channel order in `value` and `next`, by state,
// then event; behind the last one both are 0 after a set-up, a load or a clear.
#[derive(Clone, Copy)]
pub struct Tool<K, C> {
    pub setup: ToolSetup<K>,
    pub states: [u16; CHANNEL_LIMIT],
    pub current: [u8; CHANNEL_LIMIT],
    pub total: [u64; CHANNEL_LIMIT],
    pub value: C,
    pub next: [u8; STORE_LIMIT],
}

#[derive(Clone, Copy)]
pub struct Answer<K, C> {
    pub reply: Reply,
    pub tool: Tool<K, C>,
}

pub type NumberTool = Tool<Numbers, [u8; STORE_LIMIT]>;

pub type RegisterTool = Tool<Registers, [u32; STORE_LIMIT]>;

pub type NumberAnswer = Answer<Numbers, [u8; STORE_LIMIT]>;

pub type RegisterAnswer = Answer<Registers, [u32; STORE_LIMIT]>;

// What an accepted event or restart comes to: its reading, if it has one, and the channel's state and total after it.
#[derive(Clone, Copy)]
struct Step {
    reading: Option<Reading>,
    state: u8,
    total: u64,
}

// What is written for it, accepted or not. So there is one path to the answer, and the tool is copied once.
#[derive(Clone, Copy)]
struct Settled {
    reply: Reply,
    state: u8,
    total: u64,
}

#[inline(always)]
fn settle(step: Result<Step, Refusal>, state: u8, total: u64) -> Settled
    ensures { result ≡ settle step state total }
{
    match step {
        Ok(step) => Settled {
            reply: Ok(step.reading),
            state: step.state,
            total: step.total,
        },
        Err(refusal) => Settled {
            reply: Err(refusal),
            state,
            total,
        },
    }
}

// The first entries of a meet table, as many as there is room for, and 0 after them.
fn padded_meet(meet: &[u8]) -> [u8; MEET_LIMIT]
    ensures { result ≡ filled meet_limit meet.now }
{
    let mut array = [0u8; MEET_LIMIT];
    let count = MEET_LIMIT.min(meet.len());
    array[..count].copy_from_slice(&meet[..count]);
    array
}

// A tool with all channels empty.
fn empty_tool<K: Kind>(setup: ToolSetup<K>) -> Tool<K, K::Column>
    ensures { store_of K.meaning result ≡ empty_store (whole_setup K.meaning setup.events setup.kind) (wheel_of setup.wheel) }
{
    Tool {
        setup,
        states: [0; CHANNEL_LIMIT],
        current: [0; CHANNEL_LIMIT],
        total: [0; CHANNEL_LIMIT],
        value: K::blank(),
        next: [0; STORE_LIMIT],
    }
}

impl Tool<Numbers, [u8; STORE_LIMIT]> {
    // Set up: a tool with all channels empty. A refused set-up hands back a tool with every cell 0.
    pub fn set_up(
        events: usize,
        values: usize,
        top: usize,
        meet: &[u8],
        pulses: usize,
        millimetres: usize,
    ) -> NumberAnswer
        ensures { answer number_meaning result ≡ set_up_called (tool_setup (setup events values top meet.now) (wheel_of_turn pulses millimetres)) }
    {
        let set_up = SetUp {
            events,
            values: Values::Numbered { values, top, meet },
        };
        if let Err(refusal) = check_tool(set_up, pulses, millimetres) {
            let none = ToolSetup {
                events: 0,
                kind: Numbers {
                    values: 0,
                    top: 0,
                    meet: [0; MEET_LIMIT],
                },
                wheel: Wheel {
                    pulses: 0,
                    millimetres: 0,
                },
            };
            return Answer {
                reply: Err(refusal),
                tool: empty_tool(none),
            };
        }
        let made = ToolSetup {
            events: (events % 256) as u8,
            kind: Numbers {
                values: (values % 256) as u8,
                top: (top % 256) as u8,
                meet: padded_meet(meet),
            },
            wheel: Wheel::of_turn(pulses, millimetres),
        };
        Answer {
            reply: Ok(None),
            tool: empty_tool(made),
        }
    }
}

impl Tool<Registers, [u32; STORE_LIMIT]> {
    // Set up: a tool with all channels empty. A refused set-up hands back a tool with every cell 0.
    pub fn set_up(events: usize, lines: usize, pulses: usize, millimetres: usize) -> RegisterAnswer
        ensures { answer register_meaning result ≡ set_up_called (tool_setup (register_setup events lines) (wheel_of_turn pulses millimetres)) }
    {
        let set_up = SetUp {
            events,
            values: Values::Register { lines },
        };
        if let Err(refusal) = check_tool(set_up, pulses, millimetres) {
            let none = ToolSetup {
                events: 0,
                kind: Registers { lines: 0 },
                wheel: Wheel {
                    pulses: 0,
                    millimetres: 0,
                },
            };
            return Answer {
                reply: Err(refusal),
                tool: empty_tool(none),
            };
        }
        let made = ToolSetup {
            events: (events % 256) as u8,
            kind: Registers {
                lines: (lines % 256) as u8,
            },
            wheel: Wheel::of_turn(pulses, millimetres),
        };
        Answer {
            reply: Ok(None),
            tool: empty_tool(made),
        }
    }
}

// Where the entry of a state and an event lies, in a table from a place on.
fn entry_place(from: usize, events: u8, state: u8, event: usize) -> usize
    requires { Bounds from events state event }
    ensures { (result ≡ entry_place from events state event) × (result < store_limit) }
{
    from + (usize::from(state) * usize::from(events) + event)
}

// Whether all events of a sequence are below the event count.
fn word_in_order(word: &[u8], events: u8) -> bool
    ensures { result ≡ word_test events word.now }
{
    for event in word {
        if events <= *event {
            return false;
        }
    }
    true
}

// What each call does: its reply, and the tool behind the reference afterwards.
impl<K: Kind> Tool<K, K::Column> {
    // What an event comes to.
    #[inline(always)]
    fn step(&self, channel: usize, event: usize, pulses: u32) -> Result<Step, Refusal>
        ensures taken { stepped (store_of K.meaning self.now) channel result
            ≡ called (calls.event channel (record { event = event; pulses = pulses })) (store_of K.meaning self.now) }
        ensures inside { OnOk result (channel < channel_limit) }
    {
        self.check_loaded(channel)?;
        if usize::from(self.setup.events) <= event {
            return Err(Refusal::EventNumber);
        }
        let total = total_with(self.total[channel], u64::from(pulses))?;
        let start = rows_start(&self.states, channel, self.setup.events);
        let place = entry_place(start, self.setup.events, self.current[channel], event);
        let value = K::wide(K::value_at(&self.value, place));
        Ok(Step {
            reading: Some(self.setup.wheel.measured(value, total)),
            state: self.next[place],
            total,
        })
    }

    // What a restart comes to.
    #[inline(always)]
    fn first_step(&self, channel: usize) -> Result<Step, Refusal>
        ensures taken { stepped (store_of K.meaning self.now) channel result ≡ called (calls.restart channel) (store_of K.meaning self.now) }
        ensures inside { OnOk result (channel < channel_limit) }
    {
        self.check_loaded(channel)?;
        Ok(Step {
            reading: None,
            state: 0,
            total: 0,
        })
    }

    // The answer to an event or a restart.
    #[inline(always)]
    fn after(mut self, channel: usize, step: Result<Step, Refusal>) -> Answer<K, K::Column>
        requires { OnOk step (channel < channel_limit) }
        ensures { answer K.meaning result ≡ stepped (store_of K.meaning self) channel step }
    {
        let c = channel % CHANNEL_LIMIT;
        let settled = settle(step, self.current[c], self.total[c]);
        self.current[c] = settled.state;
        self.total[c] = settled.total;
        Answer {
            reply: settled.reply,
            tool: self,
        }
    }

    #[inline(always)]
    fn take_restart_all(&mut self) -> Reply
        ensures { replied K.meaning result self.new ≡ called calls.restart_all (store_of K.meaning self.old) }
    {
        self.check_all()?;
        self.current = [0; CHANNEL_LIMIT];
        self.total = [0; CHANNEL_LIMIT];
        Ok(None)
    }

    // Another table in a channel, at state 0 and with no pulses: so many states, whose entries' bytes these are.
    fn store_table(&mut self, channel: usize, states: u16, table: &[u8])
        requires room { Storable self.old.setup.events self.old.states channel states }
        requires entries { states * self.old.setup.events * entry_width (K.meaning.kind self.old.setup.kind) ≤ length table.now }
        ensures { store_of K.meaning self.new ≡ with_entries (store_of K.meaning self.old) channel states table.now }
    {
        let room = room_for(&self.states, channel, self.setup.events, states);
        let width = entry_width(self.setup.kind.kind());
        let kind = self.setup.kind;
        kind.splice(&mut self.value, room, table);
        make_room(&mut self.next, room, 0);
        copy_column(&mut self.next, room.at, table, width, width - 1, room.new);
        self.states[channel] = states;
        self.current[channel] = 0;
        self.total[channel] = 0;
    }

    #[inline(always)]
    fn take_clear(&mut self, channel: usize) -> Reply
        ensures { replied K.meaning result self.new ≡ called (calls.clear channel) (store_of K.meaning self.old) }
    {
        self.check(channel)?;
        self.store_table(channel, 0, &[]);
        Ok(None)
    }

    #[inline(always)]
    fn take_load(&mut self, channel: usize, rule: &[u8]) -> Reply
        ensures { replied K.meaning result self.new ≡ called (calls.load channel rule.now) (store_of K.meaning self.old) }
    {
        self.check(channel)?;
        let mut table = self.setup.kind.blank_table();
        let compiled = self.setup.kind.compile(self.setup.events, rule, &mut table);
        let Ok(states) = compiled else {
            return compiled.map(|_| None);
        };
        if !rows_left(&self.states, channel, states) {
            return Err(Refusal::RowTotal);
        }
        self.store_table(channel, (states % 65536) as u16, K::bytes(&table));
        Ok(None)
    }

    // Runs a sequence of events from a channel's current state: the state after it; the values go to the buffer.
    fn run(&self, channel: usize, word: &[u8], values: &mut [K::Value]) -> u8
        requires channel { channel < channel_limit }
        requires run { run_of (store_of K.meaning self.now) channel word.now (K.meaning.numbers values.old) }
        ensures state { result ≡ after (own_table (store_of K.meaning self.now) channel) (get_or self.now.current channel 0) word.now }
        ensures values { K.meaning.numbers values.new ≡ paste (K.meaning.numbers values.old) 0
            (word_values (own_table (store_of K.meaning self.now) channel) (get_or self.now.current channel 0) word.now) (length word.now) }
        ensures length { length values.new ≡ length values.old }
    {
        let start = rows_start(&self.states, channel, self.setup.events);
        let mut state = self.current[channel];
        for i in 0..word.len() {
            let place = entry_place(start, self.setup.events, state, usize::from(word[i]));
            values[i] = K::value_at(&self.value, place);
            state = self.next[place];
        }
        state
    }

    #[inline(always)]
    fn take_events<'a>(
        &mut self,
        channel: usize,
        word: &'a [u8],
        pulses: &'a [u32],
        values: &mut [K::Value],
    ) -> Reply
        ensures { (replied K.meaning result self.new, K.meaning.numbers values.new)
            ≡ replayed (store_of K.meaning self.old) channel (occurrences word.now pulses.now) (K.meaning.numbers values.old) }
    {
        self.check_loaded(channel)?;
        if !word_in_order(word, self.setup.events) {
            return Err(Refusal::EventNumber);
        }
        let total = total_with_all(self.total[channel], pulses, word.len())?;
        if values.len() < word.len() {
            return Err(Refusal::BufferLength);
        }
        let last = self.run(channel, word, values);
        self.current[channel] = last;
        self.total[channel] = total;
        if word.len() == 0 {
            return Ok(None);
        }
        let value = K::wide(values[word.len() - 1]);
        Ok(Some(self.setup.wheel.measured(value, total)))
    }
}

// The calls.
impl<K: Kind> Tool<K, K::Column> {
    // An event: returns the value and the distance, moves to the next state and adds the pulses.
    pub fn event(self, channel: usize, event: usize, pulses: u32) -> Answer<K, K::Column>
        ensures { answer K.meaning result
            ≡ called (calls.event channel (record { event = event; pulses = pulses })) (store_of K.meaning self) }
    {
        let step = self.step(channel, event, pulses);
        self.after(channel, step)
    }

    // Restart one: the channel is at state 0 again, with no pulses.
    pub fn restart(self, channel: usize) -> Answer<K, K::Column>
        ensures { answer K.meaning result ≡ called (calls.restart channel) (store_of K.meaning self) }
    {
        let step = self.first_step(channel);
        self.after(channel, step)
    }

    // Restart all: every loaded channel is at state 0 again, with no pulses; empty ones remain empty.
    pub fn restart_all(mut self) -> Answer<K, K::Column>
        ensures { answer K.meaning result ≡ called calls.restart_all (store_of K.meaning self) }
    {
        let reply = self.take_restart_all();
        Answer { reply, tool: self }
    }

    // Clear: the channel is empty, and its rows are free.
    pub fn clear(mut self, channel: usize) -> Answer<K, K::Column>
        ensures { answer K.meaning result ≡ called (calls.clear channel) (store_of K.meaning self) }
    {
        let reply = self.take_clear(channel);
        Answer { reply, tool: self }
    }

    // Load a rule: its table replaces what the channel had, at state 0 and with no pulses. A refused loading hands the old tool back.
    pub fn load(mut self, channel: usize, rule: &[u8]) -> Answer<K, K::Column>
        ensures { answer K.meaning result ≡ called (calls.load channel rule.now) (store_of K.meaning self) }
    {
        let reply = self.take_load(channel, rule);
        Answer { reply, tool: self }
    }

    // Replay: a sequence of events with their pulses on one channel, the values into a lent buffer; 17 is tested once. Events for which there
    // are no more pulses have 0; pulses behind the last event are not looked at. The event call repeated, with the last one's reply, or a
    // refusal that changes nothing.
    pub fn replay<'a>(
        mut self,
        channel: usize,
        word: &'a [u8],
        pulses: &'a [u32],
        values: &mut [K::Value],
    ) -> Answer<K, K::Column>
        ensures { replay_answer K.meaning result values.new
            ≡ replayed (store_of K.meaning self) channel (occurrences word.now pulses.now) (K.meaning.numbers values.old) }
    {
        let reply = self.take_events(channel, word, pulses, values);
        Answer { reply, tool: self }
    }
}
