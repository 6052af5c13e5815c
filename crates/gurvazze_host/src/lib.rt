// What the static library `gurvazze_host_c` exports to programs in C and Rust. Each public function is an entry of the crates below with its
// answer in one number of 64 bits: the refusal's number in the low byte, 0 where there is none, and above it the refusal's place or what the
// call yields.
#![tactic(auto)]

ghost use Rattle.std.specs.Prelude.{◌≡◌, ◌≤◌, ◌<◌, ◌^◌, ltb, length, get_or};
ghost use Rattle.theory.specs.ValueSetTests.{every};
ghost use Rattle.refusal.specs.Refusal.{put};
ghost use Rattle.values.specs.Setup.{setup, register_setup, value_width};
ghost use Rattle.values.specs.HandedIn.{setup_of};
ghost use Rattle.synthesis.specs.Compilation.{compile_answer, compile_contents};
ghost use Rattle.characteristic.specs.RuleWriting.{write_answer, write_contents};
ghost use Rattle.conformance.specs.Trial.{input};
ghost use Rattle.conformance.specs.TrialAnswer.{trial_answer, trial_buffer};
ghost use Rattle.channel_file.specs.Reading.{read_file};
ghost use Rattle.channel_file.specs.RegisterReading as register_reading;
ghost use Rattle.channel_io.specs.FileConditions.{number_file};
ghost use Rattle.channel_io.specs.RegisterFiles.{register_file};
ghost use Rattle.gurvazze_host.specs.Codes.{refusal_code, answer_code, verdict_yield, verdict_code, replay_code, made_numbers, told_values, told_top};
ghost use Rattle.gurvazze_host.specs.Codes.{SmallPlace, SmallAnswer, SmallVerdict, SmallReplay, SmallNumbers};
ghost use Rattle.gurvazze_host.specs.FileCalls.{table_answer, table_after, replay_answer, replay_after, file_trial_answer, file_trial_buffer};
ghost use Rattle.gurvazze_host.specs.FileCalls.{file_form, reader, Compiles, HasRoom, kind_of_width, played, front, held_setup, held_trial};
ghost use Rattle.gurvazze_host.specs.FileCalls.{Holds, Playable, Runnable, Replays};
ghost use Rattle.limits.specs.Limits.{node_limit, state_limit, device_limit, table_limit};

use channel_io::{compile_file, registers};
use characteristic::write_rule;
use conformance::{Grade, Verdict, trial};
use limits::{DEVICE_LIMIT, EVENT_LIMIT, MEET_LIMIT, REGISTER_TABLE_BYTES, TABLE_BYTES};
use machines::{Device, Table, entry_width};
use refusal::Refusal;
use synthesis::compile;
use values::{SetUp, ValueKind, Values, value_width};

// The bytes of a small table, of numbers and of registers: as many states as a device may have. Replay and trial make a file's table in so
// many first, and in those of the largest table only where it has no room in them, so that a small rule does not pay for clearing a large
// array.
const SMALL_BYTES: usize = DEVICE_LIMIT * EVENT_LIMIT * 2;

const SMALL_REGISTER_BYTES: usize = DEVICE_LIMIT * EVENT_LIMIT * 5;

// The forms of channel files: with numbers for values, or with a register's masks.
#[derive(Clone, Copy)]
enum Form {
    Numbers,
    Register,
}

// What a channel file says, where its rule's table was made: the numbers of its set-up, how many meet entries stand at the front of a
// buffer, and the states of the table at the front of another.
#[derive(Clone, Copy)]
struct Made {
    events: usize,
    kind: ValueKind,
    top: usize,
    entries: usize,
    states: usize,
}

// A refusal's number, and its place above it.
#[tactic(auto, unfolding(crate::specs::Codes::refusal_code))]
fn refusal_code(refusal: Refusal) -> u64
    requires { SmallPlace refusal }
    ensures { result ≡ refusal_code refusal }
{
    let place = refusal.place().unwrap_or(0);
    place as u64 * 256 + u64::from(refusal.number())
}

// The answer of a call in one number: what it yields above a low byte of 0, or the refusal.
#[tactic(auto, unfolding(crate::specs::Codes::answer_code, crate::specs::Codes::yield_code))]
fn answer_code(answer: Result<usize, Refusal>) -> u64
    requires { SmallAnswer answer }
    ensures { result ≡ answer_code answer }
{
    match answer {
        Ok(yielded) => yielded as u64 * 256,
        Err(refusal) => refusal_code(refusal),
    }
}

// What a trial yields: 0 for a pass as same, 65,536 for one as stricter, or the length of the word on which the device fails.
#[tactic(auto, unfolding(crate::specs::Codes::verdict_yield, crate::specs::Codes::grade_yield))]
fn verdict_yield(verdict: Verdict) -> usize
    ensures { result ≡ verdict_yield verdict }
{
    match verdict {
        Verdict::Pass(Grade::Same) => 0,
        Verdict::Pass(Grade::Stricter) => 65536,
        Verdict::Fail(length) => length,
    }
}

#[tactic(auto, unfolding(crate::specs::Codes::answer_code, crate::specs::Codes::verdict_code))]
fn verdict_code(answer: Result<Verdict, Refusal>) -> u64
    requires { SmallVerdict answer }
    ensures { result ≡ verdict_code answer }
{
    answer_code(answer.map(verdict_yield))
}

// A replay yields nothing.
#[tactic(auto, unfolding(crate::specs::Codes::answer_code, crate::specs::Codes::replay_code))]
fn replay_code(answer: Result<(), Refusal>) -> u64
    requires { SmallReplay answer }
    ensures { result ≡ replay_code answer }
{
    answer_code(answer.map(|()| 0))
}

// A set-up of numbers.
fn numbers<'a>(events: usize, values: usize, top: usize, meet: &'a [u8]) -> SetUp<'a>
    ensures { setup_of result ≡ setup events values top meet.now }
{
    let values = Values::Numbered { values, top, meet };
    SetUp { events, values }
}

// A set-up of registers.
fn register(events: usize, lines: usize) -> SetUp<'static>
    ensures { setup_of result ≡ register_setup events lines }
{
    let values = Values::Register { lines };
    SetUp { events, values }
}

fn device_of<'a>(states: usize, start: usize, entries: &'a [u8]) -> Device<'a>
    ensures states { result.table.states ≡ states }
    ensures entries { result.table.entries.now ≡ entries.now }
    ensures start { result.start ≡ start }
{
    let table = Table { states, entries };
    Device { table, start }
}

// Whether all events of a sequence are below the event count. Bytes are compared, and no event ends the loop, so that many are
// looked at in one step: `all` would stop at the first.
fn word_in_order(word: &[u8], events: u8) -> bool
    ensures { result ≡ every (length word.now) (λ i. ltb (get_or word.now i 0) events) }
{
    let mut in_order = true;
    for event in word {
        in_order &= *event < events;
    }
    in_order
}

// Plays a sequence of events from state 0 of a table whose values have WIDTH bytes each: a value for each goes to the buffer.
fn run<const WIDTH: usize>(table: Table<'_>, events: usize, word: &[u8], to: &mut [u8])
    requires width { value_width (kind_of_width WIDTH) ≡ WIDTH }
    requires runs { Runnable (kind_of_width WIDTH) events table.states table.entries.now word.now to.old }
    ensures { to.new ≡ put (played (kind_of_width WIDTH) events table.entry.entries.now word.now) to.old }
{
    let entries = table.entries;
    let mut state: usize = 0;
    for (i, event) in word.iter().enumerate() {
        let at = (state * events + usize::from(*event)) * (WIDTH + 1);
        let slot = i * WIDTH;
        to[slot..slot + WIDTH].copy_from_slice(&entries[at..at + WIDTH]);
        state = usize::from(entries[at + WIDTH]);
    }
}

impl Made {
    // The numbers of the table in one: states in sixteen bits; events, values and top in eight each, or a register's lines for values and 0
    // for top.
    fn numbers(self) -> usize
        requires { SmallNumbers self.states self.events (told_values self.kind) (told_top self.kind self.top) }
        ensures { result ≡ made_numbers self }
    {
        let (values, top) = match self.kind {
            ValueKind::Numbered(values) => (values, self.top),
            ValueKind::Register(lines) => (lines, 0),
        };
        self.states + (self.events + (values as usize + top * 256) * 256) * 65536
    }

    // The file's set-up, with the meet entries at the front of a buffer.
    fn set_up<'a>(self, meet: &'a [u8]) -> SetUp<'a>
        requires { self.entries ≤ length meet.now }
        ensures { setup_of result ≡ held_setup self meet.now }
    {
        let values = match self.kind {
            ValueKind::Numbered(values) => Values::Numbered {
                values: values as usize,
                top: self.top,
                meet: &meet[..self.entries],
            },
            ValueKind::Register(lines) => Values::Register {
                lines: lines as usize,
            },
        };
        SetUp {
            events: self.events,
            values,
        }
    }

    // The table at the front of a buffer.
    fn table<'a>(self, buffer: &'a [u8]) -> Table<'a>
        requires { Holds self buffer.now }
        ensures states { result.states ≡ self.states }
        ensures entries { result.entries.now ≡ front self.kind self.events self.states buffer.now }
    {
        let size = self.states * self.events * entry_width(self.kind);
        Table {
            states: self.states,
            entries: &buffer[..size],
        }
    }

    // By the table at the front of a buffer: 16 for any event of the sequence, then 13, then the values.
    fn replay(self, buffer: &[u8], word: &[u8], to: &mut [u8]) -> Result<(), Refusal>
        requires held { Holds self buffer.now }
        requires playable { Playable self.kind self.events self.states (front self.kind self.events self.states buffer.now) }
        ensures { Replays self.kind self.events (front self.kind self.events self.states buffer.now) word.now to.old to.new result }
    {
        if !word_in_order(word, self.events as u8) {
            return Err(Refusal::EventNumber);
        }
        if to.len() / value_width(self.kind) < word.len() {
            return Err(Refusal::BufferLength);
        }
        let table = self.table(buffer);
        match self.kind {
            ValueKind::Numbered(_) => run::<1>(table, self.events, word, to),
            ValueKind::Register(_) => run::<4>(table, self.events, word, to),
        }
        Ok(())
    }

    // Trial of a device against the table at the front of a buffer, with the meet entries at the front of another.
    fn trial(
        self,
        meet: &[u8],
        buffer: &[u8],
        device: Device<'_>,
        word: &mut [u8],
    ) -> Result<Verdict, Refusal>
        requires entries { self.entries ≤ length meet.now }
        requires held { Holds self buffer.now }
        ensures answer { result ≡ trial_answer device_limit table_limit
            (held_trial (held_setup self meet.now) self.states buffer.now device.entry.table.states device.entry.start
            device.entry.table.entries.now) word.old }
        ensures contents { word.new ≡ trial_buffer device_limit table_limit
            (held_trial (held_setup self meet.now) self.states buffer.now device.entry.table.states device.entry.start
            device.entry.table.entries.now) word.old }
    {
        trial(self.set_up(meet), self.table(buffer), device, word)
    }
}

impl Form {
    // The table of a file's rule into a buffer, and the file's meet entries, of which a register has none, into another: 4, 1 to 3 or 1 and
    // 20, 5 to 10, 13.
    fn compile(self, text: &[u8], meet: &mut [u8], to: &mut [u8]) -> Result<Made, Refusal>
        ensures { Compiles self text.now meet.old to.old meet.new to.new result }
    {
        match self {
            Form::Numbers => {
                let file = compile_file(text, meet, to)?;
                Ok(Made {
                    events: file.numbers.events,
                    kind: ValueKind::Numbered(file.numbers.values as u32),
                    top: file.numbers.top,
                    entries: file.numbers.entries,
                    states: file.states,
                })
            }
            Form::Register => {
                let file = registers::compile_file(text, to)?;
                Ok(Made {
                    events: file.numbers.events,
                    kind: ValueKind::Register(file.numbers.lines as u32),
                    top: 0,
                    entries: 0,
                    states: file.states,
                })
            }
        }
    }

    // The table of a file's rule; yields its numbers.
    fn table(self, text: &[u8], to: &mut [u8]) -> Result<usize, Refusal>
        ensures answer { result ≡ table_answer (file_form self) (reader self text.now) to.old }
        ensures contents { to.new ≡ table_after (file_form self) (reader self text.now) to.old }
    {
        let mut meet = [0; MEET_LIMIT];
        let made = self.compile(text, &mut meet, to)?;
        Ok(made.numbers())
    }

    // A replay whose table is made in SMALL bytes first, and in LARGE, which have room for every table, where it has no room in them.
    fn replay<const SMALL: usize, const LARGE: usize>(
        self,
        text: &[u8],
        word: &[u8],
        to: &mut [u8],
    ) -> Result<(), Refusal>
        requires small { SMALL < 2 ^ 32 }
        requires large { LARGE < 2 ^ 32 }
        requires room { HasRoom self LARGE }
        ensures answer { result ≡ replay_answer (file_form self) (reader self text.now) word.now to.old }
        ensures contents { to.new ≡ replay_after (file_form self) (reader self text.now) word.now to.old }
    {
        let mut meet = [0; MEET_LIMIT];
        let mut table = [0; SMALL];
        match self.compile(text, &mut meet, &mut table) {
            Ok(made) => made.replay(&table, word, to),
            Err(refusal) => match refusal {
                Refusal::BufferLength => self.replay_large::<LARGE>(text, word, to),
                _ => Err(refusal),
            },
        }
    }

    // A function of its own, so that no room is made for a large array where it is not used.
    #[inline(never)]
    fn replay_large<const LARGE: usize>(
        self,
        text: &[u8],
        word: &[u8],
        to: &mut [u8],
    ) -> Result<(), Refusal>
        requires large { LARGE < 2 ^ 32 }
        requires room { HasRoom self LARGE }
        ensures answer { result ≡ replay_answer (file_form self) (reader self text.now) word.now to.old }
        ensures contents { to.new ≡ replay_after (file_form self) (reader self text.now) word.now to.old }
    {
        let mut meet = [0; MEET_LIMIT];
        let mut table = [0; LARGE];
        let made = self.compile(text, &mut meet, &mut table)?;
        made.replay(&table, word, to)
    }

    // A trial against a file's rule, whose table is made as for a replay.
    fn trial<const SMALL: usize, const LARGE: usize>(
        self,
        text: &[u8],
        device: Device<'_>,
        word: &mut [u8],
    ) -> Result<Verdict, Refusal>
        requires small { SMALL < 2 ^ 32 }
        requires large { LARGE < 2 ^ 32 }
        requires room { HasRoom self LARGE }
        ensures answer { result ≡ file_trial_answer (file_form self) (reader self text.now) device.entry.table.states device.entry.start
            device.entry.table.entries.now word.old }
        ensures contents { word.new ≡ file_trial_buffer (file_form self) (reader self text.now) device.entry.table.states
            device.entry.start device.entry.table.entries.now word.old }
    {
        let mut meet = [0; MEET_LIMIT];
        let mut table = [0; SMALL];
        match self.compile(text, &mut meet, &mut table) {
            Ok(made) => made.trial(&meet, &table, device, word),
            Err(refusal) => match refusal {
                Refusal::BufferLength => self.trial_large::<LARGE>(text, device, word),
                _ => Err(refusal),
            },
        }
    }

    // As for a replay.
    #[inline(never)]
    fn trial_large<const LARGE: usize>(
        self,
        text: &[u8],
        device: Device<'_>,
        word: &mut [u8],
    ) -> Result<Verdict, Refusal>
        requires large { LARGE < 2 ^ 32 }
        requires room { HasRoom self LARGE }
        ensures answer { result ≡ file_trial_answer (file_form self) (reader self text.now) device.entry.table.states device.entry.start
            device.entry.table.entries.now word.old }
        ensures contents { word.new ≡ file_trial_buffer (file_form self) (reader self text.now) device.entry.table.states
            device.entry.start device.entry.table.entries.now word.old }
    {
        let mut meet = [0; MEET_LIMIT];
        let mut table = [0; LARGE];
        let made = self.compile(text, &mut meet, &mut table)?;
        made.trial(&meet, &table, device, word)
    }
}

// The C interface: these names, parameters and codes are those of programs in C. So each form of files and each kind of values has functions
// of its own, a set-up, a table and a device come in parts, and an answer is one number.

// The table of a channel file's rule, two bytes an entry, and its numbers: 4, 1 to 3, 5 to 10, 13.
pub fn gurvazze_table(text: &[u8], to: &mut [u8]) -> u64
    ensures answer { result ≡ answer_code (table_answer number_file (read_file text.now) to.old) }
    ensures contents { to.new ≡ table_after number_file (read_file text.now) to.old }
{
    answer_code(Form::Numbers.table(text, to))
}

// The same of a register's channel file, five bytes an entry: 4, 1, 20, 5 to 10, 13.
pub fn gurvazze_register_table(text: &[u8], to: &mut [u8]) -> u64
    ensures answer { result ≡ answer_code (table_answer register_file (register_reading.read_file text.now) to.old) }
    ensures contents { to.new ≡ table_after register_file (register_reading.read_file text.now) to.old }
{
    answer_code(Form::Register.table(text, to))
}

// The values of a channel file's rule on a sequence of events, one byte each: 4, 1 to 3, 5 to 10, 16, 13.
pub fn gurvazze_replay(text: &[u8], word: &[u8], to: &mut [u8]) -> u64
    ensures answer { result ≡ replay_code (replay_answer number_file (read_file text.now) word.now to.old) }
    ensures contents { to.new ≡ replay_after number_file (read_file text.now) word.now to.old }
{
    replay_code(Form::Numbers.replay::<SMALL_BYTES, TABLE_BYTES>(text, word, to))
}

// The same of a register's channel file, four bytes each: 4, 1, 20, 5 to 10, 16, 13.
pub fn gurvazze_register_replay(text: &[u8], word: &[u8], to: &mut [u8]) -> u64
    ensures answer { result ≡ replay_code (replay_answer register_file (register_reading.read_file text.now) word.now to.old) }
    ensures contents { to.new ≡ replay_after register_file (register_reading.read_file text.now) word.now
        to.old }
{
    replay_code(Form::Register.replay::<SMALL_REGISTER_BYTES, REGISTER_TABLE_BYTES>(text, word, to))
}

// Trial of a device against a channel file's rule: 4, 1 to 3, 5 to 10, 11, 13.
pub fn gurvazze_trial(
    text: &[u8],
    device_states: usize,
    device_start: usize,
    device: &[u8],
    word: &mut [u8],
) -> u64
    ensures answer { result ≡ verdict_code (file_trial_answer number_file (read_file text.now) device_states device_start
        device.now word.old) }
    ensures contents { word.new ≡ file_trial_buffer number_file (read_file text.now) device_states device_start
        device.now word.old }
{
    let device = device_of(device_states, device_start, device);
    verdict_code(Form::Numbers.trial::<SMALL_BYTES, TABLE_BYTES>(text, device, word))
}

// Trial of a register's device, five bytes an entry, against a register's channel file's rule: 4, 1, 20, 5 to 10, 11, 13.
pub fn gurvazze_register_trial(
    text: &[u8],
    device_states: usize,
    device_start: usize,
    device: &[u8],
    word: &mut [u8],
) -> u64
    ensures answer { result ≡ verdict_code (file_trial_answer register_file (register_reading.read_file text.now) device_states
        device_start device.now word.old) }
    ensures contents { word.new ≡ file_trial_buffer register_file (register_reading.read_file text.now) device_states
        device_start device.now word.old }
{
    let device = device_of(device_states, device_start, device);
    verdict_code(Form::Register.trial::<SMALL_REGISTER_BYTES, REGISTER_TABLE_BYTES>(
        text, device, word,
    ))
}

// The table of a rule, both in bytes, two an entry and three a node; yields the number of states: 1 to 3, 5 to 10, 13.
pub fn gurvazze_compile(
    events: usize,
    values: usize,
    top: usize,
    meet: &[u8],
    rule: &[u8],
    to: &mut [u8],
) -> u64
    ensures answer { result ≡ answer_code (compile_answer state_limit (setup events values top meet.now) rule.now
        to.old) }
    ensures contents { to.new ≡ compile_contents state_limit (setup events values top meet.now) rule.now
        to.old }
{
    answer_code(compile(numbers(events, values, top, meet), rule, to))
}

// The same over a register, five bytes an entry and six a node: 1, 20, 5 to 10, 13.
pub fn gurvazze_register_compile(events: usize, lines: usize, rule: &[u8], to: &mut [u8]) -> u64
    ensures answer { result ≡ answer_code (compile_answer state_limit (register_setup events lines) rule.now to.old) }
    ensures contents { to.new ≡ compile_contents state_limit (register_setup events lines) rule.now to.old }
{
    answer_code(compile(register(events, lines), rule, to))
}

// Trial of a device against a rule's table, both in bytes: 1 to 3, 11, 13.
pub fn gurvazze_trial_table(
    events: usize,
    values: usize,
    top: usize,
    meet: &[u8],
    states: usize,
    table: &[u8],
    device_states: usize,
    device_start: usize,
    device: &[u8],
    word: &mut [u8],
) -> u64
    ensures answer { result ≡ verdict_code (trial_answer device_limit table_limit
        (input (setup events values top meet.now) states table.now device_states device_start device.now)
        word.old) }
    ensures contents { word.new ≡ trial_buffer device_limit table_limit
        (input (setup events values top meet.now) states table.now device_states device_start device.now)
        word.old }
{
    let set_up = numbers(events, values, top, meet);
    let table = Table {
        states,
        entries: table,
    };
    let device = device_of(device_states, device_start, device);
    verdict_code(trial(set_up, table, device, word))
}

// The same over a register, five bytes an entry: 1, 20, 11, 13.
pub fn gurvazze_register_trial_table(
    events: usize,
    lines: usize,
    states: usize,
    table: &[u8],
    device_states: usize,
    device_start: usize,
    device: &[u8],
    word: &mut [u8],
) -> u64
    ensures answer { result ≡ verdict_code (trial_answer device_limit table_limit
        (input (register_setup events lines) states table.now device_states device_start device.now)
        word.old) }
    ensures contents { word.new ≡ trial_buffer device_limit table_limit
        (input (register_setup events lines) states table.now device_states device_start device.now)
        word.old }
{
    let set_up = register(events, lines);
    let table = Table {
        states,
        entries: table,
    };
    let device = device_of(device_states, device_start, device);
    verdict_code(trial(set_up, table, device, word))
}

// The rule of a table from a start, three bytes a node; yields the node count: 1 to 3, 11, 12, 23, 13.
pub fn gurvazze_rule(
    events: usize,
    values: usize,
    top: usize,
    meet: &[u8],
    states: usize,
    start: usize,
    table: &[u8],
    to: &mut [u8],
) -> u64
    ensures answer { result ≡ answer_code (write_answer table_limit node_limit (setup events values top meet.now) states start
        table.now to.old) }
    ensures contents { to.new ≡ write_contents table_limit node_limit (setup events values top meet.now) states start
        table.now to.old }
{
    let device = device_of(states, start, table);
    answer_code(write_rule(numbers(events, values, top, meet), device, to))
}

// The same over a register, five bytes an entry and six a node: 1, 20, 11, 12, 23, 13.
pub fn gurvazze_register_rule(
    events: usize,
    lines: usize,
    states: usize,
    start: usize,
    table: &[u8],
    to: &mut [u8],
) -> u64
    ensures answer { result ≡ answer_code (write_answer table_limit node_limit (register_setup events lines) states start
        table.now to.old) }
    ensures contents { to.new ≡ write_contents table_limit node_limit (register_setup events lines) states start
        table.now to.old }
{
    answer_code(write_rule(register(events, lines), device_of(states, start, table), to))
}
