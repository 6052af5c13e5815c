// The static library for programs in C and Rust, libgurvazze_host.a, whose header is hosts/c/gurvazze.h. Each exported function calls the
// function of gurvazze_host that has its name, and promises what that promises.
#![tactic(auto)]

ghost use Rattle.std.specs.Prelude.{◌≡◌};
ghost use Rattle.values.specs.Setup.{setup, register_setup};
ghost use Rattle.synthesis.specs.Compilation.{compile_answer, compile_contents};
ghost use Rattle.characteristic.specs.RuleWriting.{write_answer, write_contents};
ghost use Rattle.conformance.specs.Trial.{input};
ghost use Rattle.conformance.specs.TrialAnswer.{trial_answer, trial_buffer};
ghost use Rattle.channel_file.specs.Reading.{read_file};
ghost use Rattle.channel_file.specs.RegisterReading as register_reading;
ghost use Rattle.channel_io.specs.FileConditions.{number_file};
ghost use Rattle.channel_io.specs.RegisterFiles.{register_file};
ghost use Rattle.gurvazze_host.specs.Codes.{answer_code, verdict_code, replay_code};
ghost use Rattle.gurvazze_host.specs.FileCalls.{table_answer, table_after, replay_answer, replay_after, file_trial_answer, file_trial_buffer};
ghost use Rattle.limits.specs.Limits.{node_limit, state_limit, device_limit, table_limit};

// The table of a channel file's rule, two bytes an entry, and its numbers: 4, 1 to 3, 5 to 10, 13.
#[unsafe(no_mangle)]
pub extern "C" fn gurvazze_table(text: &[u8], to: &mut [u8]) -> u64
    ensures answer { result ≡ answer_code (table_answer number_file (read_file text.now) to.old) }
    ensures contents { to.new ≡ table_after number_file (read_file text.now) to.old }
{
    gurvazze_host::gurvazze_table(text, to)
}

// The same of a register's channel file, five bytes an entry: 4, 1, 20, 5 to 10, 13.
#[unsafe(no_mangle)]
pub extern "C" fn gurvazze_register_table(text: &[u8], to: &mut [u8]) -> u64
    ensures answer { result ≡ answer_code (table_answer register_file (register_reading.read_file text.now) to.old) }
    ensures contents { to.new ≡ table_after register_file (register_reading.read_file text.now) to.old }
{
    gurvazze_host::gurvazze_register_table(text, to)
}

// The values of a channel file's rule on a sequence of events, one byte each: 4, 1 to 3, 5 to 10, 16, 13.
#[unsafe(no_mangle)]
pub extern "C" fn gurvazze_replay(text: &[u8], word: &[u8], to: &mut [u8]) -> u64
    ensures answer { result ≡ replay_code (replay_answer number_file (read_file text.now) word.now to.old) }
    ensures contents { to.new ≡ replay_after number_file (read_file text.now) word.now to.old }
{
    gurvazze_host::gurvazze_replay(text, word, to)
}

// The same of a register's channel file, four bytes each: 4, 1, 20, 5 to 10, 16, 13.
#[unsafe(no_mangle)]
pub extern "C" fn gurvazze_register_replay(text: &[u8], word: &[u8], to: &mut [u8]) -> u64
    ensures answer { result ≡ replay_code (replay_answer register_file (register_reading.read_file text.now) word.now to.old) }
    ensures contents { to.new ≡ replay_after register_file (register_reading.read_file text.now) word.now
        to.old }
{
    gurvazze_host::gurvazze_register_replay(text, word, to)
}

// Trial of a device against a channel file's rule: 4, 1 to 3, 5 to 10, 11, 13.
#[unsafe(no_mangle)]
pub extern "C" fn gurvazze_trial(
    text: &[u8],
    device_states: usize,
    device_start: usize,
    device: &[u8],
    word: &mut [u8],
) -> u64
    ensures answer { result ≡ verdict_code (file_trial_answer number_file (read_file text.now) device_states device_start
        device.now word.old) }
    ensures contents { word.new ≡ file_trial_buffer number_file (read_file text.now) device_states device_start
        device.now word.old }
{
    gurvazze_host::gurvazze_trial(text, device_states, device_start, device, word)
}

// Trial of a register's device, five bytes an entry, against a register's channel file's rule: 4, 1, 20, 5 to 10, 11, 13.
#[unsafe(no_mangle)]
pub extern "C" fn gurvazze_register_trial(
    text: &[u8],
    device_states: usize,
    device_start: usize,
    device: &[u8],
    word: &mut [u8],
) -> u64
    ensures answer { result ≡ verdict_code (file_trial_answer register_file (register_reading.read_file text.now) device_states
        device_start device.now word.old) }
    ensures contents { word.new ≡ file_trial_buffer register_file (register_reading.read_file text.now) device_states
        device_start device.now word.old }
{
    gurvazze_host::gurvazze_register_trial(text, device_states, device_start, device, word)
}

// The table of a rule, both in bytes, two an entry and three a node; yields the number of states: 1 to 3, 5 to 10, 13.
#[unsafe(no_mangle)]
pub extern "C" fn gurvazze_compile(
    events: usize,
    values: usize,
    top: usize,
    meet: &[u8],
    rule: &[u8],
    to: &mut [u8],
) -> u64
    ensures answer { result ≡ answer_code (compile_answer state_limit (setup events values top meet.now) rule.now
        to.old) }
    ensures contents { to.new ≡ compile_contents state_limit (setup events values top meet.now) rule.now
        to.old }
{
    gurvazze_host::gurvazze_compile(events, values, top, meet, rule, to)
}

// The same over a register, five bytes an entry and six a node: 1, 20, 5 to 10, 13.
#[unsafe(no_mangle)]
pub extern "C" fn gurvazze_register_compile(
    events: usize,
    lines: usize,
    rule: &[u8],
    to: &mut [u8],
) -> u64
    ensures answer { result ≡ answer_code (compile_answer state_limit (register_setup events lines) rule.now to.old) }
    ensures contents { to.new ≡ compile_contents state_limit (register_setup events lines) rule.now to.old }
{
    gurvazze_host::gurvazze_register_compile(events, lines, rule, to)
}

// Trial of a device against a rule's table, both in bytes: 1 to 3, 11, 13.
#[unsafe(no_mangle)]
pub extern "C" fn gurvazze_trial_table(
    events: usize,
    values: usize,
    top: usize,
    meet: &[u8],
    states: usize,
    table: &[u8],
    device_states: usize,
    device_start: usize,
    device: &[u8],
    word: &mut [u8],
) -> u64
    ensures answer { result ≡ verdict_code (trial_answer device_limit table_limit
        (input (setup events values top meet.now) states table.now device_states device_start device.now)
        word.old) }
    ensures contents { word.new ≡ trial_buffer device_limit table_limit
        (input (setup events values top meet.now) states table.now device_states device_start device.now)
        word.old }
{
    gurvazze_host::gurvazze_trial_table(
        events,
        values,
        top,
        meet,
        states,
        table,
        device_states,
        device_start,
        device,
        word,
    )
}

// The same over a register, five bytes an entry: 1, 20, 11, 13.
#[unsafe(no_mangle)]
pub extern "C" fn gurvazze_register_trial_table(
    events: usize,
    lines: usize,
    states: usize,
    table: &[u8],
    device_states: usize,
    device_start: usize,
    device: &[u8],
    word: &mut [u8],
) -> u64
    ensures answer { result ≡ verdict_code (trial_answer device_limit table_limit
        (input (register_setup events lines) states table.now device_states device_start device.now)
        word.old) }
    ensures contents { word.new ≡ trial_buffer device_limit table_limit
        (input (register_setup events lines) states table.now device_states device_start device.now)
        word.old }
{
    gurvazze_host::gurvazze_register_trial_table(
        events,
        lines,
        states,
        table,
        device_states,
        device_start,
        device,
        word,
    )
}

// The rule of a table from a start, three bytes a node; yields the node count: 1 to 3, 11, 12, 23, 13.
#[unsafe(no_mangle)]
pub extern "C" fn gurvazze_rule(
    events: usize,
    values: usize,
    top: usize,
    meet: &[u8],
    states: usize,
    start: usize,
    table: &[u8],
    to: &mut [u8],
) -> u64
    ensures answer { result ≡ answer_code (write_answer table_limit node_limit (setup events values top meet.now) states start
        table.now to.old) }
    ensures contents { to.new ≡ write_contents table_limit node_limit (setup events values top meet.now) states start
        table.now to.old }
{
    gurvazze_host::gurvazze_rule(events, values, top, meet, states, start, table, to)
}

// The same over a register, five bytes an entry and six a node: 1, 20, 11, 12, 23, 13.
#[unsafe(no_mangle)]
pub extern "C" fn gurvazze_register_rule(
    events: usize,
    lines: usize,
    states: usize,
    start: usize,
    table: &[u8],
    to: &mut [u8],
) -> u64
    ensures answer { result ≡ answer_code (write_answer table_limit node_limit (register_setup events lines) states start
        table.now to.old) }
    ensures contents { to.new ≡ write_contents table_limit node_limit (register_setup events lines) states start
        table.now to.old }
{
    gurvazze_host::gurvazze_register_rule(events, lines, states, start, table, to)
}
