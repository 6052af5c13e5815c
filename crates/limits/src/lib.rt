// The limits of documents 01 and 02, a name each; specs/Limits has the same names for contracts and claims.

// A set-up: events, values, meet entries, lines of a register.
#![tactic(auto)]

pub const EVENT_LIMIT: usize = 16;

pub const VALUE_LIMIT: usize = 16;

pub const MEET_LIMIT: usize = VALUE_LIMIT * VALUE_LIMIT;

pub const LINE_LIMIT: usize = 16;

// A rule: nodes, V nodes on a path, and the words of 64 bits of a set of nodes.
pub const NODE_LIMIT: usize = 256;

pub const BINDER_LIMIT: usize = 12;

pub const SET_WORDS: usize = NODE_LIMIT / 64;

// A rule's table: states, entries, and bytes at two an entry, or five with registers.
pub const STATE_LIMIT: usize = 256;

pub const ENTRY_LIMIT: usize = STATE_LIMIT * EVENT_LIMIT;

pub const TABLE_BYTES: usize = ENTRY_LIMIT * 2;

pub const REGISTER_TABLE_BYTES: usize = ENTRY_LIMIT * 5;

// A device, and any other table handed in: states.
pub const DEVICE_LIMIT: usize = 64;

pub const TABLE_LIMIT: usize = 256;

// A failing word: events.
pub const WORD_LIMIT: usize = DEVICE_LIMIT * TABLE_LIMIT;

// The tool: channels, rows among them, and the entries of so many rows; a row is one state of a loaded table.
pub const CHANNEL_LIMIT: usize = 8;

pub const ROW_LIMIT: usize = 512;

pub const STORE_LIMIT: usize = ROW_LIMIT * EVENT_LIMIT;

// The wheel: pulses and millimetres of a turn; a channel's pulses in all.
pub const TURN_LIMIT: usize = 65535;

pub const TOTAL_LIMIT: u64 = 1099511627776;

// A channel file: bytes.
pub const FILE_LIMIT: usize = 4096;
