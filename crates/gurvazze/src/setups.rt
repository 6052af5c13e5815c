// What differs by the kind of values of the set-up in force, and the tables under it.
use channel_file::registers as register_file;
use command_line::{ListError, front};
use limits::{NODE_LIMIT, REGISTER_TABLE_BYTES};
use machines::Table;
use refusal::Refusal;
use table_graph::REGISTER_GRAPH_LENGTH;
use table_rows::{HandedKind, REGISTER_ROWS_LENGTH};
use values::{SetUp, Values};

// Room for a table of either kind, its rows and its digraph.
pub const TABLE_ROOM: usize = REGISTER_TABLE_BYTES;

pub const ROWS_ROOM: usize = REGISTER_ROWS_LENGTH;

pub const GRAPH_ROOM: usize = REGISTER_GRAPH_LENGTH;

// Room for one node more than a rule may have: 5 refuses any longer rule as it refuses its front.
pub const NODE_ROOM: usize = (NODE_LIMIT + 1) * 6;

// The kinds of values: numbers, or those of a register (document 02, F-7).
#[derive(Clone, Copy, PartialEq, Eq)]
pub enum Kind {
    Numbers,
    Register,
}

impl Kind {
    // That of a set-up.
    pub fn of(set_up: SetUp<'_>) -> Kind {
        match set_up.values {
            Values::Numbered { .. } => Kind::Numbers,
            Values::Register { .. } => Kind::Register,
        }
    }

    // The bytes of so many nodes, or of one more than a rule may have.
    pub fn node_bytes(self, nodes: usize) -> usize {
        let size = match self {
            Kind::Numbers => 3,
            Kind::Register => 6,
        };
        nodes.min(NODE_LIMIT + 1) * size
    }

    // The words of a list as a device's entries.
    pub fn read_entries(self, list: &[u8], entries: &mut [u8]) -> Result<usize, ListError> {
        match self {
            Kind::Numbers => command_line::read_numbers(list, entries),
            Kind::Register => command_line::read_masked(list, entries),
        }
    }

    // Whether one of them has a number that its bytes do not hold.
    pub fn has_large(self, list: &[u8]) -> bool {
        match self {
            Kind::Numbers => command_line::has_large(list),
            Kind::Register => command_line::has_large_masked(list),
        }
    }

    // The nodes of tokens.
    pub fn read_tokens(self, tokens: &[u8], nodes: &mut [u8]) -> Option<usize> {
        match self {
            Kind::Numbers => channel_file::read_tokens(tokens, nodes),
            Kind::Register => register_file::read_tokens(tokens, nodes),
        }
    }

    // The tokens of a channel file.
    pub fn tokens(self, text: &[u8]) -> &[u8] {
        match self {
            Kind::Numbers => channel_file::tokens(text),
            Kind::Register => register_file::tokens(text),
        }
    }
}

// The values of a set-up, as what prints a table takes them.
pub fn handed_kind(set_up: SetUp<'_>) -> HandedKind {
    match set_up.values {
        Values::Numbered { values, .. } => HandedKind::Numbered(values),
        Values::Register { lines } => HandedKind::Register(lines),
    }
}

// The top of a set-up, likewise; that of a register is fixed, and is not looked at.
pub fn top_of(set_up: SetUp<'_>) -> usize {
    match set_up.values {
        Values::Numbered { top, .. } => top,
        Values::Register { .. } => 0,
    }
}

// How many entries a table of so many states has.
pub fn entry_count(set_up: SetUp<'_>, states: usize) -> usize {
    states.saturating_mul(set_up.events)
}

// The table of a rule, to the front of a buffer.
pub fn compile<'t>(set_up: SetUp<'_>, rule: &[u8], to: &'t mut [u8]) -> Result<Table<'t>, Refusal> {
    let states = synthesis::compile(set_up, rule, to)?;
    let size = match Kind::of(set_up) {
        Kind::Numbers => 2,
        Kind::Register => 5,
    };
    let entries = front(to, entry_count(set_up, states).saturating_mul(size));
    Ok(Table { states, entries })
}
