// Rules written as tokens, which have to fit a channel file with the set-up in force; their tables.
ghost use Rattle.std.specs.Prelude.{◌≤◌};

use crate::answers::Fault;
use crate::setups::{
    GRAPH_ROOM, Kind, NODE_ROOM, ROWS_ROOM, TABLE_ROOM, compile, entry_count, handed_kind, top_of,
};
use channel_io::write_file;
use command_line::{front, rest};
use limits::{ENTRY_LIMIT, FILE_LIMIT};
use machines::Table;
use std::io::Stdout;
use table_rows::rows;
use values::SetUp;

// Most tables have at most a sixteenth of the entries; an eighth of the room is more than what is printed of them takes.
const FEW_ENTRIES: usize = ENTRY_LIMIT / 16;

const FEW_ROWS: usize = ROWS_ROOM / 8;

const FEW_ARROWS: usize = GRAPH_ROOM / 8;

// How many bytes of tokens a channel file of a set-up has room for.
fn token_room(set_up: SetUp<'_>) -> usize {
    let mut text = [0u8; FILE_LIMIT];
    // the shortest rule, T, and byte 10
    let rule = [0u8; 6];
    let written = write_file(
        set_up,
        front(&rule, Kind::of(set_up).node_bytes(1)),
        &mut text,
    );
    written.map_or(0, |n| (FILE_LIMIT + 1).saturating_sub(n))
}

// The nodes of a rule in tokens, to the front of a buffer.
pub fn read_rule<'a>(
    set_up: SetUp<'_>,
    tokens: &[u8],
    nodes: &'a mut [u8],
) -> Result<&'a [u8], Fault> {
    if token_room(set_up) < tokens.len() {
        return Err(Fault::Tokens);
    }
    let kind = Kind::of(set_up);
    let count = kind.read_tokens(tokens, nodes).ok_or(Fault::Tokens)?;
    Ok(front(nodes, kind.node_bytes(count)))
}

// The table of a rule in tokens, to the front of a buffer.
pub fn make_table<'a>(
    set_up: SetUp<'_>,
    tokens: &[u8],
    to: &'a mut [u8],
) -> Result<Table<'a>, Fault> {
    let mut nodes = [0u8; NODE_ROOM];
    let rule = read_rule(set_up, tokens, &mut nodes)?;
    Ok(compile(set_up, rule, to)?)
}

// Renders with a small buffer where a table has few entries, so that a large one is not cleared for it.
fn in_room<const FEW: usize, const MOST: usize, F: FnOnce(&mut [u8]) -> Result<(), Fault>>(
    set_up: SetUp<'_>,
    table: Table<'_>,
    render: F,
) -> Result<(), Fault>
    requires callable { F.IsAlwaysCallable render }
    requires sizes { (FEW ≤ 1000000) × (MOST ≤ 1000000) }
{
    if entry_count(set_up, table.states) <= FEW_ENTRIES {
        let mut out = [0u8; FEW];
        render(&mut out)
    } else {
        let mut out = [0u8; MOST];
        render(&mut out)
    }
}

// The lines of a text behind its first.
fn other_lines(text: &[u8]) -> &[u8] {
    match text.iter().position(|b| *b == b'\n') {
        Some(end) => &text[end + 1..],
        None => text,
    }
}

// table TOKENS: its rows, without the line of its events.
pub fn table(stdout: Stdout, set_up: SetUp<'_>, line: &[u8]) -> Result<(), Fault> {
    let mut room = [0u8; TABLE_ROOM];
    let table = make_table(set_up, rest(line, 1), &mut room)?;
    in_room::<FEW_ROWS, ROWS_ROOM, _>(set_up, table, |out| {
        let n = rows(set_up.events, handed_kind(set_up), table, out)?;
        Ok(stdout.write_all(other_lines(front(out, n)))?)
    })
}

// dot TOKENS
pub fn dot(stdout: Stdout, set_up: SetUp<'_>, line: &[u8]) -> Result<(), Fault> {
    let mut room = [0u8; TABLE_ROOM];
    let table = make_table(set_up, rest(line, 1), &mut room)?;
    in_room::<FEW_ARROWS, GRAPH_ROOM, _>(set_up, table, |out| {
        let n = table_graph::dot(
            set_up.events,
            handed_kind(set_up),
            top_of(set_up),
            table,
            out,
        )?;
        Ok(stdout.write_all(front(out, n))?)
    })
}
