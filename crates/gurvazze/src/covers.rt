// When one rule covers another: its table, as a device from state 0, is tried against the table of the other.
use crate::answers::{Fault, List};
use crate::rules::{make_table, read_rule};
use crate::setups::{NODE_ROOM, TABLE_ROOM, compile};
use command_line::{first_part, front, rest, second_part};
use conformance::{Verdict, trial};
use machines::{Device, Table};
use std::io::Stdout;
use values::SetUp;

// The table of the first rule against the nodes of the second.
fn cover(
    stdout: Stdout,
    set_up: SetUp<'_>,
    first: Table<'_>,
    second: &[u8],
    word: &mut [u8],
) -> Result<(), Fault> {
    let mut room = [0u8; TABLE_ROOM];
    let table = compile(set_up, second, &mut room)?;
    let device = Device {
        table: first,
        start: 0,
    };
    match trial(set_up, table, device, word)? {
        Verdict::Pass(_) => println!(stdout; "yes")?,
        Verdict::Fail(n) => println!(stdout; "no={}", List(front(word, n)))?,
    }
    Ok(())
}

// covers TOKENS / TOKENS: both rules are read before either is judged, and the first is judged before the second.
pub fn covers(
    stdout: Stdout,
    set_up: SetUp<'_>,
    line: &[u8],
    word: &mut [u8],
) -> Result<(), Fault> {
    let rules = rest(line, 1);
    let mut nodes = [0u8; NODE_ROOM];
    let second = read_rule(set_up, second_part(rules), &mut nodes)?;
    let mut room = [0u8; TABLE_ROOM];
    let first = make_table(set_up, first_part(rules), &mut room)?;
    cover(stdout, set_up, first, second, word)
}
