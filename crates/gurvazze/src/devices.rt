// A kept device: its trial and its rule. Its entries are lent beside.
use crate::answers::{Fault, List};
use crate::numbers::{has_word, numbers};
use crate::rules::make_table;
use crate::setups::{Kind, NODE_ROOM, TABLE_ROOM};
use channel_io::write_file;
use characteristic::write_rule;
use command_line::{ListError, front, rest};
use conformance::{Grade, Verdict};
use limits::FILE_LIMIT;
use machines::{Device, Table};
use std::io::Stdout;
use values::SetUp;

// What was said of a device: its states and its start, and how many bytes its entries take.
#[derive(Clone, Copy)]
pub struct Kept {
    states: usize,
    start: usize,
    size: usize,
}

impl Kept {
    // device STATES START V N V N...; the values are of a kind. A number that no byte or mask holds is too large for every table: the device
    // is kept as one of no states, which 11 refuses as well.
    pub fn read(kind: Kind, line: &[u8], entries: &mut [u8]) -> Result<Kept, Fault> {
        let [said, start] = numbers::<2>(line)?;
        let list = rest(line, 3);
        let listed = kind.read_entries(list, entries);
        match listed {
            Ok(size) => {
                let states = if kind.has_large(list) { 0 } else { said };
                Ok(Kept {
                    states,
                    start,
                    size,
                })
            }
            // more entries than a table has, which is 11 as well
            Err(ListError::Short) => Ok(Kept {
                states: 0,
                start,
                size: 0,
            }),
            Err(ListError::Malformed) => Err(Fault::Number),
        }
    }

    // The device with its entries.
    fn device(self, entries: &[u8]) -> Device<'_> {
        Device {
            table: Table {
                states: self.states,
                entries: front(entries, self.size),
            },
            start: self.start,
        }
    }
}

// trial TOKENS
pub fn trial(
    stdout: Stdout,
    set_up: SetUp<'_>,
    kept: Option<Kept>,
    line: &[u8],
    entries: &[u8],
    word: &mut [u8],
) -> Result<(), Fault> {
    let kept = kept.ok_or(Fault::Device)?;
    let mut room = [0u8; TABLE_ROOM];
    let rule = make_table(set_up, rest(line, 1), &mut room)?;
    match conformance::trial(set_up, rule, kept.device(entries), word)? {
        Verdict::Pass(Grade::Same) => println!(stdout; "pass=same")?,
        Verdict::Pass(Grade::Stricter) => println!(stdout; "pass=stricter")?,
        Verdict::Fail(n) => println!(stdout; "fail={}", List(front(word, n)))?,
    }
    Ok(())
}

// A rule as tokens.
fn say_nodes(stdout: Stdout, set_up: SetUp<'_>, nodes: &[u8]) -> Result<(), Fault> {
    let mut text = [0u8; FILE_LIMIT];
    let n = write_file(set_up, nodes, &mut text)?;
    print!(stdout; "rule=")?;
    stdout.write_all(Kind::of(set_up).tokens(front(&text, n)))?;
    println!(stdout)?;
    Ok(())
}

// write
pub fn write(
    stdout: Stdout,
    set_up: SetUp<'_>,
    kept: Option<Kept>,
    line: &[u8],
    entries: &[u8],
) -> Result<(), Fault> {
    if has_word(line, 1) {
        return Err(Fault::Arguments);
    }
    let kept = kept.ok_or(Fault::Device)?;
    let mut nodes = [0u8; NODE_ROOM];
    let count = write_rule(set_up, kept.device(entries), &mut nodes)?;
    let bytes = Kind::of(set_up).node_bytes(count);
    say_nodes(stdout, set_up, front(&nodes, bytes))
}
