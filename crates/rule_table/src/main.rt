// Reads a channel file on standard input and prints the table of its rule, or the refusal.
#![tactic(auto)]

use limits::FILE_LIMIT;
use standard_input::read_full;
use std::io;
use table_report::{REPORT_LENGTH, report};

// Its twin is the program register_table: the other report, with a length and a proof of its own.
fn main(rt: HostRuntime) -> io::Result<()> {
    // one byte more than the limit, so that a text over it is seen
    let mut text = [0u8; FILE_LIMIT + 1];
    let n = read_full(&mut rt.stdin(), &mut text)?;
    let mut out = [0u8; REPORT_LENGTH];
    let answer = report(&text[..n], &mut out);
    if let Ok(length) = answer {
        rt.write_all(&out[..length])?;
    }
    Ok(())
}
