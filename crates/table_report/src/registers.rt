// The whole output of the program for a register's channel file (document 02, F-7), rendered into a lent buffer.
ghost use Rattle.table_report.specs.Report.{RegisterReports};

use crate::RefusalLine;
use channel_io::FileTable;
use channel_io::registers::compile_file;
use limits::REGISTER_TABLE_BYTES;
use machines::Table;
use refusal::Refusal;
use table_rows::{HandedKind, REGISTER_ROWS_LENGTH, render, rows};

// Every output has room in so many bytes.
pub const REPORT_LENGTH: usize = REGISTER_ROWS_LENGTH;

// Renders the output for a text: its length, or 13. A buffer of REPORT_LENGTH bytes is never too short.
pub fn report(text: &[u8], to: &mut [u8]) -> Result<usize, Refusal>
    ensures { RegisterReports text.now to.old to.new result }
{
    let mut table = [0u8; REGISTER_TABLE_BYTES];
    match compile_file(text, &mut table) {
        Err(refusal) => render(&RefusalLine(refusal), to),
        Ok(FileTable { numbers, states }) => {
            let events = numbers.events;
            let entries = &table[..states * events * 5];
            rows(
                events,
                HandedKind::Register(numbers.lines),
                Table { states, entries },
                to,
            )
        }
    }
}
