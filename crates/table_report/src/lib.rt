// The whole output of the program for a channel file, rendered into a lent buffer; for a register's file in registers.rt.
#![tactic(auto)]

pub mod registers;

ghost use Rattle.table_report.specs.PrintedTable.{refusal_text};
ghost use Rattle.table_report.specs.Report.{Reports};

use channel_io::{FileTable, compile_file};
use limits::{MEET_LIMIT, TABLE_BYTES};
use machines::Table;
use refusal::Refusal;
use table_rows::{HandedKind, ROWS_LENGTH, Text, render, rows};
use text_output::{put_field, put_line};

// Every output has room in so many bytes.
pub const REPORT_LENGTH: usize = ROWS_LENGTH;

// The line of a refusal.
#[derive(Clone, Copy)]
struct RefusalLine(Refusal);

impl Text for RefusalLine {
    ghost bytes = { λ l. refusal_text l.0 };

    fn put(&self, out: &mut [u8]) -> usize {
        let number = usize::from(self.0.number());
        match self.0.place() {
            None => put_line(out, 0, b"refused=", number),
            Some(place) => {
                let behind = put_field(out, 0, b"refused=", number);
                put_line(out, behind, b" ", place)
            }
        }
    }
}

// Renders the output for a text: its length, or 13. A buffer of REPORT_LENGTH bytes is never too short.
pub fn report(text: &[u8], to: &mut [u8]) -> Result<usize, Refusal>
    ensures { Reports text.now to.old to.new result }
{
    let mut meet = [0u8; MEET_LIMIT];
    let mut table = [0u8; TABLE_BYTES];
    match compile_file(text, &mut meet, &mut table) {
        Err(refusal) => render(&RefusalLine(refusal), to),
        Ok(FileTable { numbers, states }) => {
            let events = numbers.events;
            let entries = &table[..states * events * 2];
            rows(
                events,
                HandedKind::Numbered(numbers.values),
                Table { states, entries },
                to,
            )
        }
    }
}
