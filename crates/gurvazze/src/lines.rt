// Lines of standard input, read block by block.
use std::io;
use std::io::{Read, Stdin};

// Most bytes that are read at once.
const BLOCK_LIMIT: usize = 4096;

// Most bytes of a line: a device of numbers, of 256 states with 16 events, has 4,096 entries of at most seven bytes, `15 255` and a space.
pub const LINE_LIMIT: usize = 32768;

// Most numbers of a line: each has a space before it.
pub const LIST_LIMIT: usize = LINE_LIMIT / 2;

// What is left of the block that was read last is its bytes from `at` to before `end`.
#[derive(Drop)]
pub struct Input {
    stdin: Stdin,
    block: [u8; BLOCK_LIMIT],
    at: usize,
    end: usize,
}

// A line without its byte 10, or that there is no room for one.
#[derive(Drop)]
pub enum Line<'a> {
    Whole(&'a [u8]),
    Long,
}

impl Input {
    pub fn new(stdin: Stdin) -> Input {
        Input {
            stdin,
            block: [0; BLOCK_LIMIT],
            at: 0,
            end: 0,
        }
    }

    // The next byte; none where the input is over.
    fn next_byte(&mut self) -> io::Result<Option<u8>> {
        if self.end <= self.at {
            self.end = self.stdin.read(&mut self.block)?;
            self.at = 0;
        }
        let left = self.block.get(self.at..self.end).unwrap_or(&[]);
        let Some(b) = left.first() else {
            return Ok(None);
        };
        self.at += 1;
        Ok(Some(*b))
    }

    // The next line, to the front of a buffer; none where the input is over. A line that is too long is passed over whole, and bytes without a
    // byte 10 behind them are a line.
    pub fn read_line<'a>(
        &mut self,
        buffer: &'a mut [u8; LINE_LIMIT],
    ) -> io::Result<Option<Line<'a>>> {
        let mut length: usize = 0;
        // nothing says that the input ends
        for _ in 0..u64::MAX {
            match self.next_byte()? {
                None if length == 0 => return Ok(None),
                None | Some(b'\n') => break,
                Some(b) => {
                    if let Some(place) = buffer.get_mut(length) {
                        *place = b;
                    }
                    length = length.saturating_add(1);
                }
            }
        }
        Ok(Some(match buffer.get(..length) {
            Some(text) => Line::Whole(text),
            None => Line::Long,
        }))
    }
}
