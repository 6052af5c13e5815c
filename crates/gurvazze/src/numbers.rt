// The numbers of a line.
ghost use Rattle.std.specs.Prelude.{◌≤◌};

use crate::answers::Fault;
use command_line::{front, read_number, read_numbers, rest, word};

// Whether a line has the word n.
pub fn has_word(line: &[u8], n: usize) -> bool {
    !word(line, n).is_empty()
}

// The N words behind the command.
pub fn numbers<const N: usize>(line: &[u8]) -> Result<[usize; N], Fault>
    requires { N ≤ 3 }
{
    if !has_word(line, N) {
        return Err(Fault::Arguments);
    }
    let mut found = [0usize; N];
    for (i, number) in found.iter_mut().enumerate() {
        *number = read_number(word(line, i + 1)).ok_or(Fault::Number)?;
    }
    Ok(found)
}

// The same of a line of no more words.
pub fn only_numbers<const N: usize>(line: &[u8]) -> Result<[usize; N], Fault>
    requires { N ≤ 3 }
{
    if has_word(line, N + 1) {
        return Err(Fault::Arguments);
    }
    numbers(line)
}

// The numbers from word n on, to the front of a buffer.
pub fn list_from<'a>(line: &[u8], n: usize, to: &'a mut [u8]) -> Result<&'a [u8], Fault> {
    match read_numbers(rest(line, n), to) {
        Ok(count) => Ok(front(to, count)),
        Err(_) => Err(Fault::Number),
    }
}
