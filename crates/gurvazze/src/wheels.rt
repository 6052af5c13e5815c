// The turn of a wheel that the next set-up takes.
use crate::answers::Fault;
use crate::numbers::only_numbers;

// Pulses and millimetres of a turn, as they were said; a set-up judges them.
#[derive(Clone, Copy)]
pub struct Turn {
    pub pulses: usize,
    pub millimetres: usize,
}

impl Turn {
    // What a set-up takes before a turn is said.
    pub const FIRST: Turn = Turn {
        pulses: 1,
        millimetres: 1,
    };

    // wheel P C
    pub fn read(line: &[u8]) -> Result<Turn, Fault> {
        let [pulses, millimetres] = only_numbers::<2>(line)?;
        Ok(Turn {
            pulses,
            millimetres,
        })
    }
}
