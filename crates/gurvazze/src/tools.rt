// The tools of both kinds, and their set-ups.
use crate::answers::Fault;
use crate::numbers::{list_from, numbers, only_numbers};
use crate::setups::Kind;
use crate::wheels::Turn;
use recorder::{NumberTool, RegisterTool, ToolSetup};
use values::SetUp;

// The tools; that of the kind in force has had the last accepted set-up.
#[derive(Drop)]
pub struct Tools {
    pub in_force: Option<Kind>,
    pub numbers: NumberTool,
    pub register: RegisterTool,
}

// The set-up of a tool, as it would be handed in.
fn set_up_of<K: recorder::Kind>(setup: &ToolSetup<K>) -> SetUp<'_> {
    setup.kind.handed_in(setup.events)
}

impl Tools {
    // None is in force, and the cells of each are all 0, as a refused set-up gives them.
    pub fn new() -> Tools {
        Tools {
            in_force: None,
            numbers: NumberTool::set_up(0, 0, 0, b"", 0, 0).tool,
            register: RegisterTool::set_up(0, 0, 0, 0).tool,
        }
    }

    pub fn set_up(&self) -> Result<SetUp<'_>, Fault> {
        match self.in_force {
            Some(Kind::Numbers) => Ok(set_up_of(&self.numbers.setup)),
            Some(Kind::Register) => Ok(set_up_of(&self.register.setup)),
            None => Err(Fault::Setup),
        }
    }
}

// setup EVENTS VALUES TOP MEET...
pub fn set_up_numbers(turn: Turn, line: &[u8], list: &mut [u8]) -> Result<NumberTool, Fault> {
    let [events, values, top] = numbers::<3>(line)?;
    let meet = list_from(line, 4, list)?;
    let made = NumberTool::set_up(events, values, top, meet, turn.pulses, turn.millimetres);
    made.reply?;
    Ok(made.tool)
}

// register EVENTS LINES
pub fn set_up_register(turn: Turn, line: &[u8]) -> Result<RegisterTool, Fault> {
    let [events, lines] = only_numbers::<2>(line)?;
    let made = RegisterTool::set_up(events, lines, turn.pulses, turn.millimetres);
    made.reply?;
    Ok(made.tool)
}
