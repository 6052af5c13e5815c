// What the program prints.
use crate::setups::Kind;
use refusal::Refusal;
use std::{fmt, io};

// Why a line is not answered: it is no command, for one of the first seven reasons; what it asks for is refused; or nothing more can be read
// or written.
#[derive(Drop)]
pub enum Fault {
    Line,
    Command,
    Arguments,
    Number,
    Tokens,
    Setup,
    Device,
    Refused(Refusal),
    Io(io::Error),
}

impl From<Refusal> for Fault {
    fn from(refusal: Refusal) -> Fault {
        Fault::Refused(refusal)
    }
}

impl From<io::Error> for Fault {
    fn from(error: io::Error) -> Fault {
        Fault::Io(error)
    }
}

impl fmt::Display for Fault {
    fn fmt<W: fmt::Write>(&self, f: &mut fmt::Formatter<W>) -> fmt::Result {
        match self {
            Fault::Line => write!(f, "error=line"),
            Fault::Command => write!(f, "error=command"),
            Fault::Arguments => write!(f, "error=arguments"),
            Fault::Number => write!(f, "error=number"),
            Fault::Tokens => write!(f, "error=tokens"),
            Fault::Setup => write!(f, "error=setup"),
            Fault::Device => write!(f, "error=device"),
            Fault::Refused(refusal) => write!(f, "refused={refusal}"),
            Fault::Io(error) => write!(f, "{error}"),
        }
    }
}

// A value: a number, or a register's masks as LOW.HIGH.
#[derive(Clone, Copy)]
pub struct ValueText {
    pub kind: Kind,
    pub value: u32,
}

impl fmt::Display for ValueText {
    fn fmt<W: fmt::Write>(&self, f: &mut fmt::Formatter<W>) -> fmt::Result {
        let value = self.value;
        match self.kind {
            Kind::Numbers => write!(f, "{value}"),
            Kind::Register => write!(f, "{}.{}", value % 65536, value / 65536),
        }
    }
}

// What a list is of.
pub trait Item: Copy {
    const KIND: Kind;

    fn number(self) -> u32;
}

impl Item for u8 {
    const KIND: Kind = Kind::Numbers;

    fn number(self) -> u32 {
        u32::from(self)
    }
}

impl Item for u32 {
    const KIND: Kind = Kind::Register;

    fn number(self) -> u32 {
        self
    }
}

// A list, with a space between each two items.
#[derive(Drop)]
pub struct List<'a, T>(pub &'a [T]);

impl<T: Item> fmt::Display for List<'_, T> {
    fn fmt<W: fmt::Write>(&self, f: &mut fmt::Formatter<W>) -> fmt::Result {
        for (i, item) in self.0.iter().enumerate() {
            if i > 0 {
                write!(f, " ")?;
            }
            let value = ValueText {
                kind: T::KIND,
                value: item.number(),
            };
            write!(f, "{value}")?;
        }
        Ok(())
    }
}

pub const HELP: &str = "\
setup EVENTS VALUES TOP MEET...   the set-up; channels are empty
register EVENTS LINES             the set-up for a register; channels are empty
wheel P C                         pulses and millimetres per turn of the wheel, for the next set-up
table TOKENS                      the table of a rule
load C TOKENS                     a rule into channel C
event C E                         event E on channel C
event C E PULSES                  the same with pulses, and the distance
events C E E...                   events on channel C, all or none
restart C                         channel C at state 0
restart all                       every loaded channel at state 0
clear C                           channel C empty
show C                            what channel C holds
device STATES START V N V N...    a device to keep; judged when it is used
trial TOKENS                      the device against a rule
covers TOKENS / TOKENS            whether the first rule implies the second
write                             the rule of the device
dot TOKENS                        the table of a rule as a Graphviz digraph
help                              this list
";
