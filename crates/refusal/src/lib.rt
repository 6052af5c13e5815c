// Document 01, "Who can cause a refusal": the product's one refusal type. A call that can be refused answers a Result with it.
#![tactic(auto)]

ghost use Rattle.std.specs.Prelude.{◌≡◌};
ghost use Rattle.refusal.specs.Refusal.{refusal_number, refusal_place};

use std::error::Error;
use std::fmt;

// A refusal of document 01's list, with its place where it has one.
#[derive(Clone, Copy, Debug, PartialEq, Eq)]
pub enum Refusal {
    // Set-up writer.
    // 1: events not 1 to 16.
    SetupEvents,
    // 2: values not 1 to 16, or top not below values.
    SetupValues,
    // 3: meet length wrong, an entry not below values, or a law broken.
    SetupMeet,
    // 18: pulses or millimetres of a wheel's turn not 1 to 65,535 (document 02, F-6).
    SetupWheel,
    // 20: lines of a register not 1 to 16 (document 02, F-7).
    SetupLines,

    // Rule writer.
    // 4: text not in the form.
    TextForm(usize),
    // 5: no nodes, over 256, or bytes left over after the last whole node.
    NodeCount,
    // 6: unknown kind, event or value too large, unused field not 0.
    NodeFields(usize),
    // 7: nodes run out or are left over.
    NodeTree(usize),
    // 8: variable without binder.
    UnboundVariable(usize),
    // 9: variable with no G between it and its own binder (document 02, F-2).
    UnprotectedVariable(usize),
    // 10: over 256 states, where the call makes a table (document 02, F-12).
    StateCount,
    // 23: more than twelve binders on a path (document 02, F-9).
    BinderDepth,

    // Device supplier.
    // 11: states, entry count, start, value or next state of a table handed in.
    TableLimits,
    // 12: written rule over 256 nodes.
    WrittenSize,
    // 21: a table that KISS2 cannot hold (document 02, F-8).
    Kiss2Values,
    // 22: text not in the form of KISS2 (document 02, F-8).
    Kiss2Form,

    // Calling program.
    // 13: lent buffer too short.
    BufferLength,
    // 14: channel above 7.
    ChannelNumber,
    // 15: channel empty, on event or restart one.
    ChannelEmpty,
    // 16: event too large.
    EventNumber,
    // 17: a tool whose set-up fails 1 to 3, 20 or 18, or whose channel fails 11's limits or has a total above 19's.
    ToolContents,
    // 19: the pulses of a channel above 1,099,511,627,776 in all (document 02, F-6).
    PulseTotal,
    // 24: a length not 1 to 15 (document 02, F-11).
    SequenceLength,
    // 25: rows of the tool's tables above 512 in all (document 02, F-12).
    RowTotal,
}

impl Refusal {
    // The number in document 01's list.
    pub fn number(self) -> u8
        ensures { result ≡ refusal_number self }
    {
        match self {
            Refusal::SetupEvents => 1,
            Refusal::SetupValues => 2,
            Refusal::SetupMeet => 3,
            Refusal::TextForm(_) => 4,
            Refusal::NodeCount => 5,
            Refusal::NodeFields(_) => 6,
            Refusal::NodeTree(_) => 7,
            Refusal::UnboundVariable(_) => 8,
            Refusal::UnprotectedVariable(_) => 9,
            Refusal::StateCount => 10,
            Refusal::TableLimits => 11,
            Refusal::WrittenSize => 12,
            Refusal::BufferLength => 13,
            Refusal::ChannelNumber => 14,
            Refusal::ChannelEmpty => 15,
            Refusal::EventNumber => 16,
            Refusal::ToolContents => 17,
            Refusal::SetupWheel => 18,
            Refusal::PulseTotal => 19,
            Refusal::SetupLines => 20,
            Refusal::Kiss2Values => 21,
            Refusal::Kiss2Form => 22,
            Refusal::BinderDepth => 23,
            Refusal::SequenceLength => 24,
            Refusal::RowTotal => 25,
        }
    }

    // The place, of a refusal that has one.
    pub fn place(self) -> Option<usize>
        ensures { result ≡ refusal_place self }
    {
        match self {
            Refusal::TextForm(place)
            | Refusal::NodeFields(place)
            | Refusal::NodeTree(place)
            | Refusal::UnboundVariable(place)
            | Refusal::UnprotectedVariable(place) => Some(place),
            _ => None,
        }
    }
}

// The number, and the place behind it.
impl fmt::Display for Refusal {
    fn fmt<W: fmt::Write>(&self, f: &mut fmt::Formatter<W>) -> fmt::Result {
        write!(f, "{}", self.number())?;
        match self.place() {
            Some(place) => write!(f, " {place}"),
            None => Ok(()),
        }
    }
}

impl Error for Refusal {}
