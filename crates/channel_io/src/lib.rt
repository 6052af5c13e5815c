// Channel files read, written and compiled, with all their refusals: 4, 1 to 3, 5 to 10 and 13. Those of a register, with 20 in the place of 2
// and 3, are read and compiled by registers.rt.
#![tactic(auto)]

pub mod registers;

ghost use Rattle.std.specs.Prelude.{◌≡◌, cond, ltb};
ghost use Rattle.refusal.specs.RefusalAnswers.{judgement};
ghost use Rattle.values.specs.HandedIn.{setup_of};
ghost use Rattle.channel_io.specs.FileRefusals.{pair_refusal};
ghost use Rattle.channel_io.specs.FileReading.{ReadsFile};
ghost use Rattle.channel_io.specs.FileCompilation.{CompilesFile};
ghost use Rattle.channel_io.specs.FileWriting.{WritesRule};
ghost use Rattle.channel_io.specs.Steps.{numbers_in, held_setup, held_nodes, Keeps, Makes};

use channel_file::{Form, ReadArrays, read_arrays};
use channel_writer::write_text;
use formulas::check_rule;
use refusal::Refusal;
use synthesis::compile;
use text_output::put_word;
use values::{SetUp, Values};

// The numbers of a file: those of its set-up, and how many meet entries and nodes it has.
#[derive(Clone, Copy)]
pub struct FileNumbers {
    pub events: usize,
    pub values: usize,
    pub top: usize,
    pub entries: usize,
    pub nodes: usize,
}

// The numbers of a file of either form, and the states of its rule's table.
#[derive(Clone, Copy)]
pub struct FileTable<N> {
    pub numbers: N,
    pub states: usize,
}

// A set-up and the nodes of a rule.
#[derive(Clone, Copy)]
struct Pair<'a> {
    set_up: SetUp<'a>,
    nodes: &'a [u8],
}

impl<'a> Pair<'a> {
    // 1 to 3 or 1 and 20 for the set-up, then 5 to 9 for the rule.
    fn check(self) -> Result<(), Refusal>
        ensures { result ≡ judgement (pair_refusal (setup_of self.entry.set_up) self.entry.nodes.now) }
    {
        let values = self.set_up.check_by_sets()?;
        check_rule(self.set_up.events, values.kind, self.nodes)
    }

    // The meet entries, of which registers have none.
    fn entries(self) -> &'a [u8]
        ensures { result.now ≡ (setup_of self.entry.set_up).meet }
    {
        match self.set_up.values {
            Values::Numbered { meet, .. } => meet,
            Values::Register { .. } => &[],
        }
    }

    // The meet entries and the nodes, judged and put into two buffers; both are looked at before any is written.
    fn keep(self, meet: &mut [u8], rule: &mut [u8]) -> Result<(), Refusal>
        ensures { Keeps (setup_of self.entry.set_up) self.entry.nodes.now meet.old rule.old meet.new rule.new result }
    {
        self.check()?;
        let entries = self.entries();
        if meet.len() < entries.len() {
            return Err(Refusal::BufferLength);
        }
        if rule.len() < self.nodes.len() {
            return Err(Refusal::BufferLength);
        }
        meet[..entries.len()].copy_from_slice(entries);
        rule[..self.nodes.len()].copy_from_slice(self.nodes);
        Ok(())
    }

    // The table and the meet entries, put into two buffers: the states. A table has at least one byte, so that it has no room where the
    // entries have none.
    fn compile(self, meet: &mut [u8], to: &mut [u8]) -> Result<usize, Refusal>
        ensures { Makes (setup_of self.entry.set_up) self.entry.nodes.now meet.old to.old meet.new to.new result }
    {
        let entries = self.entries();
        let room = table_room(entries.len(), meet.len(), to.len());
        let states = compile(self.set_up, self.nodes, &mut to[..room])?;
        // Byte by byte: `copy_from_slice` would have the static library ask for memmove.
        put_word(meet, 0, entries);
        Ok(states)
    }
}

// The room for a table: none where so many entries have no room. A function of its own, so that its callers' proofs see one fact.
fn table_room(entries: usize, meet: usize, to: usize) -> usize
    ensures { result ≡ cond (ltb meet entries) 0 to }
{
    if meet < entries { 0 } else { to }
}

impl From<Form> for FileNumbers {
    ghost from_gives = { λ form numbers. numbers ≡ numbers_in form };

    fn from(form: Form) -> FileNumbers {
        FileNumbers {
            events: form.events,
            values: form.values,
            top: form.top,
            entries: form.entries,
            nodes: form.items,
        }
    }
}

// The set-up and the nodes that are judged of what was read. Entries and nodes over the limit have no room in the arrays: they are at fault by
// their count, as none are.
fn pair_of<'a>(arrays: &'a ReadArrays) -> Pair<'a>
    ensures set_up { setup_of result.set_up ≡ held_setup arrays.now }
    ensures nodes { result.nodes.now ≡ held_nodes arrays.now }
{
    let form = arrays.form;
    let meet = arrays.meet.get(..form.entries).unwrap_or(&[]);
    let set_up = SetUp {
        events: form.events,
        values: Values::Numbered {
            values: form.values,
            top: form.top,
            meet,
        },
    };
    let node_bytes = form.items.saturating_mul(3);
    let nodes = arrays.rule.get(..node_bytes).unwrap_or(&[]);
    Pair { set_up, nodes }
}

// Reads a channel file: its meet entries into one buffer and its rule's nodes, three bytes each, into the other.
pub fn read_file(text: &[u8], meet: &mut [u8], rule: &mut [u8]) -> Result<FileNumbers, Refusal>
    ensures { ReadsFile text.now meet.old rule.old meet.new rule.new result }
{
    let arrays = read_arrays(text)?;
    pair_of(&arrays).keep(meet, rule)?;
    Ok(FileNumbers::from(arrays.form))
}

// The table of a channel file's rule, two bytes an entry, into one buffer, and the file's meet entries into the other: 4, 1 to 3,
// 5 to 10, 13.
pub fn compile_file(
    text: &[u8],
    meet: &mut [u8],
    to: &mut [u8],
) -> Result<FileTable<FileNumbers>, Refusal>
    ensures { CompilesFile text.now meet.old to.old meet.new to.new result }
{
    let arrays = read_arrays(text)?;
    let states = pair_of(&arrays).compile(meet, to)?;
    Ok(FileTable {
        numbers: FileNumbers::from(arrays.form),
        states,
    })
}

// Writes the channel file of a set-up and the nodes of a rule, three bytes each; those of a register have six.
pub fn write_file(set_up: SetUp<'_>, rule: &[u8], to: &mut [u8]) -> Result<usize, Refusal>
    ensures { WritesRule set_up.entry rule.now to.old to.new result }
{
    let pair = Pair {
        set_up,
        nodes: rule,
    };
    pair.check()?;
    // an accepted set-up has meet entries or is a register's, and an accepted rule has a token for each node: 13 alone is left
    let events = set_up.events as u8;
    match set_up.values {
        Values::Numbered { values, top, meet } => {
            write_text(events, values as u8, top as u8, meet, rule, to)
        }
        Values::Register { lines } => {
            channel_writer::registers::write_text(events, lines as u8, rule, to)
        }
    }
}
