// Channel files of a register (document 02, F-7) read and compiled, with all their refusals: 4, 1, 20, 5 to 10 and 13. They have other numbers
// than those of lib.rt, and no meet entries, so their callers lend no buffer for these.
ghost use Rattle.std.specs.Prelude.{◌≡◌, []};
ghost use Rattle.values.specs.HandedIn.{setup_of};
ghost use Rattle.channel_io.specs.FileReading.{ReadsRegisterFile};
ghost use Rattle.channel_io.specs.FileCompilation.{CompilesRegisterFile};
ghost use Rattle.channel_io.specs.RegisterSteps.{numbers_in, held_setup, held_nodes};

use crate::{FileTable, Pair};
use channel_file::registers::{Form, ReadArrays, read_arrays};
use refusal::Refusal;
use values::{SetUp, Values};

// The numbers of a file: those of its set-up, and how many nodes it has.
#[derive(Clone, Copy)]
pub struct FileNumbers {
    pub events: usize,
    pub lines: usize,
    pub nodes: usize,
}

impl From<Form> for FileNumbers {
    ghost from_gives = { λ form numbers. numbers ≡ numbers_in form };

    fn from(form: Form) -> FileNumbers {
        FileNumbers {
            events: form.events,
            lines: form.lines,
            nodes: form.items,
        }
    }
}

// The set-up and the nodes that are judged of what was read; nodes over the limit, for which the array has no room, as none.
fn pair_of<'a>(arrays: &'a ReadArrays) -> Pair<'a>
    ensures set_up { setup_of result.set_up ≡ held_setup arrays.now }
    ensures nodes { result.nodes.now ≡ held_nodes arrays.now }
{
    let form = arrays.form;
    let set_up = SetUp {
        events: form.events,
        values: Values::Register { lines: form.lines },
    };
    let node_bytes = form.items.saturating_mul(6);
    let nodes = arrays.rule.get(..node_bytes).unwrap_or(&[]);
    Pair { set_up, nodes }
}

// Reads a channel file: its rule's nodes, six bytes each, into a buffer. A register has no meet entries, and no buffer for them.
pub fn read_file(text: &[u8], rule: &mut [u8]) -> Result<FileNumbers, Refusal>
    ensures { ReadsRegisterFile text.now [] rule.old [] rule.new result }
{
    let arrays = read_arrays(text)?;
    pair_of(&arrays).keep(&mut [], rule)?;
    Ok(FileNumbers::from(arrays.form))
}

// The table of a channel file's rule, five bytes an entry, into a buffer: 4, 1, 20, 5 to 10, 13.
pub fn compile_file(text: &[u8], to: &mut [u8]) -> Result<FileTable<FileNumbers>, Refusal>
    ensures { CompilesRegisterFile text.now [] to.old [] to.new result }
{
    let arrays = read_arrays(text)?;
    let states = pair_of(&arrays).compile(&mut [], to)?;
    Ok(FileTable {
        numbers: FileNumbers::from(arrays.form),
        states,
    })
}
