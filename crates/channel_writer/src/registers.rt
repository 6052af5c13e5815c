// Writing the channel file of a register (document 02, F-7).
ghost use Rattle.text_output.specs.Output.{Puts};
ghost use Rattle.channel_writer.specs.RegisterWriting.{node_tokens, contents_of, WritesContents};
ghost use Rattle.channel_writer.specs.Steps.{IsSome, register_text};

use crate::{has_tokens, put_line, put_rule};
use channel_file::Values;
use limits::FILE_LIMIT;
use refusal::Refusal;

fn put_lines(out: &mut [u8], events: u8, lines: u8, nodes: &[u8]) -> usize
    requires { IsSome (node_tokens nodes.now) }
    ensures { Puts out.old (register_text events lines nodes.now) out.new 0 result }
{
    let a = put_line(out, 0, b"events=", events);
    let b = put_line(out, a, b"lines=", lines);
    put_rule(out, b, nodes, Values::Register)
}

// Writes the text of a set-up's numbers and a rule's nodes, six bytes each: 5 without nodes, or where a node has no token; 13 for a text
// over 4,096 bytes or longer than the buffer; else its length.
pub fn write_text(events: u8, lines: u8, nodes: &[u8], out: &mut [u8]) -> Result<usize, Refusal>
    ensures { WritesContents (contents_of events lines (node_tokens nodes.now)) out.old out.new result }
{
    if nodes.is_empty() || !has_tokens(nodes, Values::Register) {
        return Err(Refusal::NodeCount);
    }
    // into no buffer first, for its length
    let size = put_lines(&mut [], events, lines, nodes);
    if FILE_LIMIT.min(out.len()) < size {
        return Err(Refusal::BufferLength);
    }
    put_lines(out, events, lines, nodes);
    Ok(size)
}
