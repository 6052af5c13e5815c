// Writing a channel file. A register's is written by registers.rt; the two share what puts numbers, tokens and the rule's line.
#![tactic(auto)]

pub mod registers;

ghost use Rattle.std.specs.Prelude.{◌≡◌, ◌++◌, cond, ◌+◌, ◌<◌, ◌≤◌, ltb, length};
ghost use Rattle.text_format.specs.Texts.{ascii};
ghost use Rattle.text_output.specs.Output.{Puts};
ghost use Rattle.channel_file.specs.ChannelFile.{number, line};
ghost use Rattle.channel_file.specs.FileFormat.{entries};
ghost use Rattle.channel_file.specs.RegisterFile.{mask};
ghost use Rattle.channel_writer.specs.Writing.{node_tokens, contents_of, WritesContents};
ghost use Rattle.channel_writer.specs.Steps.{is_some, IsSome, has_with, width, mask_at, value_at, value_text};
ghost use Rattle.channel_writer.specs.Steps.{is_unused, tokens_of, node_at, nodes_text, lines_text};

use channel_file::Values;
use limits::FILE_LIMIT;
use refusal::Refusal;
use text_output::{put, put_field, put_word};

// Whether a kind and a first field have a token, by whether the value is unused: 0.
fn has_token(k: u8, a: u8, unused: bool) -> bool
    ensures { result ≡ has_with unused k a }
{
    match k {
        0 | 4 | 5 => unused && a == 0,
        1 | 2 => unused,
        3 => true,
        _ => false,
    }
}

// The bytes of a node.
fn width_of(values: Values) -> usize
    ensures { result ≡ width values }
{
    match values {
        Values::Numbered => 3,
        Values::Register => 6,
    }
}

// A mask, its low byte first.
fn mask_of(nodes: &[u8], i: usize) -> usize
    requires { i + 2 ≤ length nodes.now }
    ensures { (result ≡ mask_at nodes.now i) × (result < 65536) }
{
    usize::from(nodes[i]) + 256 * usize::from(nodes[i + 1])
}

// Whether the value of the node at an offset is 0.
fn unused_at(nodes: &[u8], i: usize, values: Values) -> bool
    requires { i + width values ≤ length nodes.now }
    ensures { result ≡ is_unused values (value_at values nodes.now (i + 2)) }
{
    let j = i + 2;
    match values {
        Values::Numbered => nodes[j] == 0,
        Values::Register => mask_of(nodes, j) == 0 && mask_of(nodes, j + 2) == 0,
    }
}

// Whether bytes are whole nodes that have tokens.
fn has_tokens(nodes: &[u8], values: Values) -> bool
    ensures { result ≡ is_some (tokens_of values nodes.now) }
{
    let size = width_of(values);
    let mut at = 0;
    while at < nodes.len() {
        if nodes.len() - at < size {
            return false;
        }
        if !has_token(nodes[at], nodes[at + 1], unused_at(nodes, at, values)) {
            return false;
        }
        at += size;
    }
    true
}

// The byte behind an item, where n is the count of bytes and the next item starts at i.
fn behind(i: usize, n: usize) -> u8
    ensures { result ≡ cond (ltb i n) 32 10 }
{
    if i < n { b' ' } else { b'\n' }
}

// A key and a number. This and the functions below put their texts into a buffer as those of text_output do.
fn put_keyed(out: &mut [u8], at: usize, key: &[u8], v: u8) -> usize
    ensures { Puts out.old (key.now ++ number v) out.new at result }
{
    put_field(out, at, key, usize::from(v))
}

fn put_line(out: &mut [u8], at: usize, key: &[u8], v: u8) -> usize
    ensures { Puts out.old (line key.now (number v)) out.new at result }
{
    let n = put_keyed(out, at, key, v);
    put(out, n, b'\n')
}

// A dot and a mask.
fn put_mask(out: &mut [u8], at: usize, m: usize) -> usize
    requires { m < 65536 }
    ensures { Puts out.old (ascii "." ++ mask m) out.new at result }
{
    put_field(out, at, b".", m)
}

// A dot and the value of the node at an offset.
fn put_value(out: &mut [u8], at: usize, nodes: &[u8], i: usize, values: Values) -> usize
    requires { i + width values ≤ length nodes.now }
    ensures { Puts out.old (ascii "." ++ value_text values (value_at values nodes.now (i + 2))) out.new at result }
{
    let j = i + 2;
    match values {
        Values::Numbered => put_keyed(out, at, b".", nodes[j]),
        Values::Register => {
            let n = put_mask(out, at, mask_of(nodes, j));
            put_mask(out, n, mask_of(nodes, j + 2))
        }
    }
}

// The token of the node at an offset.
fn put_token(out: &mut [u8], at: usize, nodes: &[u8], i: usize, values: Values) -> usize
    requires { i + width values ≤ length nodes.now }
    ensures { Puts out.old (node_at values nodes.now i) out.new at result }
{
    let k = nodes[i];
    let a = nodes[i + 1];
    match k {
        0 => put_word(out, at, b"T"),
        1 => put_keyed(out, at, b"X", a),
        2 => put_keyed(out, at, b"G", a),
        3 => {
            let n = put_keyed(out, at, b"O", a);
            put_value(out, n, nodes, i, values)
        }
        4 => put_word(out, at, b"A"),
        5 => put_word(out, at, b"V"),
        _ => put_word(out, at, b""),
    }
}

// The line of the meet entries.
fn put_meet(out: &mut [u8], at: usize, meet: &[u8]) -> usize
    ensures { Puts out.old (ascii "meet=" ++ entries.print meet.now) out.new at result }
{
    let mut n = put_word(out, at, b"meet=");
    for (i, v) in meet.iter().enumerate() {
        let m = put_keyed(out, n, b"", *v);
        n = put(out, m, behind(i + 1, meet.len()));
    }
    n
}

// The line of the rule.
fn put_rule(out: &mut [u8], at: usize, nodes: &[u8], values: Values) -> usize
    requires { IsSome (tokens_of values nodes.now) }
    ensures { Puts out.old (ascii "rule=" ++ nodes_text values nodes.now) out.new at result }
{
    let size = width_of(values);
    let mut n = put_word(out, at, b"rule=");
    let mut i = 0;
    while i < nodes.len() {
        let m = put_token(out, n, nodes, i, values);
        i += size;
        n = put(out, m, behind(i, nodes.len()));
    }
    n
}

fn put_lines(out: &mut [u8], events: u8, values: u8, top: u8, meet: &[u8], nodes: &[u8]) -> usize
    requires { IsSome (node_tokens nodes.now) }
    ensures { Puts out.old (lines_text events values top meet.now nodes.now) out.new 0 result }
{
    let a = put_line(out, 0, b"events=", events);
    let b = put_line(out, a, b"values=", values);
    let d = put_line(out, b, b"top=", top);
    let f = put_meet(out, d, meet);
    put_rule(out, f, nodes, Values::Numbered)
}

// Writes the text of a set-up's numbers, its meet entries and a rule's nodes: 5 without entries, without nodes, or where a node has no
// token; 13 for a text over 4,096 bytes or longer than the buffer; else its length.
pub fn write_text(
    events: u8,
    values: u8,
    top: u8,
    meet: &[u8],
    nodes: &[u8],
    out: &mut [u8],
) -> Result<usize, Refusal>
    ensures { WritesContents (contents_of events values top meet.now (node_tokens nodes.now))
        out.old out.new result }
{
    if meet.is_empty() || nodes.is_empty() || !has_tokens(nodes, Values::Numbered) {
        return Err(Refusal::NodeCount);
    }
    // into no buffer first, for its length
    let size = put_lines(&mut [], events, values, top, meet, nodes);
    if FILE_LIMIT.min(out.len()) < size {
        return Err(Refusal::BufferLength);
    }
    put_lines(out, events, values, top, meet, nodes);
    Ok(size)
}
