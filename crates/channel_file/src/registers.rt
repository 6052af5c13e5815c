// The channel file of a register (document 02, F-7): its form and refusal 4, the bytes read from it, and the stretch of its tokens.
ghost use Rattle.std.specs.Prelude.{◌≡◌};
ghost use Rattle.refusal.specs.declared.Refusal.TheVariants.{TextForm};
ghost use Rattle.text_format.specs.Format.{read};
ghost use Rattle.channel_file.specs.Bytes.{ReadsTokens};
ghost use Rattle.channel_file.specs.RegisterFormat.{file};
ghost use Rattle.channel_file.specs.RegisterReading.{checked, read_file, read_tokens, tokens_stretch, node, arrays_of};
ghost use Rattle.channel_file.specs.RegisterSteps.{ReadsForm};

use crate::{LIST_KEY, Reader, Values, list_tokens};
use limits::{FILE_LIMIT, NODE_LIMIT};
use refusal::Refusal;

// What is found of a text: its numbers, how many rule items it has, and where these start.
#[derive(Clone, Copy)]
pub struct Form {
    pub events: usize,
    pub lines: usize,
    pub items: usize,
    pub rule_at: usize,
}

// No rule has more nodes, six bytes each.
const NODE_BYTES: usize = NODE_LIMIT * 6;

// What is read of a text: its form; and its rule's nodes, six bytes each: a numeral above 255 as 255, and a node whose masks 16 bits do not
// hold with kind 255. They go as far as the array goes, with 0 behind them.
#[derive(Clone, Copy)]
pub struct ReadArrays {
    pub form: Form,
    pub rule: [u8; NODE_BYTES],
}

// The form without its length limit. Each line is read once: its items are stored as far as there is room.
fn read_lines(text: &[u8], rule: &mut [u8]) -> Result<Form, usize>
    ensures { ReadsForm (λ p. p) (read file text.now) rule.old rule.new result }
{
    let mut reader = Reader { text, at: 0 };
    let events = reader.number(b"events=")?;
    let lines = reader.number(b"lines=")?;
    let rule_at = reader.at + LIST_KEY;
    let items = reader.items(Values::Register, rule)?;
    if reader.at < text.len() {
        return Err(reader.at);
    }
    Ok(Form {
        events,
        lines,
        items,
        rule_at,
    })
}

// The form, with what is stored of it where it is not refused.
fn read_form(text: &[u8], rule: &mut [u8]) -> Result<Form, Refusal>
    ensures { ReadsForm TextForm (read_file text.now) rule.old rule.new result }
{
    if FILE_LIMIT < text.len() {
        return Err(Refusal::TextForm(FILE_LIMIT));
    }
    read_lines(text, rule).map_err(Refusal::TextForm)
}

// Refusal 4: the numbers of a text and where its items are, or 4 with the place where it is refused.
pub fn check_form(text: &[u8]) -> Result<Form, Refusal>
    ensures { result ≡ checked (read_file text.now) }
{
    let mut rule = [0u8; 0];
    read_form(text, &mut rule)
}

// Reads a text in one pass. The count is that of the text, also where the array has no room for all of it.
pub fn read_arrays(text: &[u8]) -> Result<ReadArrays, Refusal>
    ensures { result ≡ arrays_of (read_file text.now) }
{
    let mut rule = [0u8; NODE_BYTES];
    let form = read_form(text, &mut rule)?;
    Ok(ReadArrays { form, rule })
}

// The stretch of the text that holds the rule's tokens; empty for a text that 4 refuses.
pub fn tokens(text: &[u8]) -> &[u8]
    ensures { result.now ≡ tokens_stretch text.now (read_file text.now) }
{
    match check_form(text) {
        Ok(Form { rule_at, .. }) => &text[rule_at..text.len() - 1],
        Err(_) => &[],
    }
}

// Reads tokens with one space between, as they stand in a rule line, into a buffer as far as there is room: six bytes a node. Nothing is
// written where the text is no list of tokens.
pub fn read_tokens(text: &[u8], out: &mut [u8]) -> Option<usize>
    ensures { ReadsTokens node (read_tokens text.now) out.old out.new result }
{
    list_tokens(text, Values::Register, out)
}
