// A line of commands: its words, its numbers and lists, and the command that it names.
#![tactic(auto)]

ghost use Rattle.std.specs.Prelude.{◌≡◌, ◌<◌, take, drop, option_map};
ghost use Rattle.values.specs.Setup.{mask_bytes};
ghost use Rattle.text_output.specs.Output.{Puts};
ghost use Rattle.command_line.specs.declared.Item.TheVariants.{Value, Number};
ghost use Rattle.command_line.specs.Words.{words, before, after_spaces, rest, word};
ghost use Rattle.command_line.specs.Parts.{before_divider, first_part, second_part};
ghost use Rattle.command_line.specs.Numbers.{number_of, number_limit, capped};
ghost use Rattle.command_line.specs.Lists.{clamp_mask, low_part, high_part, item_of, list_of, Lists, large, large_item, any_large};
ghost use Rattle.command_line.specs.Names.{equal, named};
ghost use Rattle.command_line.specs.Steps.{PutsAny};

use text_output::{put, put_word};

// A number above this one stands as this one, which is one more than the most pulses of an event and legal in no place of a line.
pub const NUMBER_LIMIT: usize = 4294967296;

// Why no list is stored: a word is malformed, or the buffer is too short.
#[derive(Clone, Copy, Debug, PartialEq, Eq)]
pub enum ListError {
    Malformed,
    Short,
}

// The commands.
#[derive(Clone, Copy, Debug, PartialEq, Eq)]
pub enum Command {
    Setup,
    Register,
    Wheel,
    Table,
    Load,
    Event,
    Events,
    Restart,
    Clear,
    Show,
    Device,
    Trial,
    Covers,
    Write,
    Dot,
    Help,
}

// What a word of a list is: a register's value LOW.HIGH, or a number.
#[derive(Clone, Copy)]
enum Item {
    Value,
    Number,
}

// The words of a text.
#[derive(Drop)]
struct Words<'a>(&'a [u8]);

impl<'a> Iterator for Words<'a> {
    ghost use Rattle.std.specs.Iterator.{YieldsFirstBy, item_count};
    ghost use Rattle.command_line.specs.Words.{words};

    type Item = &'a [u8];

    ghost next_gives = { YieldsFirstBy (λ w. w.now) (λ s. words s.0.now) };

    ghost remaining = { item_count (λ s. words s.0.now) };

    fn next(&mut self) -> Option<&'a [u8]> {
        let (word, behind) = split_once(skip_spaces(self.0), b' ');
        self.0 = behind;
        if word.is_empty() { None } else { Some(word) }
    }
}

// What stands before the first byte `stop` of a text, all of it where there is none; and what stands behind that byte.
fn split_once(text: &[u8], stop: u8) -> (&[u8], &[u8])
    ensures before { result.0.now ≡ take (before stop text.now) text.now }
    ensures behind { result.1.now ≡ drop 1 (drop (before stop text.now) text.now) }
{
    match text.iter().position(|&b| b == stop) {
        Some(i) => (&text[..i], &text[i + 1..]),
        None => (text, &[]),
    }
}

fn skip_spaces(text: &[u8]) -> &[u8]
    ensures { result.now ≡ after_spaces text.now }
{
    match text.iter().position(|&b| b != b' ') {
        Some(i) => &text[i..],
        None => &[],
    }
}

// The line from its word n on.
pub fn rest(line: &[u8], n: usize) -> &[u8]
    ensures { result.now ≡ rest n line.now }
{
    let mut text = skip_spaces(line);
    for _ in 0..n {
        if text.is_empty() {
            return text;
        }
        text = skip_spaces(split_once(text, b' ').1);
    }
    text
}

// Word n of a line; empty where there is none.
#[tactic(auto, using(crate::proofs::WordLemmas::word_is))]
pub fn word(line: &[u8], n: usize) -> &[u8]
    ensures { result.now ≡ word n line.now }
{
    split_once(rest(line, n), b' ').0
}

// The first n bytes; all where there are fewer.
pub fn front(bytes: &[u8], n: usize) -> &[u8]
    ensures { result.now ≡ take n bytes.now }
{
    &bytes[..n.min(bytes.len())]
}

// The number that a word is.
pub fn read_number(word: &[u8]) -> Option<usize>
    ensures { result ≡ option_map capped (number_of word.now) }
{
    if word.is_empty() {
        return None;
    }
    let mut v = 0;
    for b in word {
        if !b.is_ascii_digit() {
            return None;
        }
        v = (v * 10 + usize::from(*b - b'0')).min(NUMBER_LIMIT);
    }
    Some(v)
}

// A mask in two bytes. This and the functions below put bytes into a buffer as text_output does.
fn put_mask(out: &mut [u8], at: usize, v: usize) -> usize
    ensures { Puts out.old (mask_bytes (clamp_mask v)) out.new at result }
{
    let mask = v.min(65535) as u16;
    put_word(out, at, &mask.to_le_bytes())
}

// The two sides of a word LOW.HIGH.
fn sides(word: &[u8]) -> (&[u8], &[u8])
    ensures low { result.0.now ≡ low_part word.now }
    ensures high { result.1.now ≡ high_part word.now }
{
    split_once(word, b'.')
}

// The bytes of a word LOW.HIGH, unless it is malformed.
fn put_value(out: &mut [u8], at: usize, word: &[u8]) -> Option<usize>
    ensures { PutsAny out.old out.new at (item_of Value word.now) result }
{
    let (low, high) = sides(word);
    let low = read_number(low)?;
    let high = read_number(high)?;
    let n = put_mask(out, at, low);
    Some(put_mask(out, n, high))
}

fn put_item(out: &mut [u8], at: usize, item: Item, word: &[u8]) -> Option<usize>
    ensures { PutsAny out.old out.new at (item_of item word.now) result }
{
    match item {
        Item::Value => put_value(out, at, word),
        Item::Number => {
            let v = read_number(word)?;
            Some(put(out, at, v.min(255) as u8))
        }
    }
}

// The bytes of a list, unless a word is malformed. Here and below the words are by turns `first` and a number.
fn put_list(out: &mut [u8], first: Item, text: &[u8]) -> Option<usize>
    ensures { PutsAny out.old out.new 0 (list_of first text.now) result }
{
    let mut this = first;
    let mut that = Item::Number;
    let mut n = 0;
    for word in Words(text) {
        n = put_item(out, n, this, word)?;
        (this, that) = (that, this);
    }
    Some(n)
}

// The bytes of a list, first into an empty array, which tells how many there are.
fn read_list(first: Item, text: &[u8], to: &mut [u8]) -> Result<usize, ListError>
    ensures { Lists first text.now to.old to.new result }
{
    let n = put_list(&mut [], first, text).ok_or(ListError::Malformed)?;
    if to.len() < n {
        return Err(ListError::Short);
    }
    put_list(to, first, text);
    Ok(n)
}

// The numbers of a text into a lent buffer, a number above 255 as 255.
pub fn read_numbers(text: &[u8], to: &mut [u8]) -> Result<usize, ListError>
    ensures { Lists Number text.now to.old to.new result }
{
    read_list(Item::Number, text, to)
}

// The entries of a register's table, LOW.HIGH NEXT LOW.HIGH NEXT.., into a lent buffer, five bytes each: the masks, each mask's low byte first, a
// mask above 65,535 as 65,535; then the next state, one above 255 as 255.
pub fn read_masked(text: &[u8], to: &mut [u8]) -> Result<usize, ListError>
    ensures { Lists Value text.now to.old to.new result }
{
    read_list(Item::Value, text, to)
}

// Whether a word is a number above a limit.
fn is_above(limit: usize, word: &[u8]) -> bool
    requires { limit < number_limit }
    ensures { result ≡ large limit (number_of word.now) }
{
    read_number(word).is_some_and(|v| limit < v)
}

// Whether a word has a number that its bytes do not hold.
fn is_large(item: Item, word: &[u8]) -> bool
    ensures { result ≡ large_item item word.now }
{
    match item {
        Item::Value => {
            let (low, high) = sides(word);
            is_above(65535, low) || is_above(65535, high)
        }
        Item::Number => is_above(255, word),
    }
}

#[tactic(auto, unfolding(crate::specs::Lists::any_large))]
fn any_large(first: Item, text: &[u8]) -> bool
    ensures { result ≡ any_large first Number (words text.now) }
{
    let mut this = first;
    let mut that = Item::Number;
    for word in Words(text) {
        if is_large(this, word) {
            return true;
        }
        (this, that) = (that, this);
    }
    false
}

// Whether a word of a text is a number above 255, which no byte holds.
pub fn has_large(text: &[u8]) -> bool
    ensures { result ≡ any_large Number Number (words text.now) }
{
    any_large(Item::Number, text)
}

// Whether the entries of a register's table have a mask above 65,535 or a next state above 255.
pub fn has_large_masked(text: &[u8]) -> bool
    ensures { result ≡ any_large Value Number (words text.now) }
{
    any_large(Item::Value, text)
}

// Whether two lists of bytes are the same.
pub fn equal(a: &[u8], b: &[u8]) -> bool
    ensures { result ≡ equal a.now b.now }
{
    a == b
}

// The offset of the first ` / ` of a text; its length where there is none.
fn find_divider(text: &[u8]) -> usize
    ensures { result ≡ before_divider text.now }
{
    for i in 0..text.len() {
        if text[i..].starts_with(b" / ") {
            return i;
        }
    }
    text.len()
}

// What stands before the first ` / ` of a text; all of it where there is none.
pub fn first_part(text: &[u8]) -> &[u8]
    ensures { result.now ≡ first_part text.now }
{
    front(text, find_divider(text))
}

// What stands behind the first ` / ` of a text; nothing where there is none.
pub fn second_part(text: &[u8]) -> &[u8]
    ensures { result.now ≡ second_part text.now }
{
    text.get(find_divider(text) + 3..).unwrap_or(&[])
}

// The command that a word names.
pub fn read_command(word: &[u8]) -> Option<Command>
    ensures { result ≡ named word.now }
{
    match word {
        b"setup" => Some(Command::Setup),
        b"register" => Some(Command::Register),
        b"wheel" => Some(Command::Wheel),
        b"table" => Some(Command::Table),
        b"load" => Some(Command::Load),
        b"event" => Some(Command::Event),
        b"events" => Some(Command::Events),
        b"restart" => Some(Command::Restart),
        b"clear" => Some(Command::Clear),
        b"show" => Some(Command::Show),
        b"device" => Some(Command::Device),
        b"trial" => Some(Command::Trial),
        b"covers" => Some(Command::Covers),
        b"write" => Some(Command::Write),
        b"dot" => Some(Command::Dot),
        b"help" => Some(Command::Help),
        _ => None,
    }
}
