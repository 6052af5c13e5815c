// The channel file: its form and refusal 4, the bytes read from it, and the stretch of its tokens. A register's file has a reader of its
// own, in registers.rt; the two share what reads numbers, words, tokens and lines.
#![tactic(auto)]

pub mod registers;

ghost use Rattle.std.specs.Prelude.{◌≡◌, ◌∷◌, [], ◌≤◌, length};
ghost use Rattle.refusal.specs.declared.Refusal.TheVariants.{TextForm};
ghost use Rattle.text_format.specs.Format.{read};
ghost use Rattle.text_format.specs.Decimal.{numeral_parse};
ghost use Rattle.text_output.specs.Output.{Puts};
ghost use Rattle.channel_file.specs.FileFormat.{field, entries, meet_line, file};
ghost use Rattle.channel_file.specs.Reading.{checked, read_file, read_tokens, read_closed, tokens_stretch};
ghost use Rattle.channel_file.specs.Bytes.{clamp, entry, node, arrays_of, ReadsTokens};
ghost use Rattle.channel_file.specs.RegisterReading.{mask_bytes, narrow_kind, masked};
ghost use Rattle.channel_file.specs.Steps.{token_of, item_kind, item_first, item_masks, code, items_format, rule_format};
ghost use Rattle.channel_file.specs.Steps.{SawByte, SawNumber, SawEnded, SawEnd, SawEntry, SawValue, SawToken, SawItem, SawWord};
ghost use Rattle.channel_file.specs.Steps.{reached, StoresItems, ReadsForm, StoresTokens};

use limits::{FILE_LIMIT, MEET_LIMIT, NODE_LIMIT};
use refusal::Refusal;
use text_output::put;

// What is found of a text: its numbers, how many meet entries and rule items it has, and where these start.
#[derive(Clone, Copy)]
pub struct Form {
    pub events: usize,
    pub values: usize,
    pub top: usize,
    pub entries: usize,
    pub meet_at: usize,
    pub items: usize,
    pub rule_at: usize,
}

// No rule has more nodes, three bytes each.
const NODE_BYTES: usize = NODE_LIMIT * 3;

// What is read of a text: its form; its meet entries, one byte each; and its rule's nodes, three bytes each, a numeral above 255 as 255.
// Both as far as the arrays go, with 0 behind them.
#[derive(Clone, Copy)]
pub struct ReadArrays {
    pub form: Form,
    pub meet: [u8; MEET_LIMIT],
    pub rule: [u8; NODE_BYTES],
}

// The kind of values that O's have: numbers, or the two masks of a register.
#[derive(Clone, Copy)]
pub enum Values {
    Numbered,
    Register,
}

// A token of the rule line. O has an event and two numbers: a value and 0, or the low and the high mask.
#[derive(Clone, Copy)]
enum Item {
    Truth,
    Both,
    Binder,
    Variable(usize),
    Next(usize),
    Output(usize, usize, usize),
}

// Bytes of `meet=` and of `rule=`.
const LIST_KEY: usize = 5;

// How many digits may follow the first: of a number, and of a mask.
const NUMBER_MORE: usize = 2;

const MASK_MORE: usize = 4;

// The greatest mask of 16 bits.
const MASK_LIMIT: usize = 65535;

// What stands behind an item.
#[derive(Clone, Copy)]
enum Behind {
    Space,
    Newline,
}

// What was read and the offset behind it; or the offset where the text cannot go on.
type Seen<T> = Result<(T, usize), usize>;

// The byte at an offset.
fn byte_at(text: &[u8], at: usize) -> Result<u8, usize>
    ensures { SawByte text.now at result }
{
    text.get(at).copied().ok_or(at)
}

// A numeral without leading zero, of one digit and up to so many more.
fn number_at(text: &[u8], at: usize, more: usize) -> Seen<usize>
    requires { (at ≤ length text.now) × (more ≤ 4) }
    ensures { SawNumber (numeral_parse more) text.now at result }
{
    let b = byte_at(text, at)?;
    if !b.is_ascii_digit() {
        return Err(at);
    }
    if b == b'0' {
        return Ok((0, at + 1));
    }
    let mut v = usize::from(b - b'0');
    let end = at + 1 + more;
    for i in at + 1..end {
        match byte_at(text, i) {
            Ok(d) if d.is_ascii_digit() => v = v * 10 + usize::from(d - b'0'),
            _ => return Ok((v, i)),
        }
    }
    Ok((v, end))
}

// A numeral and the one byte that may end it.
fn ended_at(text: &[u8], at: usize, more: usize, end: u8) -> Seen<usize>
    requires { (at ≤ length text.now) × (more ≤ 4) }
    ensures { SawEnded more end text.now at result }
{
    let (v, i) = number_at(text, at, more)?;
    if byte_at(text, i)? == end {
        Ok((v, i + 1))
    } else {
        Err(i)
    }
}

fn end_at(text: &[u8], at: usize) -> Seen<Behind>
    requires { at ≤ length text.now }
    ensures { SawEnd text.now at result }
{
    let end = match byte_at(text, at)? {
        b'\n' => Behind::Newline,
        b' ' => Behind::Space,
        _ => return Err(at),
    };
    Ok((end, at + 1))
}

// An entry of the meet line.
fn entry_at(text: &[u8], at: usize) -> Seen<(usize, Behind)>
    requires { at ≤ length text.now }
    ensures { SawEntry text.now at result }
{
    let (v, i) = number_at(text, at, NUMBER_MORE)?;
    let (end, next) = end_at(text, i)?;
    Ok(((v, end), next))
}

// A value, up to what stands behind it: a numeral and 0, or two masks with a dot between.
fn value_at(text: &[u8], at: usize, values: Values) -> Seen<(usize, usize)>
    requires { at ≤ length text.now }
    ensures { SawValue values text.now at result }
{
    match values {
        Values::Numbered => {
            let (v, next) = number_at(text, at, NUMBER_MORE)?;
            Ok(((v, 0), next))
        }
        Values::Register => {
            let (low, i) = ended_at(text, at, MASK_MORE, b'.')?;
            let (high, next) = number_at(text, i, MASK_MORE)?;
            Ok(((low, high), next))
        }
    }
}

// A token, up to what stands behind it.
fn token_at(text: &[u8], at: usize, values: Values) -> Seen<Item>
    requires { at ≤ length text.now }
    ensures { SawToken values text.now at result }
{
    let b = byte_at(text, at)?;
    let n = at + 1;
    match b {
        b'T' => Ok((Item::Truth, n)),
        b'A' => Ok((Item::Both, n)),
        b'V' => Ok((Item::Binder, n)),
        b'X' => {
            let (v, next) = number_at(text, n, NUMBER_MORE)?;
            Ok((Item::Variable(v), next))
        }
        b'G' => {
            let (e, next) = number_at(text, n, NUMBER_MORE)?;
            Ok((Item::Next(e), next))
        }
        b'O' => {
            let (e, i) = ended_at(text, n, NUMBER_MORE, b'.')?;
            let ((low, high), next) = value_at(text, i, values)?;
            Ok((Item::Output(e, low, high), next))
        }
        _ => Err(at),
    }
}

// A token of the rule line and what stands behind it.
fn item_at(text: &[u8], at: usize, values: Values) -> Seen<(Item, Behind)>
    requires { at ≤ length text.now }
    ensures { SawItem values text.now at result }
{
    let (x, i) = token_at(text, at, values)?;
    let (end, next) = end_at(text, i)?;
    Ok(((x, end), next))
}

// A word: the offset behind it.
fn word_at(text: &[u8], at: usize, key: &[u8]) -> Result<usize, usize>
    requires { at ≤ length text.now }
    ensures { SawWord key.now text.now at result }
{
    for (j, b) in key.iter().enumerate() {
        if byte_at(text, at + j)? != *b {
            return Err(at + j);
        }
    }
    Ok(at + key.len())
}

// A number as a byte, the numbers above 255 as 255.
fn clip(v: usize) -> u8
    ensures { result ≡ clamp v }
{
    v.min(255) as u8
}

impl Item {
    fn kind(self) -> u8
        ensures { result ≡ item_kind self }
    {
        match self {
            Item::Truth => 0,
            Item::Variable(_) => 1,
            Item::Next(_) => 2,
            Item::Output(_, _, _) => 3,
            Item::Both => 4,
            Item::Binder => 5,
        }
    }

    fn first(self) -> usize
        ensures { result ≡ item_first self }
    {
        match self {
            Item::Variable(n) | Item::Next(n) | Item::Output(n, _, _) => n,
            Item::Truth | Item::Both | Item::Binder => 0,
        }
    }

    // The value, or the low mask.
    fn second(self) -> usize
        ensures { result ≡ (item_masks self).low }
    {
        match self {
            Item::Output(_, v, _) => v,
            _ => 0,
        }
    }

    // The high mask.
    fn third(self) -> usize
        ensures { result ≡ (item_masks self).high }
    {
        match self {
            Item::Output(_, _, v) => v,
            _ => 0,
        }
    }
}

// Puts the three bytes of a node with a number into a buffer as text_output does; the same below of what a register's node has.
fn put_numbered(out: &mut [u8], at: usize, kind: u8, first: usize, second: usize) -> usize
    ensures { Puts out.old (kind ∷ clamp first ∷ clamp second ∷ []) out.new at result }
{
    let a = put(out, at, kind);
    let b = put(out, a, clip(first));
    put(out, b, clip(second))
}

// The two bytes of a mask, cut to 16 bits, its low byte first.
fn put_mask(out: &mut [u8], at: usize, mask: usize) -> usize
    ensures { Puts out.old (mask_bytes mask) out.new at result }
{
    let a = put(out, at, (mask % 256) as u8);
    put(out, a, (mask / 256 % 256) as u8)
}

// A kind, or 255 where 16 bits do not hold both masks.
fn narrow_kind(kind: u8, low: usize, high: usize) -> u8
    ensures { result ≡ narrow_kind kind low high }
{
    if MASK_LIMIT < low || MASK_LIMIT < high {
        255
    } else {
        kind
    }
}

// The six bytes of a node with two masks. The fields come one by one: with the item in their place reading a register's file took a twentieth
// longer, from 64 nodes on.
fn put_masked(out: &mut [u8], at: usize, kind: u8, first: usize, low: usize, high: usize) -> usize
    ensures { Puts out.old (masked kind first low high) out.new at result }
{
    let a = put(out, at, narrow_kind(kind, low, high));
    let b = put(out, a, clip(first));
    let d = put_mask(out, b, low);
    put_mask(out, d, high)
}

// The node of a token.
fn put_node(out: &mut [u8], at: usize, values: Values, x: Item) -> usize
    ensures { Puts out.old (code values (token_of values x)) out.new at result }
{
    match values {
        Values::Numbered => put_numbered(out, at, x.kind(), x.first(), x.second()),
        Values::Register => put_masked(out, at, x.kind(), x.first(), x.second(), x.third()),
    }
}

// The entries of the meet line, to its end, stored as far as there is room: how many. Not one loop with the next over closures: its contract
// would have to name a format with its laws for a type parameter, and is no plainer.
fn entries_at(text: &[u8], at: usize, out: &mut [u8]) -> Seen<usize>
    requires { at ≤ length text.now }
    ensures { StoresItems entries entry text.now at out.old out.new result }
{
    let mut i = at;
    let mut n = 0;
    let mut k = 0;
    loop {
        let ((v, end), next) = entry_at(text, i)?;
        k = put(out, k, clip(v));
        n += 1;
        match end {
            Behind::Newline => return Ok((n, next)),
            Behind::Space => i = next,
        }
    }
}

// The same of the rule line's items: the node of each. Out of line: taken into its caller it was a tenth to a fifth slower.
#[inline(never)]
fn items_at(text: &[u8], at: usize, values: Values, out: &mut [u8]) -> Seen<usize>
    requires { at ≤ length text.now }
    ensures { StoresItems (items_format values) (code values) text.now at out.old out.new result }
{
    let mut i = at;
    let mut n = 0;
    let mut k = 0;
    loop {
        let ((x, end), next) = item_at(text, i, values)?;
        k = put_node(out, k, values, x);
        n += 1;
        match end {
            Behind::Newline => return Ok((n, next)),
            Behind::Space => i = next,
        }
    }
}

// A reader of the lent text, which stands where a line starts. Each line is its number, or how many items it has, which are stored as far
// as there is room.
#[derive(Clone, Copy)]
struct Reader<'a> {
    text: &'a [u8],
    at: usize,
    ghost within: { at ≤ length text.now },
}

impl<'a> Reader<'a> {
    // A key and a numeral.
    fn number(&mut self, key: &[u8]) -> Result<usize, usize>
        ensures text { self.new.text.now ≡ self.old.text.now }
        ensures line { SawNumber (field key.now).parse self.old.text.now self.old.at (reached self.new.at result) }
    {
        let start = word_at(self.text, self.at, key)?;
        let (v, next) = ended_at(self.text, start, NUMBER_MORE, b'\n')?;
        self.at = next;
        Ok(v)
    }

    // The meet line.
    fn entries(&mut self, out: &mut [u8]) -> Result<usize, usize>
        ensures text { self.new.text.now ≡ self.old.text.now }
        ensures line { StoresItems meet_line entry self.old.text.now self.old.at out.old out.new (reached self.new.at result) }
    {
        let start = word_at(self.text, self.at, b"meet=")?;
        let (n, next) = entries_at(self.text, start, out)?;
        self.at = next;
        Ok(n)
    }

    // The rule line.
    fn items(&mut self, values: Values, out: &mut [u8]) -> Result<usize, usize>
        ensures text { self.new.text.now ≡ self.old.text.now }
        ensures line { StoresItems (rule_format values) (code values) self.old.text.now self.old.at out.old out.new (reached self.new.at result) }
    {
        let start = word_at(self.text, self.at, b"rule=")?;
        let (n, next) = items_at(self.text, start, values, out)?;
        self.at = next;
        Ok(n)
    }
}

// The form without its length limit. Each line is read once: its items are stored as far as there is room.
fn read_lines(text: &[u8], meet: &mut [u8], rule: &mut [u8]) -> Result<Form, usize>
    ensures { ReadsForm (λ p. p) (read file text.now) meet.old rule.old meet.new rule.new result }
{
    let mut reader = Reader { text, at: 0 };
    let events = reader.number(b"events=")?;
    let values = reader.number(b"values=")?;
    let top = reader.number(b"top=")?;
    let meet_at = reader.at + LIST_KEY;
    let entries = reader.entries(meet)?;
    let rule_at = reader.at + LIST_KEY;
    let items = reader.items(Values::Numbered, rule)?;
    if reader.at < text.len() {
        return Err(reader.at);
    }
    Ok(Form {
        events,
        values,
        top,
        entries,
        meet_at,
        items,
        rule_at,
    })
}

// The form, with what is stored of it where it is not refused.
fn read_form(text: &[u8], meet: &mut [u8], rule: &mut [u8]) -> Result<Form, Refusal>
    ensures { ReadsForm TextForm (read_file text.now) meet.old rule.old meet.new rule.new result }
{
    if FILE_LIMIT < text.len() {
        return Err(Refusal::TextForm(FILE_LIMIT));
    }
    read_lines(text, meet, rule).map_err(Refusal::TextForm)
}

// Refusal 4: the numbers of a text and where its items are, or 4 with the place where it is refused.
pub fn check_form(text: &[u8]) -> Result<Form, Refusal>
    ensures { result ≡ checked (read_file text.now) }
{
    let mut meet = [0u8; 0];
    let mut rule = [0u8; 0];
    read_form(text, &mut meet, &mut rule)
}

// Reads a text in one pass. The counts are those of the text, also where the arrays have no room for all of it.
pub fn read_arrays(text: &[u8]) -> Result<ReadArrays, Refusal>
    ensures { result ≡ arrays_of (read_file text.now) }
{
    let mut meet = [0u8; MEET_LIMIT];
    let mut rule = [0u8; NODE_BYTES];
    let form = read_form(text, &mut meet, &mut rule)?;
    Ok(ReadArrays { form, meet, rule })
}

// The stretch of the text that holds the rule's tokens; empty for a text that 4 refuses.
pub fn tokens(text: &[u8]) -> &[u8]
    ensures { result.now ≡ tokens_stretch text.now (read_file text.now) }
{
    match check_form(text) {
        Ok(Form { rule_at, .. }) => &text[rule_at..text.len() - 1],
        Err(_) => &[],
    }
}

// The nodes of tokens with one space between, stored as far as there is room: how many.
fn store_tokens(text: &[u8], values: Values, out: &mut [u8]) -> Option<usize>
    ensures { StoresTokens (code values) (read_closed (items_format values) text.now) out.old out.new result }
{
    let mut i = 0;
    let mut n = 0;
    let mut k = 0;
    loop {
        let (x, next) = token_at(text, i, values).ok()?;
        k = put_node(out, k, values, x);
        n += 1;
        match byte_at(text, next) {
            Err(_) => return Some(n),
            Ok(b' ') => i = next + 1,
            Ok(_) => return None,
        }
    }
}

// The same, with nothing written where the text is no list of tokens.
fn list_tokens(text: &[u8], values: Values, out: &mut [u8]) -> Option<usize>
    ensures { ReadsTokens (code values) (read_closed (items_format values) text.now) out.old out.new result }
{
    let mut none = [0u8; 0];
    store_tokens(text, values, &mut none)?;
    store_tokens(text, values, out)
}

// Reads tokens with one space between, as they stand in a rule line, into a buffer as far as there is room: three bytes a node, a
// numeral above 255 as 255. Nothing is written where the text is no list of tokens.
pub fn read_tokens(text: &[u8], out: &mut [u8]) -> Option<usize>
    ensures { ReadsTokens node (read_tokens text.now) out.old out.new result }
{
    list_tokens(text, Values::Numbered, out)
}
