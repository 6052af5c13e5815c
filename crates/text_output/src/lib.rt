// Texts put into a lent buffer, piece by piece. Each function puts its text at an offset and answers the offset behind it, also where
// that lies behind the buffer's end: what would lie there is left out. So a text put at 0 into an empty buffer answers its length.
#![tactic(auto)]

ghost use Rattle.std.specs.Prelude.{◌≡◌, ◌∷◌, [], ◌++◌, ◌+◌, ◌<◌, min};
ghost use Rattle.text_format.specs.Texts.{numeral};
ghost use Rattle.text_output.specs.Output.{offset_limit, Puts};

fn digit(v: usize) -> u8
    requires { v < 10 }
    ensures { result ≡ 48 + v }
{
    b'0' + v as u8
}

// A byte.
pub fn put(out: &mut [u8], at: usize, b: u8) -> usize
    ensures { Puts out.old (b ∷ []) out.new at result }
{
    if at < out.len() {
        out[at] = b;
    }
    at.saturating_add(1)
}

// The bytes of a word.
pub fn put_word(out: &mut [u8], at: usize, w: &[u8]) -> usize
    ensures { Puts out.old w.now out.new at result }
{
    let mut n = at;
    for b in w {
        n = put(out, n, *b);
    }
    n
}

// A number in decimal.
pub fn put_number(out: &mut [u8], at: usize, v: usize) -> usize
    ensures { Puts out.old (numeral v) out.new at result }
{
    if v < 10 {
        return put(out, at, digit(v));
    }
    let n = put_number(out, at, v / 10);
    put(out, n, digit(v % 10))
}

// A word and a number behind it.
pub fn put_field(out: &mut [u8], at: usize, key: &[u8], v: usize) -> usize
    ensures { Puts out.old (key.now ++ numeral v) out.new at result }
{
    let n = put_word(out, at, key);
    put_number(out, n, v)
}

// A word, a number behind it and byte 10.
pub fn put_line(out: &mut [u8], at: usize, key: &[u8], v: usize) -> usize
    ensures { Puts out.old (key.now ++ (numeral v ++ (10 ∷ []))) out.new at result }
{
    let n = put_field(out, at, key, v);
    put(out, n, b'\n')
}
