// The fields of a request: a line is cut at each space.
ghost use Rattle.std.specs.Prelude.{◌≡◌, ◌<◌, ◌^◌, length, eqb, position};
ghost use Rattle.network.specs.Lists.{every};
ghost use Rattle.text.specs.Fields.{before};
ghost use Rattle.text.specs.Fields as said;
ghost use Rattle.text.specs.Numbers.{decimal, numeral};
ghost use Rattle.text.specs.Numbers as numbers;

// The index of the first byte that is stop.
fn index_of(s: &[u8], stop: u8) -> Option<usize>
    ensures { result ≡ position (λ c. eqb c stop) s.now }
{
    s.iter().position(|c| *c == stop)
}

// How many bytes stand before the first that is stop.
pub fn width(s: &[u8], stop: u8) -> usize
    ensures { result ≡ length (before stop s.now) }
{
    index_of(s, stop).unwrap_or(s.len())
}

// The field with this number, from 0.
pub fn field(line: &[u8], n: usize) -> &[u8]
    ensures { result.now ≡ said.field n line.now }
{
    line.split(|c| *c == b' ').nth(n).unwrap_or_default()
}

fn spaces(line: &[u8]) -> usize
    ensures { result ≡ said.spaces line.now }
{
    line.iter().filter(|c| **c == b' ').count()
}

// Whether the line begins with this word, and so many fields follow it.
pub fn asks(line: &[u8], word: &[u8], fields: usize) -> bool
    ensures { result ≡ said.asks word.now fields line.now }
{
    field(line, 0) == word && spaces(line) == fields
}

#[tactic(auto, unfolding(crate::specs::Numbers::decimal))]
fn is_decimal(c: u8) -> bool
    ensures { result ≡ decimal c }
{
    (b'0'..=b'9').contains(&c)
}

fn all_decimal(s: &[u8]) -> bool
    ensures { result ≡ every decimal s.now }
{
    s.iter().all(|c| is_decimal(*c))
}

// Digits alone, with no zeros in front other than 0 itself.
#[tactic(auto, unfolding(crate::specs::Numbers::numeral, crate::specs::Numbers::plain_number))]
fn is_numeral(s: &[u8]) -> bool
    ensures { result ≡ numeral s.now }
{
    match s {
        [] | [b'0', _, ..] => false,
        _ => all_decimal(s),
    }
}

// The number that a field holds, unless it is no number or too large.
pub fn number(s: &[u8], most: usize) -> Option<usize>
    requires { most < 2 ^ 32 }
    ensures { result ≡ numbers.number most s.now }
{
    if !is_numeral(s) {
        return None;
    }
    let mut value: usize = 0;
    for c in s {
        value = value * 10 + (*c - b'0') as usize;
        if most < value {
            return None;
        }
    }
    Some(value)
}
