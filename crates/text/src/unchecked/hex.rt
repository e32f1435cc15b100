// Bytes in lowercase hex, `-` for none.
ghost use Rattle.std.specs.Prelude.{◌≡◌, ◌*◌, ◌≤◌, ◌<◌, ◌%◌, T, length};
ghost use Rattle.std.proofs.lemmas.List.Edits.{sets};
ghost use Rattle.network.specs.Lists.{every};
ghost use Rattle.text.specs.Hex.{hexadecimal, in_hex, byte_count, bytes_of};
ghost use Rattle.text.specs.Hex as said;

#[tactic(auto, unfolding(crate::specs::Hex::hexadecimal, crate::specs::Numbers::decimal))]
fn is_digit(c: u8) -> bool
    ensures { result ≡ hexadecimal c }
{
    matches!(c, b'0'..=b'9' | b'a'..=b'f')
}

fn all_digits(s: &[u8]) -> bool
    ensures { result ≡ every hexadecimal s.now }
{
    s.iter().all(|c| is_digit(*c))
}

// Digits alone, an even number of them, two or more.
#[tactic(auto, unfolding(crate::specs::Hex::in_hex))]
fn is_hex(s: &[u8]) -> bool
    ensures { result ≡ in_hex s.now }
{
    s.len() >= 2 && s.len() % 2 == 0 && all_digits(s)
}

// What a digit stands for: `a`, which is 97, for 10.
#[tactic(auto, unfolding(crate::specs::Hex::hexadecimal, crate::specs::Hex::worth, crate::specs::Numbers::decimal))]
fn worth(c: u8) -> u8
    requires { T (hexadecimal c) }
    ensures { (result ≡ said.worth c) × (result < 16) }
{
    if c <= b'9' { c - b'0' } else { c - b'a' + 10 }
}

// Puts the bytes that the digits stand for at the start of out.
fn decode(s: &[u8], out: &mut [u8])
    requires { T (in_hex s.now) × (length s.now ≤ 2 * length out.old) }
    ensures { out.new ≡ sets out.old 0 (bytes_of s.now) }
{
    // An index loop: a byte of out is worth two of s, and a `zip` of the two leaves the proof no list of its pairs.
    for i in 0..s.len() / 2 {
        out[i] = worth(s[2 * i]) * 16 + worth(s[2 * i + 1]);
    }
}

// Puts the bytes that a field holds at the start of out, and answers how many they are.
pub fn bytes(s: &[u8], out: &mut [u8]) -> Option<usize>
    requires { length s.now ≤ 2 * length out.old }
    ensures { (result ≡ byte_count s.now) × (out.new ≡ sets out.old 0 (said.bytes s.now)) }
{
    if s == b"-".as_slice() {
        return Some(0);
    }
    if !is_hex(s) {
        return None;
    }
    decode(s, out);
    Some(s.len() / 2)
}
