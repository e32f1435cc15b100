// Big-endian numbers among bytes.
ghost use Rattle.std.specs.Prelude.{◌≡◌, ◌+◌, ◌*◌, ◌≤◌, length, get_or, take, drop};
ghost use Rattle.stream_rules.specs.Stream.{big_endian};

// The number in the two bytes from at, big-endian.
pub fn be16(s: &[u8], at: usize) -> u16
    requires { at + 2 ≤ length s.now }
    ensures { result ≡ get_or s.now at 0 * 256 + get_or s.now (at + 1) 0 }
{
    u16::from_be_bytes([s[at], s[at + 1]])
}

// The same of four bytes.
pub fn be32(s: &[u8], at: usize) -> u32
    requires { at + 4 ≤ length s.now }
    ensures { result ≡ big_endian (take 4 (drop at s.now)) }
{
    u32::from_be_bytes([s[at], s[at + 1], s[at + 2], s[at + 3]])
}
