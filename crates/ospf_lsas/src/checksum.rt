// The Fletcher sums of a router-LSA (RFC 2328, 12.1.7).
ghost use Rattle.std.specs.Prelude.{◌≡◌, ◌%◌};
ghost use Rattle.ospf_lsas.specs.Lsa as said;

use super::Lsa;
use stream::unchecked::numbers;

// C0 and C1 over octets, modulo 255: remainders are taken on the way.
fn sums(octets: &[u8]) -> (u32, u32)
    ensures c0 { result.0 ≡ said.c0 octets.now % 255 }
    ensures c1 { result.1 ≡ said.c1 octets.now % 255 }
{
    let mut c0: u32 = 0;
    let mut c1: u32 = 0;
    for octet in octets {
        c0 = (c0 + u32::from(*octet)) % 255;
        c1 = (c1 + c0) % 255;
    }
    (c0, c1)
}

// Whether the checksum is zero, or either sum, without the LS age, not 0 modulo 255.
pub(crate) fn is_wrong(lsa: &Lsa) -> bool
    ensures { result ≡ said.wrong_sum lsa.now.bytes.now }
{
    numbers::be16(lsa.bytes, 16) == 0 || sums(&lsa.bytes[2..]) != (0, 0)
}
