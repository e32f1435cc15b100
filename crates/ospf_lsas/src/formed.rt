// The length of a router-LSA, and whether its links match it (RFC 2328, A.4.1 and A.4.2).
ghost use Rattle.std.specs.Prelude.{◌≡◌, cond, Some, None};
ghost use Rattle.ospf_lsas.specs.Lsa.{links_in, some?, malformed, length_field, whole_link, link_length_lem};

use stream::unchecked::numbers;

// The length of the link that the bytes begin with, if it is whole and of a type from 1 to 4.
fn link_length(s: &[u8]) -> Option<usize>
    ensures { result ≡ cond (whole_link s.now) (Some (link_length_lem s.now)) None }
{
    if s.len() < 12 {
        return None;
    }
    let length = 12 + 4 * usize::from(s[9]);
    if length <= s.len() && (1..=4).contains(&s[8]) {
        Some(length)
    } else {
        None
    }
}

// Whether the bytes are so many links and nothing else, each of a type from 1 to 4.
fn are_links(s: &[u8], number: u16) -> bool
    ensures { result ≡ some? (links_in number s.now) }
{
    let mut rest = s;
    for _ in 0..number {
        match link_length(rest) {
            Some(length) => rest = &rest[length..],
            None => return false,
        }
    }
    rest.is_empty()
}

// The length of the LSA that the bytes begin with, if it is not malformed.
pub(crate) fn length_of(s: &[u8]) -> Option<usize>
    ensures { result ≡ cond (malformed s.now) None (Some (length_field s.now)) }
{
    if s.len() < 24 {
        return None;
    }
    let length = usize::from(numbers::be16(s, 18));
    if s.len() < length {
        return None;
    }
    if length < 24 {
        return None;
    }
    if s[3] != 1 {
        return None;
    }
    let number = numbers::be16(s, 22);
    if are_links(&s[24..length], number) {
        Some(length)
    } else {
        None
    }
}
