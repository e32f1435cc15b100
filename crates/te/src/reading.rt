// One sub-TLV of a Link TLV's value (RFC 3630, 2.3.2).
ghost use Rattle.std.specs.Prelude.{◌≡◌, ◌+◌, ◌*◌, ◌/◌, ◌≤◌, length};
ghost use Rattle.te.specs.SubTlvs.{case_of, found_as, judged_as};
ghost use Rattle.te.specs.SubTlvs as said;

use super::SubTlv;
use stream::unchecked::numbers;
use topology_types::Fault;

// The types of the sub-TLVs that are read (RFC 3630, 2.5.5 to 2.5.7).
const TE_METRIC: u16 = 5;

const MAX_BANDWIDTH: u16 = 6;

const RESERVABLE: u16 = 7;

// Every pattern of a 32-bit float from this one on is that of an infinity, of a NaN, or of a number with the sign bit set.
const INFINITE: u32 = 0x7f80_0000;

// How many bytes a sub-TLV has whose value has so many: the header's 4, and the value padded to a multiple of 4.
fn span(length: u16) -> usize
    ensures { result ≡ 4 + (length + 3) / 4 * 4 }
{
    4 + (length as usize).next_multiple_of(4)
}

// A sub-TLV of type 5, 6 or 7 with this number for its value: only a bandwidth is tested.
fn judged(kind: u16, number: u32) -> Result<SubTlv, Fault>
    ensures { judged_as result ≡ said.judged (case_of kind number) }
{
    if kind == TE_METRIC {
        return Ok(SubTlv::TeMetric(number));
    }
    if INFINITE <= number {
        return Err(Fault::UnusableBandwidth);
    }
    let bandwidth = f32::from_bits(number);
    if bandwidth < 1.0 {
        return Err(Fault::UnusableBandwidth);
    }
    if kind == MAX_BANDWIDTH {
        Ok(SubTlv::MaxBandwidth(bandwidth))
    } else {
        Ok(SubTlv::Reservable(bandwidth))
    }
}

// The sub-TLV that the bytes begin with, none if it is of another type.
pub(crate) fn sub_in(s: &[u8]) -> Result<Option<SubTlv>, Fault>
    ensures { found_as result ≡ said.sub_in s.now }
{
    if s.len() < 4 {
        return Err(Fault::UnusableSubTlvs);
    }
    if s.len() < span_of(s) {
        return Err(Fault::UnusableSubTlvs);
    }
    let kind = numbers::be16(s, 0);
    if !(TE_METRIC..=RESERVABLE).contains(&kind) {
        return Ok(None);
    }
    let length = numbers::be16(s, 2);
    if length != 4 {
        return Err(Fault::UnusableSubTlvs);
    }
    let number = numbers::be32(s, 4);
    let sub = judged(kind, number)?;
    Ok(Some(sub))
}

// How many bytes it has in all.
pub(crate) fn span_of(s: &[u8]) -> usize
    requires { 4 ≤ length s.now }
    ensures { result ≡ said.span_of s.now }
{
    span(numbers::be16(s, 2))
}
