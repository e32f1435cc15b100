// The records of a topology stream, one at a time.
ghost use Rattle.std.specs.Prelude.{◌≡◌, ◌+◌, ◌≤◌, length, take, drop};
ghost use Rattle.stream_rules.specs.Stream.{half_in, record_in};
ghost use Rattle.stream_rules.specs.Stream as said;
ghost use Rattle.stream_rules.specs.Reading.{width};
ghost use Rattle.stream_rules.specs.Inner.{record_seen};

use super::Record;
use super::unchecked::numbers;
use topology_types::{Fault, Half, Place};

// The half in the four bytes from at: from, to, cost.
fn half_at(s: &[u8], at: usize) -> Half
    requires { at + 4 ≤ length s.now }
    ensures { result ≡ half_in (take 4 (drop at s.now)) }
{
    Half {
        from: Place(s[at]),
        to: Place(s[at + 1]),
        cost: numbers::be16(s, at + 2),
    }
}

// How many bytes follow the kind. Kinds are the stream's bytes here and in writing alone; what they stand for is a `Record`.
#[tactic(auto, unfolding(stream_rules::specs::Stream::body_length))]
fn body_length(kind: u8) -> usize
    ensures { result ≡ said.body_length kind }
{
    match kind {
        1 | 2 | 4 => 4,
        8 => 1,
        _ => 0,
    }
}

// The record that begins at the offset at: refusals 1 and 2.
pub(crate) fn record_at(s: &[u8], at: usize) -> Result<Record, Fault>
    ensures { record_seen result ≡ record_in (drop at s.now) }
{
    if s.len() <= at {
        return Err(Fault::StreamCutShort);
    }
    let kind = s[at];
    let body = at + 1;
    if s.len() - body < body_length(kind) {
        return Err(Fault::StreamCutShort);
    }
    match kind {
        1 => Ok(Record::Router(numbers::be32(s, body))),
        2 => Ok(Record::Link(half_at(s, body))),
        3 => Ok(Record::End),
        4 => Ok(Record::Half(half_at(s, body))),
        8 => Ok(Record::Limit(s[body])),
        _ => Err(Fault::UnknownKind),
    }
}

// How many bytes the record takes.
#[tactic(auto, unfolding(stream_rules::specs::Reading::width))]
pub(crate) fn width_of(record: Record) -> usize
    ensures { result ≡ width (record_seen (Ok «record»)) }
{
    match record {
        Record::Router(_) | Record::Link(_) | Record::Half(_) => 5,
        Record::Limit(_) => 2,
        Record::End => 1,
    }
}
