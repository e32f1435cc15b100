// Routers, links and the topology stream (01, Stations, links and limits; Topology stream): read, test and write, under one name.
#![tactic(auto)]

mod writing;

ghost use Rattle.std.specs.Prelude.{◌≡◌};
ghost use Rattle.topology_types.specs.Outcome.{answer_of};
ghost use Rattle.topology.specs.Written.{writing};
ghost use Rattle.topology.specs.OldLimit.{with_old_limit_lem};

pub use stream::{Reading, read, read_or_zeros};
pub use topology_sound::is_sound;
pub use topology_types::{
    Answer, DEFAULT_NEXT_HOPS, Fault, LINKS, Link, NEIGHBOURS, NEXT_HOPS, Place, ROUTERS, Rank,
    Refusal, Topology,
};

// 02, #101: the next-hop limit that a stream from before it means where it gives none.
const OLD_NEXT_HOPS: u8 = 16;

// Writes a topology's stream, and answers how many bytes it has: refusals 14 and 24.
pub fn write(t: Topology, out: &mut [u8]) -> Result<usize, Refusal>
    ensures { record { answer = answer_of result; buffer = out.new } ≡ writing t out.old }
{
    if !is_sound(t) {
        return Err(Fault::UnsoundTopology.at(0));
    }
    let ids = &t.id[..t.routers];
    let links = &t.link[..t.links];
    let needed = writing::length_of(ids, links);
    if out.len() < needed {
        return Err(Fault::BufferTooShort.at(needed));
    }
    Ok(writing::put_stream(out, t.limit, ids, links))
}

// Puts `08 10`, the limit of streams from before 02, #101, in front of a stream, which is not tested, and answers how many bytes both have: refusal 24.
pub fn with_old_limit(stream: &[u8], out: &mut [u8]) -> Result<usize, Refusal>
    ensures { record { answer = answer_of result; buffer = out.new } ≡ with_old_limit_lem stream.now out.old }
{
    let needed = stream.len() + 2;
    if out.len() < needed {
        return Err(Fault::BufferTooShort.at(needed));
    }
    Ok(writing::put_limit(out, OLD_NEXT_HOPS, stream))
}
