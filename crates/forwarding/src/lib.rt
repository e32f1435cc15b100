// Packets, hops, walks and greatest hop counts (01, Packet, hop and schedule).
#![tactic(auto)]

use forwarding_steps::unchecked::{moving, schedule};
use topology_types::{Fault, Place, Refusal, Topology};

mod lending;
pub mod unchecked;

ghost use Rattle.std.specs.Prelude.{◌≡◌};
ghost use Rattle.topology_types.specs.Outcome.{answer_of};
ghost use Rattle.forwarding_rules.specs.Calls.{packet_in, setting_says, hop_says, walk_says, counting_hops, setting_at, hopping, walking};

pub use forwarding_rules::{Hop, Packet, Walk};
pub use lending::{After, hop_packet, lend_to_hop, lend_to_set, set_packet};

// The greatest hop count of every place, N bytes, 255 where a router has no path to the destination (02, #107): refusals 14, 21 and 24.
pub fn greatest_hops(t: Topology, table: &[u8], out: &mut [u8]) -> Result<usize, Refusal>
    ensures { record { answer = answer_of result; buffer = out.new } ≡ counting_hops t table.now out.old }
{
    table::check(t, table)?;
    let n = t.routers;
    if out.len() < n {
        return Err(Fault::BufferTooShort.at(n));
    }
    unchecked::greatest_hops(&t, table, out);
    Ok(n)
}

// A packet at a start, with 0 hops made: refusals 14 and 15.
pub fn set(t: Topology, start: Place) -> Result<Packet, Refusal>
    ensures { setting_says result ≡ setting_at t start.0 }
{
    topology_sound::test_place(t, start)?;
    Ok(Packet {
        station: start,
        hops: 0,
    })
}

// One hop of a packet under a row of link states: refusals 14, 15 for the packet's station, then its hops made, and 21 to 23.
pub fn hop(t: Topology, table: &[u8], states: &[u8], packet: Packet) -> Result<Hop, Refusal>
    ensures { hop_says result ≡ hopping t table.now states.now (packet_in packet) }
{
    topology_sound::test_place(t, packet.station)?;
    let hops = packet.hops as usize;
    if t.routers <= hops {
        return Err(Fault::NoSuchPlace.at(hops));
    }
    let a = arcs::unchecked::of(t);
    table::unchecked::check(&t, &a, table)?;
    let length = states.len();
    if length != t.links {
        return Err(Fault::StatesLength.at(length));
    }
    if let Some(over) = schedule::first_over(states) {
        return Err(Fault::StateOverOne.at(over));
    }
    Ok(moving::hop_by(&t, &a, table, states, packet))
}

// A walk from a start over a schedule: refusals 14, 15 and 21 to 23.
pub fn walk(t: Topology, table: &[u8], start: Place, schedule: &[u8]) -> Result<Walk, Refusal>
    ensures { walk_says result ≡ walking t table.now start.0 schedule.now }
{
    topology_sound::test_place(t, start)?;
    let a = arcs::unchecked::of(t);
    table::unchecked::check(&t, &a, table)?;
    let length = schedule.len();
    if !schedule::is_whole(t.routers, t.links, length) {
        return Err(Fault::StatesLength.at(length));
    }
    if let Some(over) = schedule::first_over(schedule) {
        return Err(Fault::StateOverOne.at(over));
    }
    Ok(moving::walk_by(&t, &a, table, start, schedule))
}
