// The first entry of a row whose link is up, and walks from one to the next.
ghost use Rattle.std.specs.Prelude.{◌≡◌, ◌<◌, length};
ghost use Rattle.std.specs.List.{All};
ghost use Rattle.network.specs.Forwarding as network;
ghost use Rattle.forwarding_rules.specs.Schedule.{rows_in};
ghost use Rattle.forwarding_rules.specs.Calls.{by, packet_in, hop_in, walk_in};
ghost use Rattle.forwarding_steps.specs.Inner.{is_up, first_up, Checked, Scheduled};

use arcs::{Arc, Arcs};
use forwarding_rules::{Hop, Packet, Walk};
use table::unchecked::reading::Table;
use topology_types::{Place, Topology};

// Whether a link that leads to the entry is up.
fn is_up(arcs: &[Arc], states: &[u8], entry: Place) -> bool
    requires { All (λ arc. arc.link < length states.now) arcs.now }
    ensures { result ≡ is_up arcs.now states.now entry.0 }
{
    arcs.iter()
        .any(|arc| arc.to == entry && states[arc.link as usize] == 1)
}

// The first entry of a station's row whose link is up: where a packet goes next, if anywhere.
fn next_of(row: &[u8], arcs: &[Arc], states: &[u8]) -> Option<Place>
    requires { All (λ arc. arc.link < length states.now) arcs.now }
    ensures { result ≡ first_up arcs.now states.now row.now }
{
    row.iter()
        .copied()
        .map(Place)
        .find(|entry| is_up(arcs, states, *entry))
}

// One hop of a packet, by an accepted table.
pub fn hop_by(t: &Topology, a: &Arcs, table: &[u8], states: &[u8], packet: Packet) -> Hop
    requires { Checked t.now a.now table.now × (packet.station.0 < t.now.routers) × (packet.hops < t.now.routers) × (length states.now ≡ t.now.links) }
    ensures { hop_in result ≡ network.hop (by t.now table.now) states.now (packet_in packet) }
{
    let listed = Table::of(table);
    if packet.station == listed.destination() {
        return Hop::Delivered;
    }
    let u = packet.station.index();
    let Some(place) = next_of(listed.row(u), a.at(u), states) else {
        return Hop::Dropped;
    };
    Hop::Moved(Packet {
        station: place,
        hops: packet.hops + 1,
    })
}

// A walk by an accepted table: each hop takes the schedule's next row, until the packet is at the destination or dropped.
pub fn walk_by(t: &Topology, a: &Arcs, table: &[u8], start: Place, schedule: &[u8]) -> Walk
    requires { Checked t.now a.now table.now × (start.0 < t.now.routers) × Scheduled t.now schedule.now }
    ensures { walk_in result ≡ network.walk (by t.now table.now) (rows_in t.now.routers t.now.links schedule.now) (network.start start.0) }
{
    let listed = Table::of(table);
    let home = listed.destination();
    let mut packet = Packet {
        station: start,
        hops: 0,
    };
    // An offset, and not chunks of the schedule: with no links a row has no bytes, and there are no chunks of 0 bytes.
    let mut at: usize = 0;
    while packet.station != home {
        let u = packet.station.index();
        let end = at + t.links;
        let Some(place) = next_of(listed.row(u), a.at(u), &schedule[at..end]) else {
            return Walk::Dropped(packet);
        };
        packet.station = place;
        packet.hops += 1;
        at = end;
    }
    Walk::Delivered(packet)
}
