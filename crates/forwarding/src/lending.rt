// The packet lent by &mut (01, Packet, hop and schedule): two thin calls over the setting and the hop by value, and two that lend a local to them.
ghost use Rattle.std.specs.Prelude.{◌≡◌};
ghost use Rattle.forwarding_rules.specs.Calls.{packet_in, setting_says, hop_says};
ghost use Rattle.forwarding_rules.specs.Lent.{packet_after_setting_lem, packet_after_hop_lem, setting_packet, hopping_packet};
ghost use Rattle.forwarding.specs.Inner.{is_set, is_moved_lem};

use forwarding_rules::{Hop, Packet};
use topology_types::{Place, Refusal, Topology};

// What a call answers that was lent a packet, and the packet as it leaves it.
#[derive(Clone, Copy, Debug, PartialEq, Eq)]
pub struct After<A> {
    pub answer: A,
    pub packet: Packet,
}

// Whether a setting of this answer set the packet.
fn is_set(answer: &Result<Packet, Refusal>) -> bool
    ensures { result ≡ is_set (setting_says answer.now) }
{
    match answer {
        Ok(_set) => true,
        Err(_refusal) => false,
    }
}

// Whether a hop of this answer moved the packet.
fn is_moved(answer: &Result<Hop, Refusal>) -> bool
    ensures { result ≡ is_moved_lem (hop_says answer.now) }
{
    match answer {
        Ok(Hop::Delivered) => false,
        Ok(Hop::Moved(_)) => true,
        Ok(Hop::Dropped) => false,
        Err(_) => false,
    }
}

// A setting not refused leaves the packet that it set, a refused one the packet of before.
fn packet_after_setting(answer: &Result<Packet, Refusal>, packet: Packet) -> Packet
    ensures { packet_in result ≡ packet_after_setting_lem (packet_in packet) (setting_says answer.now) }
{
    answer.unwrap_or(packet)
}

// Only moved changes the packet.
fn packet_after_hop(answer: &Result<Hop, Refusal>, packet: Packet) -> Packet
    ensures { packet_in result ≡ packet_after_hop_lem (packet_in packet) (hop_says answer.now) }
{
    match answer {
        Ok(Hop::Delivered) => packet,
        Ok(Hop::Moved(moved)) => *moved,
        Ok(Hop::Dropped) => packet,
        Err(_) => packet,
    }
}

// Sets the packet, its old contents untested, to a start with 0 hops made: refusals 14 and 15, which store nothing to it.
pub fn set_packet(packet: &mut Packet, t: Topology, start: Place) -> Result<Packet, Refusal>
    ensures { record { answer = setting_says result; packet = packet_in packet.new } ≡ setting_packet t start.0 (packet_in packet.old) }
{
    let answer = super::set(t, start);
    if is_set(&answer) {
        *packet = packet_after_setting(&answer, *packet);
    }
    answer
}

// Makes one hop of the packet under a row of link states, and stores to it only where it moved: refusals 14, 15 and 21 to 23.
pub fn hop_packet(
    packet: &mut Packet,
    t: Topology,
    table: &[u8],
    states: &[u8],
) -> Result<Hop, Refusal>
    ensures { record { answer = hop_says result; packet = packet_in packet.new } ≡ hopping_packet t table.now states.now (packet_in packet.old) }
{
    let answer = super::hop(t, table, states, *packet);
    if is_moved(&answer) {
        *packet = packet_after_hop(&answer, *packet);
    }
    answer
}

// Lends a local with this packet to `set_packet`, for callers that the borrow checker is to cover.
pub fn lend_to_set(packet: Packet, t: Topology, start: Place) -> After<Result<Packet, Refusal>>
    ensures { record { answer = setting_says result.answer; packet = packet_in result.packet } ≡ setting_packet t start.0 (packet_in packet) }
{
    let mut lent = packet;
    let answer = set_packet(&mut lent, t, start);
    After {
        answer,
        packet: lent,
    }
}

// Lends a local with this packet to `hop_packet`.
pub fn lend_to_hop(
    packet: Packet,
    t: Topology,
    table: &[u8],
    states: &[u8],
) -> After<Result<Hop, Refusal>>
    ensures { record { answer = hop_says result.answer; packet = packet_in result.packet } ≡ hopping_packet t table.now states.now (packet_in packet) }
{
    let mut lent = packet;
    let answer = hop_packet(&mut lent, t, table, states);
    After {
        answer,
        packet: lent,
    }
}
