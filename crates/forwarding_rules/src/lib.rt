// A packet, and what the calls that move it answer (01, Packet, hop and schedule). The definitions and theorems of these calls stand in specs/.
#![tactic(auto)]

use topology_types::Place;

// 01, Packet, hop and schedule: the packet is one small record, station and hops made.
#[derive(Clone, Copy, Debug, PartialEq, Eq)]
pub struct Packet {
    pub station: Place,
    pub hops: u8,
}

// What one hop answers; only moved changes the packet.
#[derive(Clone, Copy, Debug, PartialEq, Eq)]
pub enum Hop {
    Delivered,
    Moved(Packet),
    Dropped,
}

// What a walk answers: how it ended, the station and the hops made.
#[derive(Clone, Copy, Debug, PartialEq, Eq)]
pub enum Walk {
    Delivered(Packet),
    Dropped(Packet),
}
