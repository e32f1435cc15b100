// Hops, walks and greatest hop counts over an accepted table, and the tests of link states and schedules (01, Packet, hop and schedule).
#![tactic(auto)]

pub mod unchecked;
