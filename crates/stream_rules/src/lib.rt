// The records of a topology stream, and what reading one returns (01, Topology stream). The definitions and theorems of these stand in specs/.
#![tactic(auto)]

ghost use Rattle.std.specs.Prelude.{◌≡◌};
ghost use Rattle.stream_rules.specs.Reading.{reading_of};

use topology_types::{Answer, Half, Refusal, Topology};

// What reading comes to as one value: a refused one has the topology of all zeros.
#[derive(Clone, Copy)]
pub struct Reading {
    pub answer: Answer,
    pub topology: Topology,
}

impl Reading {
    #[tactic(auto, unfolding(crate::specs::Reading::refusal, topology_types::specs::Topology::zeros))]
    pub fn of(read: Result<Topology, Refusal>) -> Reading
        ensures { result ≡ reading_of read }
    {
        match read {
            Ok(topology) => Reading {
                answer: Answer { number: 0, at: 0 },
                topology,
            },
            Err(refusal) => Reading {
                answer: refusal.answer(),
                topology: Topology::empty(0),
            },
        }
    }
}

// One record of the stream. A link's record, kind 2, counts as both its halves, the second the opposite of the one it has here (02, #105).
#[derive(Clone, Copy)]
pub enum Record {
    Router(u32),
    Link(Half),
    Half(Half),
    Limit(u8),
    End,
}
