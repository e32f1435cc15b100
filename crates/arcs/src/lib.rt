// The arcs of every router of a topology: each link seen from both its ends, in the order of link numbers.
#![tactic(auto)]

ghost use Rattle.std.specs.Prelude.{◌≡◌, ◌<◌, get_or};
ghost use Rattle.topology_types.specs.Limits.{most_routers, most_neighbours};
ghost use Rattle.arcs.specs.Inner.{with_arc};

use topology_types::{NEIGHBOURS, Place, ROUTERS};

pub mod unchecked;

// Each router has as many slots as it may have neighbours.
pub const SLOTS: usize = ROUTERS * NEIGHBOURS;

// An arc of a router: the place that it leads to, its link's number, its cost, and what going the other way costs.
#[derive(Clone, Copy, Debug, PartialEq, Eq)]
pub struct Arc {
    pub to: Place,
    pub link: u8,
    pub cost: u16,
    pub back: u16,
}

// How many arcs each router has, and its slots, of which they are the first: fixed memory, no heap. A topology and its arcs are lent side by side and in no one
// struct, since a public call is given the topology alone, and tests it before there are arcs.
#[derive(Clone, Copy)]
pub struct Arcs {
    pub count: [u8; ROUTERS],
    pub slot: [Arc; SLOTS],
}

impl Arcs {
    // One arc more of the router at u, in its next slot.
    fn add(&mut self, u: Place, arc: Arc)
        requires { (u.0 < most_routers) × (get_or self.old.count u.0 0 < most_neighbours) }
        ensures { self.new ≡ with_arc self.old u.0 arc }
    {
        let from = u.index();
        let n = self.count[from];
        self.slot[from * NEIGHBOURS + n as usize] = arc;
        self.count[from] = n + 1;
    }
}
