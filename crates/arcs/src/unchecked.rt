// For callers that have tested the topology, and a router's place in it.
ghost use Rattle.std.specs.Prelude.{◌≡◌, ◌<◌, ◌≤◌, T, get_or};
ghost use Rattle.topology_types.specs.Limits.{most_routers, most_neighbours};
ghost use Rattle.topology_sound.specs.Sound.{sound};
ghost use Rattle.arcs.specs.Inner.{Laid, arcs_at};

use super::{Arc, Arcs, SLOTS};
use topology_types::{NEIGHBOURS, Place, ROUTERS, Topology};

impl Arcs {
    // The arcs of the router at u.
    pub fn at(&self, u: usize) -> &[Arc]
        requires { (u < most_routers) × (get_or self.now.count u 0 ≤ most_neighbours) }
        ensures { result.now ≡ arcs_at self.now u }
    {
        let first = u * NEIGHBOURS;
        let end = first + self.count[u] as usize;
        &self.slot[first..end]
    }
}

// The arcs of every router, in its first slots. What the slots past its count hold is free, and so are the counts past the routers: nothing is said
// of them.
pub fn of(t: Topology) -> Arcs
    requires { T (sound t) }
    ensures { Laid t result }
{
    let none = Arc {
        to: Place(0),
        link: 0,
        cost: 0,
        back: 0,
    };
    let mut a = Arcs {
        count: [0; ROUTERS],
        slot: [none; SLOTS],
    };
    for i in 0..t.links {
        let l = t.link[i];
        let number = i as u8;
        // The link seen from its first end, then from its second.
        a.add(
            l.first,
            Arc {
                to: l.second,
                link: number,
                cost: l.cost,
                back: l.back,
            },
        );
        a.add(
            l.second,
            Arc {
                to: l.first,
                link: number,
                cost: l.back,
                back: l.cost,
            },
        );
    }
    a
}
