// The tables that halves are looked up in: what the half from u to v costs, at u * ROUTERS + v, 0 if it is not listed, and how many halves leave each router.
// No half costs 0, and an Option for each would double the table.
ghost use Rattle.std.specs.Prelude.{◌≡◌, ◌*◌, ◌<◌, replicate};
ghost use Rattle.topology_types.specs.Limits.{most_routers};
ghost use Rattle.topology_types.specs.Outcome.{failed};
ghost use Rattle.stream.specs.Inner.{Placed, Roomy, cost_in, listed_fault, crowd_fault, marked};

use topology_types::{Fault, Half, NEIGHBOURS, Place, ROUTERS};

#[derive(Clone, Copy)]
pub struct Tables {
    pub costs: [u16; ROUTERS * ROUTERS],
    pub leaving: [usize; ROUTERS],
}

impl Tables {
    // No half.
    pub fn new() -> Self
        ensures { result ≡ record { costs = replicate (most_routers * most_routers) 0; leaving = replicate most_routers 0 } }
    {
        Tables {
            costs: [0; ROUTERS * ROUTERS],
            leaving: [0; ROUTERS],
        }
    }

    // What the half costs that is listed with these places, 0 if none is.
    pub(crate) fn cost_like(&self, h: Half) -> u16
        requires { Placed h }
        ensures { result ≡ cost_in self.now.costs h }
    {
        self.costs[h.from.index() * ROUTERS + h.to.index()]
    }

    // Refusal 8.
    pub(crate) fn test_new(&self, h: Half) -> Result<(), Fault>
        requires { Placed h }
        ensures { failed result ≡ listed_fault self.now.costs h }
    {
        if self.cost_like(h) != 0 {
            return Err(Fault::PairLinkedAlready);
        }
        Ok(())
    }

    // Refusal 10.
    pub(crate) fn test_room(&self, place: Place) -> Result<(), Fault>
        requires { place.0 < most_routers }
        ensures { failed result ≡ crowd_fault self.now.leaving place.0 }
    {
        if NEIGHBOURS <= self.leaving[place.index()] {
            return Err(Fault::TooManyNeighbours);
        }
        Ok(())
    }

    // A half more.
    pub(crate) fn mark(&mut self, h: Half)
        requires { Roomy self.old.leaving h }
        ensures { self.new ≡ marked self.old h }
    {
        self.costs[h.from.index() * ROUTERS + h.to.index()] = h.cost;
        self.leaving[h.from.index()] += 1;
    }
}
