// For callers that have tested the topology and the destination, and laid out the arcs.
ghost use Rattle.std.specs.Prelude.{◌≡◌, ◌<◌, ◌≤◌, ltb, length};
ghost use Rattle.network.specs.Lists.{keep};
ghost use Rattle.topology_types.specs.Limits.{most_routers};
ghost use Rattle.topology_types.specs.declared.Topology.{Topology};
ghost use Rattle.topology_types.specs.Topology.{network_of};
ghost use Rattle.distances.specs.Inner.{LaidIn, Settled};

use super::settling;
use arcs::Arcs;
use topology_types::{Place, ROUTERS};

// One more than the greatest cost: n times this is more than any path costs that visits no router of n twice, and stands for an absent distance.
// It is a number and no Option, as in the definitions: then the least of sums needs no test for it.
pub const STEP: u32 = 65536;

// The distances to the destination, by place; absent where there is no path (02, #107). Routers are settled from the destination on, against the direction of
// travel, so what is read is what the way back over each arc costs. They are those of every topology of n routers that has these arcs.
pub fn to(a: &Arcs, n: usize, destination: Place) -> [u32; ROUTERS]
    requires { ((t : Topology) × LaidIn t a.now n) × (destination.0 < n) }
    ensures { (t : Topology) → LaidIn t a.now n → Settled (network_of t) destination.0 result }
{
    let mut ds = settling::first(n, destination.index());
    let mut marks = settling::places();
    for _ in 0..n {
        let u = settling::nearest(&ds, &marks, n);
        marks[u] = settling::SETTLED;
        let here = ds[u];
        settling::relax(&mut ds, a.at(u), here);
    }
    ds
}

// How many of these numbers are lower than this one. An index loop, cut at ROUTERS, which the numbers never exceed: so the compiler unrolls it, and takes many
// numbers at a time. With `filter` and `count` a whole order took half as long again, with the slice gone through as it is 3 in 100 more instructions.
pub fn lower_than(numbers: &[u32], limit: u32) -> u32
    requires { length numbers.now ≤ most_routers }
    ensures { result ≡ length (keep (λ x. ltb x limit) numbers.now) }
{
    let mut lower = 0;
    for v in 0..numbers.len().min(ROUTERS) {
        if numbers[v] < limit {
            lower += 1;
        }
    }
    lower
}
