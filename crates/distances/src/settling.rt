// Settling routers one after the other, with two numbers by place: `ds`, the distance by way of the routers settled so far; and `marks`, the place
// itself, or SETTLED once its router is settled.
ghost use Rattle.std.specs.Prelude.{◌≡◌, ◌*◌, ◌<◌, ◌≤◌, map, set, replicate};
ghost use Rattle.network.specs.Lists.{below};
ghost use Rattle.topology_types.specs.Limits.{most_routers};
ghost use Rattle.arcs.specs.Inner.{returning};
ghost use Rattle.distances.specs.Inner.{Passable, Searched, Nearest, Relaxed, farthest};

use super::unchecked;
use arcs::Arc;
use topology_types::ROUTERS;

// The mark of a settled router: more than any distance with a place behind it. A number, so that one comparison tells both, many routers at a time.
pub(crate) const SETTLED: u32 = 536870912;

// The marks before any router is settled.
pub(crate) fn places() -> [u32; ROUTERS]
    ensures { result ≡ below most_routers }
{
    let mut marks = [0; ROUTERS];
    for v in 0..ROUTERS {
        marks[v] = v as u32;
    }
    marks
}

// The distances before any router is settled: 0 at the destination, absent elsewhere.
pub(crate) fn first(n: usize, d: usize) -> [u32; ROUTERS]
    requires { (n ≤ most_routers) × (d < most_routers) }
    ensures { result ≡ set (replicate most_routers (n * 65536)) d 0 }
{
    let absent = n as u32 * unchecked::STEP;
    let mut ds = [absent; ROUTERS];
    ds[d] = 0;
    ds
}

// The nearest router that is not settled. Distances and marks are two arrays, since those are the answer and these are not. What is compared is a distance with the place behind it; a settled router comes after all of those. That there are no
// more than ROUTERS is said to the compiler, which then unrolls the loop.
pub(crate) fn nearest(ds: &[u32; ROUTERS], marks: &[u32; ROUTERS], n: usize) -> usize
    requires { Searched ds.now marks.now n }
    ensures { Nearest ds.now marks.now n result }
{
    let mut best = u32::MAX;
    for v in 0..n.min(ROUTERS) {
        best = best.min(ds[v] * 64 + marks[v]);
    }
    (best % 64) as usize
}

// No neighbour over these arcs is farther than by way of their router, which is as far as `here`, by what it costs to come from the neighbour. Each is
// stored, nearer or not: there is no branch that cannot be foreseen.
pub(crate) fn relax(ds: &mut [u32; ROUTERS], arcs: &[Arc], here: u32)
    requires { Passable (map returning arcs.now) ds.old × (here ≤ farthest) }
    ensures { Relaxed (map returning arcs.now) here ds.old ds.new }
{
    for arc in arcs {
        let v = arc.to.0 as usize;
        ds[v] = ds[v].min(arc.back as u32 + here);
    }
}
