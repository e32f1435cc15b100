// The greatest hop counts, from the lowest rank up.
ghost use Rattle.std.specs.Prelude.{◌++◌, map, ◌≡◌, suc, ◌≤◌, T, length, drop};
ghost use Rattle.network.specs.Lists.{below, greatest_by};
ghost use Rattle.topology_types.specs.Limits.{most_routers};
ghost use Rattle.topology_sound.specs.Sound.{sound};
ghost use Rattle.table.specs.Calls.{table_checking};
ghost use Rattle.forwarding_steps.specs.Inner.{bound_of, Bounded, FiguresIn};

use super::chains::chains_of;
use table::unchecked::reading::Table;
use topology_types::{Place, ROUTERS, Rank, Topology};

// The greatest hop count of every place, as far as it is known: a hop bound is a rank, 255 where a place has none, the byte that is reported (02, #107).
#[derive(Clone, Copy)]
pub struct Bounds {
    pub by: [Rank; ROUTERS],
}

impl Bounds {
    // One more than the greatest of the entries of a row, 0 if there is none.
    fn greatest_of(&self, row: &[u8]) -> Rank
        requires { Bounded row.now self.now.by }
        ensures { result.0 ≡ greatest_by (λ v. suc (bound_of self.now.by v)) row.now }
    {
        let mut best = 0;
        for v in row {
            let entry = Place(*v);
            best = best.max(self.by[entry.index()].0 + 1);
        }
        Rank(best)
    }

    // Puts the bounds of the first n places, each a byte.
    pub fn put(&self, n: usize, out: &mut [u8])
        requires { (n ≤ most_routers) × (n ≤ length out.old) }
        ensures { out.new ≡ map (bound_of self.now.by) (below n) ++ drop n out.old }
    {
        for (u, bound) in self.by[..n].iter().enumerate() {
            out[u] = bound.0;
        }
    }
}

// The greatest hop count of every place over an accepted table, from the lowest rank up, along the places of each: by then those of the row's entries are
// known.
pub fn bounds_of(t: &Topology, table: &[u8]) -> Bounds
    requires { T (sound t.now) × (table_checking t.now table.now ≡ record { number = 0; at = 0 }) }
    ensures { FiguresIn t.now table.now result }
{
    let listed = Table::of(table);
    let chains = chains_of(t.routers, listed);
    let mut bounds = Bounds {
        by: [Rank(255); ROUTERS],
    };
    // By rank, as the invariant has it: what is known is of the ranks below.
    for rank in 0..t.routers {
        let mut place = chains.first[rank];
        while let Some(p) = place {
            let u = p.index();
            bounds.by[u] = bounds.greatest_of(listed.row(u));
            place = chains.next[u];
        }
    }
    bounds
}
