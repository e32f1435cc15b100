// What the rows of a table list.
ghost use Rattle.std.specs.Prelude.{◌≡◌, ◌<◌, T};
ghost use Rattle.topology_sound.specs.Sound.{sound};
ghost use Rattle.arcs.specs.Inner.{Laid};
ghost use Rattle.coverage_rules.specs.Coverage.{pairs_to, covered_among, listed_for};
ghost use Rattle.coverage_rules.specs.Inner.{two_in, all_in, Countable};

use arcs::Arcs;
use order::Mode;
use table::unchecked::reading::Table;
use topology_types::{Place, Topology};

// How many rows have two entries or more, and how many entries all have.
#[derive(Clone, Copy)]
pub(crate) struct Counts {
    pub two: usize,
    pub entries: usize,
}

// The tally of a table for n routers.
fn tally(table: Table, n: usize) -> Counts
    requires { Countable table.bytes.now n }
    ensures { (result.two ≡ two_in table.entry.bytes.now n) × (result.entries ≡ all_in table.entry.bytes.now n) }
{
    let mut two: usize = 0;
    let mut entries: usize = 0;
    for u in 0..n {
        let count = table.row(u).len();
        entries += count;
        if 2 <= count {
            two += 1;
        }
    }
    Counts { two, entries }
}

// The tally of the destination's table: its own row is empty, so that none of its rows but another router's has two entries.
pub(crate) fn tally_for(t: &Topology, a: &Arcs, destination: Place) -> Counts
    requires { T (sound t.now) × Laid t.now a.now × (destination.0 < t.now.routers) }
    ensures { (result.two ≡ covered_among t.now (pairs_to t.now.routers destination.0)) × (result.entries ≡ listed_for t.now destination.0) }
{
    let built = table::unchecked::build(t, a, destination, Mode::ShortestPath);
    tally(Table::of(built.as_slice()), t.routers)
}
