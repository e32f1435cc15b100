// For callers that have tested the topology, laid out its arcs and have room on the page.
pub mod fields;

ghost use Rattle.std.specs.Prelude.{◌*◌, ◌<◌, T};
ghost use Rattle.topology_sound.specs.Sound.{sound};
ghost use Rattle.arcs.specs.Inner.{Laid};
ghost use Rattle.text.specs.Page.{Puts, Room};
ghost use Rattle.listing_rules.specs.Listing.{lines_for, all_lines};
ghost use Rattle.listing_rules.specs.Inner.{most_listing_lines};

use super::printing;
use arcs::Arcs;
use order::Mode;
use table::unchecked::reading::Table;
use text::unchecked::lines::Page;
use topology_types::{Place, ROUTERS, Topology};

// The lines of a destination.
pub fn put_lines(t: &Topology, a: &Arcs, destination: Place, page: &mut Page<'_>)
    requires { T (sound t.now) × Laid t.now a.now × (destination.0 < t.now.routers) × Room page.old most_listing_lines }
    ensures { Puts page.old (lines_for t.now destination.0) page.new }
{
    let built = table::unchecked::build(t, a, destination, Mode::ShortestPath);
    let table = built.as_slice();
    let mut hops = [0u8; ROUTERS];
    forwarding::unchecked::greatest_hops(t, table, &mut hops);
    printing::put_table(page, Table::of(table), &hops[..t.routers], destination);
}

// The lines of all destinations.
pub fn put_all(t: &Topology, a: &Arcs, page: &mut Page<'_>)
    requires { T (sound t.now) × Laid t.now a.now × Room page.old (most_listing_lines * t.now.routers) }
    ensures { Puts page.old (all_lines t.now) page.new }
{
    for d in 0..t.routers {
        put_lines(t, a, Place(d as u8), page);
    }
}
