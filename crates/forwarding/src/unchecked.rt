// For callers that have checked the table.
ghost use Rattle.std.specs.Prelude.{◌++◌, ◌≡◌, ◌≤◌, T, length, drop};
ghost use Rattle.topology_sound.specs.Sound.{sound};
ghost use Rattle.table.specs.Calls.{table_checking};
ghost use Rattle.forwarding_rules.specs.Calls.{figures};

use forwarding_steps::unchecked::counting;
use topology_types::Topology;

// The greatest hop counts of all places, into the first bytes of the slice.
pub fn greatest_hops(t: &Topology, table: &[u8], out: &mut [u8])
    requires { T (sound t.now) × (table_checking t.now table.now ≡ record { number = 0; at = 0 }) × (t.now.routers ≤ length out.old) }
    ensures { out.new ≡ figures t.now table.now ++ drop t.now.routers out.old }
{
    let bounds = counting::bounds_of(t, table);
    bounds.put(t.routers, out);
}
