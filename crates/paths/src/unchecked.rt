// For callers that have tested the topology, the start and the table, and lent the room.
ghost use Rattle.std.specs.Prelude.{◌≡◌, ◌≤◌, length};
ghost use Rattle.paths_rules.specs.Theorems.{Passed};
ghost use Rattle.paths.specs.Inner.{most_bytes, PathsFound};

use super::{BYTES, PATH, gathering};
use topology_types::{Place, Topology};

// Room for as many paths as there may be.
pub fn room_for_paths() -> [u8; BYTES]
    ensures { most_bytes ≡ length result }
{
    text::filled(0)
}

// Every path from a start to the table's destination, into the first bytes of the slice; answers how many there are, none beyond 512, where what is left
// in the slice is free.
pub fn gather(t: &Topology, table: &[u8], start: Place, out: &mut [u8]) -> Option<usize>
    requires { Passed t.now table.now start.0 × (most_bytes ≤ length out.old) }
    ensures { PathsFound t.now table.now start.0 out.old result out.new }
{
    gathering::from_station(table, start, [255; PATH], 0, out, 0)
}
