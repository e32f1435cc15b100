// Every path from a station, gathered one behind the other: each is put over the route by which the station was reached, 64 bytes, 255 where no place is.
ghost use Rattle.std.specs.Prelude.{[], ◌∷◌, ◌+◌, ◌≤◌, length};
ghost use Rattle.topology_types.specs.declared.Topology.{Topology};
ghost use Rattle.topology_types.specs.Limits.{most_routers};
ghost use Rattle.paths_rules.specs.Calls.{most_paths, paths_of, paths_past};
ghost use Rattle.paths_rules.specs.Theorems.{Passed};
ghost use Rattle.paths.specs.Inner.{most_bytes, Asked, PathsPut};

use super::{PATH, PATHS};
use table::unchecked::reading::Table;
use topology_types::Place;

// A path that has come to its end. Answers how many there are then; none beyond 512, where the path is not put.
fn put_path(path: [u8; PATH], out: &mut [u8], count: usize) -> Option<usize>
    requires { (count ≤ most_paths) × (most_bytes ≤ length out.old) }
    ensures { PathsPut path most_routers out.old count ([] ∷ []) result out.new }
{
    if PATHS <= count {
        return None;
    }
    let at = PATH * count;
    out[at..at + PATH].copy_from_slice(&path);
    Some(count + 1)
}

// The paths from a station, which is reached by a route of so many moves. It and the next function call each other (01, Forms by place); the slice is lent
// and the count answered, in no one struct, for beyond 512 there is no count. The route is a path's 64 bytes, of which the moves are the first: no heap.
#[cycle(from_station_through_entries)]
pub(crate) fn from_station(
    table: &[u8],
    station: Place,
    route: [u8; PATH],
    moves: usize,
    out: &mut [u8],
    count: usize,
) -> Option<usize>
    requires { Asked table.now station.0 (moves + 1) count out.old }
    ensures { (t : Topology) → Passed t table.now station.0 → PathsPut route moves out.old count (paths_of t table.now station.0) result out.new }
{
    let mut here = route;
    here[moves] = station.0;
    let home = Table::of(table).destination();
    if station == home {
        return put_path(here, out, count);
    }
    through_entries(table, station, 0, here, moves + 1, out, count)
}

// The paths through the entries of a station's row, from the entry i on; beyond 512 it goes no further.
#[cycle(from_station_through_entries)]
fn through_entries(
    table: &[u8],
    station: Place,
    i: usize,
    route: [u8; PATH],
    moves: usize,
    out: &mut [u8],
    count: usize,
) -> Option<usize>
    requires { Asked table.now station.0 moves count out.old }
    ensures { (t : Topology) → Passed t table.now station.0 → PathsPut route moves out.old count (paths_past t table.now station.0 i) result out.new }
{
    let row = Table::of(table).row(station.index());
    let Some(next) = row.get(i) else {
        return Some(count);
    };
    let more = from_station(table, Place(*next), route, moves, out, count)?;
    through_entries(table, station, i + 1, route, moves, out, more)
}
