// Every path from a start to the destination of a table (02, 103).
#![tactic(auto)]

use topology_types::{Fault, Place, ROUTERS, Refusal, Topology};

mod gathering;
pub mod unchecked;

ghost use Rattle.std.specs.Prelude.{◌≡◌};
ghost use Rattle.topology_types.specs.Outcome.{answer_of};
ghost use Rattle.paths_rules.specs.Calls.{writing_paths};

// 02, 103: up to 512 paths, a path 64 bytes. The definitions have the same numbers: where one differs, a proof fails.
pub const PATHS: usize = 512;

pub const PATH: usize = ROUTERS;

// Room for as many paths as there may be.
pub const BYTES: usize = PATH * PATHS;

// Every path from a start to the table's destination, 64 bytes each: refusals 14, 15, 21, 25 and 24.
pub fn write(t: Topology, table: &[u8], start: Place, out: &mut [u8]) -> Result<usize, Refusal>
    ensures { record { answer = answer_of result; buffer = out.new } ≡ writing_paths t table.now start.0 out.old }
{
    topology_sound::test_place(t, start)?;
    let a = arcs::unchecked::of(t);
    table::unchecked::check(&t, &a, table)?;
    let mut paths = unchecked::room_for_paths();
    let Some(count) = unchecked::gather(&t, table, start, &mut paths) else {
        return Err(Fault::TooManyPaths.at(start.index()));
    };
    let needed = PATH * count;
    if out.len() < needed {
        return Err(Fault::BufferTooShort.at(needed));
    }
    out[..needed].copy_from_slice(&paths[..needed]);
    Ok(needed)
}
