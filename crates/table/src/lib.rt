// Tables (01, Rows and tables): filled for an order, and checked.
#![tactic(auto)]

use order::Mode;
use table_rows::NARROW;
use topology_types::{Fault, Place, Refusal, Topology};

mod reading;
pub mod unchecked;

ghost use Rattle.std.specs.Prelude.{◌≡◌};
ghost use Rattle.topology_types.specs.Outcome.{answer_of, tested};
ghost use Rattle.table.specs.Calls.{filling, table_checking};

// Fills the table of a destination for an order accepted in free mode, the reached routers and then 255 up to N: refusals 14, 15, 17 to 20 and 24.
pub fn fill(t: Topology, destination: Place, order: &[u8], out: &mut [u8]) -> Result<usize, Refusal>
    ensures { record { answer = answer_of result; buffer = out.new } ≡ filling t destination.0 order.now out.old }
{
    topology_sound::test_place(t, destination)?;
    let a = arcs::unchecked::of(t);
    let ds = distances::unchecked::to(&a, t.routers, destination);
    order::unchecked::judge(&t, &a, &ds, destination, Mode::Free, order)?;
    let needed = NARROW.row_start(t.routers);
    if out.len() < needed {
        return Err(Fault::BufferTooShort.at(needed));
    }
    let reached = order::unchecked::reached_count(&ds, t.routers);
    table_rows::unchecked::fill(&t, &a, &ds, destination, t.limit, &order[..reached], out);
    Ok(needed)
}

// Checks a table: refusals 14 and 21.
pub fn check(t: Topology, table: &[u8]) -> Result<(), Refusal>
    ensures { tested result ≡ table_checking t table.now }
{
    if !topology_sound::is_sound(t) {
        return Err(Fault::UnsoundTopology.at(0));
    }
    let a = arcs::unchecked::of(t);
    unchecked::check(&t, &a, table)
}
