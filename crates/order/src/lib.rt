// Orders (01, Order).
#![tactic(auto)]

pub use order_standings::Mode;
use topology_types::{Fault, Place, Refusal, Topology};

mod proposal;
pub mod unchecked;

ghost use Rattle.std.specs.Prelude.{◌≡◌};
ghost use Rattle.topology_types.specs.Outcome.{answer_of, tested};
ghost use Rattle.order.specs.Calls.{building, checking};

// Builds the order for a destination: refusals 14, 15 and 24.
pub fn build(t: Topology, destination: Place, mode: Mode, out: &mut [u8]) -> Result<usize, Refusal>
    ensures { record { answer = answer_of result; buffer = out.new } ≡ building t destination.0 mode out.old }
{
    topology_sound::test_place(t, destination)?;
    let n = t.routers;
    if out.len() < n {
        return Err(Fault::BufferTooShort.at(n));
    }
    let a = arcs::unchecked::of(t);
    let ds = unchecked::distances_for(&a, n, destination, mode);
    unchecked::build(&a, &ds, &t.id[..n], destination, mode, out);
    Ok(n)
}

// Checks a proposed order: refusals 14, 15 and 17 to 20.
pub fn check(t: Topology, destination: Place, mode: Mode, order: &[u8]) -> Result<(), Refusal>
    ensures { tested result ≡ checking t destination.0 mode order.now }
{
    topology_sound::test_place(t, destination)?;
    let a = arcs::unchecked::of(t);
    let ds = distances::unchecked::to(&a, t.routers, destination);
    unchecked::judge(&t, &a, &ds, destination, mode, order)
}
