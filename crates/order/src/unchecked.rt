// For callers that have tested the topology and the destination, and for ranks the order. Arcs and distances are lent, so that a program that goes
// through all destinations lays out the arcs once, and computes the distances to each once.
ghost use Rattle.std.specs.Prelude.{◌++◌, ◌≡◌, ◌*◌, ◌<◌, ◌≤◌, ltb, length, get_or, drop, replicate};
ghost use Rattle.network.specs.Lists.{below, keep};
ghost use Rattle.network.specs.Order as «said-order»;
ghost use Rattle.topology_types.specs.Limits.{most_routers};
ghost use Rattle.topology_types.specs.Outcome.{tested};
ghost use Rattle.topology_types.specs.declared.Topology.{Topology};
ghost use Rattle.topology_types.specs.Topology.{network_of};
ghost use Rattle.distances.specs.Inner.{LaidIn};
ghost use Rattle.order.specs.Calls.{mode_of, order_bytes, judging};
ghost use Rattle.order.specs.Inner.{DistancesFor, Lent, Measured, Ranked, RanksOf};

use super::{Mode, proposal};
use arcs::Arcs;
use topology_types::{Fault, Place, ROUTERS, Rank, Refusal, Topology};

// What the mode needs of distances to build an order: in shortest-path mode the distances, in free mode none, so zeros. Judging one needs the distances in
// both modes, for how many ranks are reached.
pub fn distances_for(a: &Arcs, n: usize, destination: Place, mode: Mode) -> [u32; ROUTERS]
    requires { ((t : Topology) × LaidIn t a.now n) × (destination.0 < n) }
    ensures { (t : Topology) → LaidIn t a.now n → DistancesFor (network_of t) destination.0 mode result }
{
    match mode {
        Mode::ShortestPath => distances::unchecked::to(a, n, destination),
        Mode::Free => [0; ROUTERS],
    }
}

// 255, which is no place, into every byte.
fn clear(out: &mut [u8])
    ensures { out.new ≡ replicate (length out.old) 255 }
{
    out.fill(255);
}

// The order for the destination, into the first bytes of the slice: the routers that have a path to it, then 255. It is that of every topology that has
// these arcs and, for as many routers, these IDs.
pub fn build(
    a: &Arcs,
    ds: &[u32; ROUTERS],
    ids: &[u32],
    destination: Place,
    mode: Mode,
    out: &mut [u8],
)
    requires { ((t : Topology) × Lent t a.now ids.now destination.0 mode ds.now) × (length ids.now ≤ length out.old) }
    ensures { (t : Topology) → Lent t a.now ids.now destination.0 mode ds.now → out.new ≡ order_bytes (length ids.now) («said-order».build (network_of t) destination.0 (mode_of mode)) ++ drop (length ids.now) out.old }
{
    let n = ids.len();
    let d = destination.index();
    let lower = order_standings::unchecked::lower_ids(ids);
    let places = order_standings::unchecked::places_of(&lower[..n]);
    let mut keys = order_standings::unchecked::standings(a, ds, &lower, n, mode);
    order_standings::unchecked::count_in(&mut keys, mode, a.at(d), ds, d);
    clear(&mut out[..n]);
    out[0] = destination.0;
    for rank in 1..n {
        let best = order_standings::unchecked::highest(&keys[..n]);
        if !order_standings::unchecked::is_candidate(best) {
            return;
        }
        let place = places[(best % order_standings::unchecked::NEAR) as usize];
        let u = place as usize;
        order_standings::unchecked::count_in(&mut keys, mode, a.at(u), ds, u);
        out[rank] = place;
    }
}

// How many of the first n routers have a distance, by place: as many have a path to the destination (02, #107).
pub fn reached_count(ds: &[u32; ROUTERS], n: usize) -> usize
    requires { n ≤ most_routers }
    ensures { result ≡ length (keep (λ v. ltb (get_or ds.now v 0) (n * 65536)) (below n)) }
{
    distances::unchecked::lower_than(&ds[..n], n as u32 * distances::unchecked::STEP) as usize
}

// Whether a proposed order is accepted: refusals 17 to 20.
pub fn judge(
    t: &Topology,
    a: &Arcs,
    ds: &[u32; ROUTERS],
    destination: Place,
    mode: Mode,
    order: &[u8],
) -> Result<(), Refusal>
    requires { Measured t.now a.now destination.0 ds.now }
    ensures { tested result ≡ judging t.now destination.0 mode order.now }
{
    let n = t.routers;
    if order.len() != n {
        return Err(Fault::OrderLength.at(order.len()));
    }
    let reached = reached_count(ds, n);
    if let Some(rank) = proposal::wrong_rank(n, &order[..reached]) {
        return Err(Fault::OrderEntry.at(rank));
    }
    if let Some(rank) = proposal::rank_after(reached, order) {
        return Err(Fault::OrderEntry.at(rank));
    }
    if order[0] != destination.0 {
        return Err(Fault::FirstNotDestination.at(0));
    }
    let d = destination.index();
    if let Some(rank) = proposal::unready_rank(t, a, ds, d, mode, &order[..reached]) {
        return Err(Fault::NoCandidate.at(rank));
    }
    Ok(())
}

// The rank of every place in an order, 255 for a place that it does not hold, which has no rank: the way from a place to a rank. No place has 255 as its
// rank, since an order holds at most 64 places; so a place with no rank compares as behind every place that has one. 255 is also the byte of a table's row
// for a place with no rank (02, #107), and a byte a place is what the rows' sorting reads: an `Option` takes two, and two tests to compare.
#[derive(Clone, Copy)]
pub struct Ranks {
    pub by: [Rank; ROUTERS],
}

// The order holds places alone, no 255s; every place but those keeps the 255 that it starts with.
pub fn ranks_of(order: &[u8]) -> Ranks
    requires { Ranked order.now }
    ensures { RanksOf order.now result }
{
    let mut by = [Rank(255); ROUTERS];
    for (rank, u) in order.iter().enumerate() {
        by[*u as usize] = Rank(rank as u8);
    }
    Ranks { by }
}
