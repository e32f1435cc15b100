// The tests of a proposed order's entries, and of the routers that it places.
ghost use Rattle.std.specs.Prelude.{◌≡◌, ◌≤◌, eqb, not, length};
ghost use Rattle.std.specs.List.{position};
ghost use Rattle.topology_types.specs.Limits.{most_routers};
ghost use Rattle.topology_types.specs.Topology.{network_of};
ghost use Rattle.order.specs.Calls.{mode_of, first_of, wrong_ranks, ranks_after, unready_ranks};
ghost use Rattle.order.specs.Inner.{LaidOut, FirstPlaced};

use super::Mode;
use arcs::Arcs;
use topology_types::{ROUTERS, Topology};

// The first rank whose entry is not below n or stands before.
pub(crate) fn wrong_rank(n: usize, order: &[u8]) -> Option<usize>
    requires { n ≤ most_routers }
    ensures { result ≡ first_of (wrong_ranks n order.now) }
{
    let mut held = [false; ROUTERS];
    for (rank, entry) in order.iter().enumerate() {
        let u = *entry as usize;
        if n <= u || held[u] {
            return Some(rank);
        }
        held[u] = true;
    }
    None
}

// Where the first byte stands that is anything but 255.
fn first_ranked(bytes: &[u8]) -> Option<usize>
    ensures { result ≡ position (λ u. not (eqb u 255)) bytes.now }
{
    bytes.iter().position(|u| *u != 255)
}

// The first rank from `reached` on whose entry is anything but 255.
pub(crate) fn rank_after(reached: usize, order: &[u8]) -> Option<usize>
    requires { reached ≤ length order.now }
    ensures { result ≡ first_of (ranks_after reached order.now) }
{
    let after = first_ranked(&order[reached..])?;
    Some(reached + after)
}

// The first rank, but 0, whose router is no candidate when placed.
pub(crate) fn unready_rank(
    t: &Topology,
    a: &Arcs,
    ds: &[u32; ROUTERS],
    d: usize,
    mode: Mode,
    order: &[u8],
) -> Option<usize>
    requires { LaidOut t.now a.now d mode ds.now × FirstPlaced t.now d order.now }
    ensures { result ≡ first_of (unready_ranks (network_of t.now) d (mode_of mode) order.now) }
{
    // Ties are not decided here, so no lower IDs are counted.
    let lower = [0; ROUTERS];
    let mut keys = order_standings::unchecked::standings(a, ds, &lower, t.routers, mode);
    order_standings::unchecked::count_in(&mut keys, mode, a.at(d), ds, d);
    // The rank is what is answered.
    for rank in 1..order.len() {
        let u = order[rank] as usize;
        if !order_standings::unchecked::is_candidate(keys[u]) {
            return Some(rank);
        }
        order_standings::unchecked::count_in(&mut keys, mode, a.at(u), ds, u);
    }
    None
}
