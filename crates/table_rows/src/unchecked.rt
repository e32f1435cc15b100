// For callers that have tested the topology, the destination and the order, and have laid out the arcs and the distances.
pub mod layout;

ghost use Rattle.std.specs.Prelude.{◌++◌, ◌≡◌, ◌≤◌, length, drop};
ghost use Rattle.topology_types.specs.Topology.{network_of};
ghost use Rattle.table_rows.specs.Layout.{narrow, table_length};
ghost use Rattle.table_rows.specs.Bytes.{table_bytes};
ghost use Rattle.table_rows.specs.Inner.{Fillable};

use super::sorting::Keys;
use super::{NARROW, sorting, writing};
use arcs::Arcs;
use topology_types::{Place, ROUTERS, Topology};

// The table for the destination, the next-hop limit and an order, into the first bytes of the slice. The order is the ranked places alone, without the 255s
// that follow them in a proposal; the row of a place that it does not hold has 255 for its rank.
pub fn fill(
    t: &Topology,
    a: &Arcs,
    ds: &[u32; ROUTERS],
    destination: Place,
    limit: u8,
    order: &[u8],
    out: &mut [u8],
)
    requires { Fillable t.now a.now ds.now destination.0 limit order.now × (table_length narrow t.now.routers ≤ length out.old) }
    ensures { out.new ≡ table_bytes (network_of t.now) destination.0 limit order.now ++ drop (table_length narrow t.now.routers) out.old }
{
    let n = t.routers;
    let most = usize::from(limit);
    let ranks = order::unchecked::ranks_of(order);
    let weights = sorting::weights_of(&t.id, ds, n);
    let header = NARROW.row_start(0);
    writing::put_header(&mut out[..header], NARROW, destination, n as u8, limit);
    let mut keys = Keys::new();
    for u in 0..n {
        sorting::sort_keys(&mut keys, a.at(u), &weights, &ranks, u);
        let first = NARROW.row_start(u);
        let end = NARROW.row_start(u + 1);
        writing::put_row(&mut out[first..end], NARROW, ranks.by[u], keys.first(most));
    }
}
