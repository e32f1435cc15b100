// For callers that have tested the topology and laid out its arcs.
pub mod reading;

ghost use Rattle.std.specs.Prelude.{◌≡◌, ◌≤◌, ◌<◌, T, length, take};
ghost use Rattle.topology_types.specs.Limits.{most_routers};
ghost use Rattle.topology_types.specs.Outcome.{tested};
ghost use Rattle.topology_types.specs.Topology.{network_of};
ghost use Rattle.topology_sound.specs.Sound.{sound};
ghost use Rattle.arcs.specs.Inner.{Laid};
ghost use Rattle.order.specs.Calls.{mode_of};
ghost use Rattle.table_rows.specs.declared.TheConstants.{TABLE};
ghost use Rattle.table_rows.specs.Layout.{table_length};
ghost use Rattle.table.specs.Listed.{layout_of, by_rank};
ghost use Rattle.table.specs.Calls.{table_judging, built_table};
ghost use Rattle.table.specs.Inner.{Started, first_wrong_lem};

use self::reading::Table;
use super::reading as tests;
use arcs::Arcs;
use order::Mode;
use table_rows::unchecked::layout;
use table_rows::{NARROW, TABLE};
use topology_types::{Fault, Place, ROUTERS, Refusal, Topology};

// The order that the ranks form, in the first n entries; 255 at a rank that no place has, the byte of a proposed order (02, #107). The lowest place of a rank comes last, and stands.
pub fn order_of(n: usize, table: Table) -> [u8; ROUTERS]
    requires { (n ≤ most_routers) × (length table.bytes.now ≡ table_length (layout_of table.bytes.now) n) }
    ensures { take n result ≡ by_rank n table.entry.bytes.now }
{
    let mut order = [255; ROUTERS];
    for u in (0..n).rev() {
        let rank = usize::from(table.rank(u).0);
        if rank < n {
            order[rank] = u as u8;
        }
    }
    order
}

// The first byte that filling would not give for the table's order and its header's K, and 0 where a rank differs.
fn first_wrong(
    t: &Topology,
    a: &Arcs,
    ds: &[u32; ROUTERS],
    table: Table,
    order: &[u8],
) -> Option<usize>
    requires { Started t.now a.now ds.now table.bytes.now order.now }
    ensures { result ≡ first_wrong_lem (network_of t.now) t.now.routers table.entry.bytes.now }
{
    let n = t.routers;
    let destination = table.destination();
    let limit = table.limit();
    let reached = order::unchecked::reached_count(ds, n);
    let mut room = layout::room_for_table();
    table_rows::unchecked::fill(t, a, ds, destination, limit, &order[..reached], &mut room);
    let right = &room[..table.bytes.len()];
    if !tests::ranks_agree(n, table, Table::of(right)) {
        return Some(0);
    }
    tests::first_difference(table.bytes, right)
}

// Whether a table is accepted: refusal 21.
pub fn check(t: &Topology, a: &Arcs, table: &[u8]) -> Result<(), Refusal>
    requires { T (sound t.now) × Laid t.now a.now }
    ensures { tested result ≡ table_judging t.now table.now }
{
    let n = t.routers;
    let length = table.len();
    let table = Table::of(table);
    if length != table.layout.row_start(n) {
        return Err(Fault::TableNotAccepted.at(length));
    }
    if !tests::header_is_sound(n, table) {
        return Err(Fault::TableNotAccepted.at(0));
    }
    let destination = table.destination();
    let places = order_of(n, table);
    let order = &places[..n];
    let ds = distances::unchecked::to(a, n, destination);
    let judged = order::unchecked::judge(t, a, &ds, destination, Mode::Free, order);
    if judged.is_err() {
        return Err(Fault::TableNotAccepted.at(0));
    }
    match first_wrong(t, a, &ds, table, order) {
        Some(at) => Err(Fault::TableNotAccepted.at(at)),
        None => Ok(()),
    }
}

// A table, in the first bytes of an array, since there is no heap.
#[derive(Clone, Copy)]
pub struct Built {
    pub bytes: [u8; TABLE],
    pub length: usize,
    pub ghost fits: { length ≤ TABLE },
}

impl Built {
    pub fn as_slice(&self) -> &[u8]
        ensures { result.now ≡ take self.now.length self.now.bytes }
    {
        &self.bytes[..self.length]
    }
}

// The table of the destination for the order that is built in the mode and the topology's K.
pub fn build(t: &Topology, a: &Arcs, destination: Place, mode: Mode) -> Built
    requires { T (sound t.now) × Laid t.now a.now × (destination.0 < t.now.routers) }
    ensures { take result.length result.bytes ≡ built_table t.now destination.0 (mode_of mode) }
{
    let n = t.routers;
    let ds = distances::unchecked::to(a, n, destination);
    let mut order = [0; ROUTERS];
    order::unchecked::build(a, &ds, &t.id[..n], destination, mode, &mut order);
    let reached = order::unchecked::reached_count(&ds, n);
    let mut bytes = layout::room_for_table();
    table_rows::unchecked::fill(
        t,
        a,
        &ds,
        destination,
        t.limit,
        &order[..reached],
        &mut bytes,
    );
    Built {
        bytes,
        length: NARROW.row_start(n),
    }
}
