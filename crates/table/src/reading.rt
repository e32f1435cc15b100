// A table's header, and where it differs from another.
ghost use Rattle.std.specs.Prelude.{◌≡◌, ◌≤◌, eqb, length, position, not};
ghost use Rattle.std.specs.List.{zip};
ghost use Rattle.network.specs.Lists.{below, every};
ghost use Rattle.topology_types.specs.Limits.{most_routers};
ghost use Rattle.table_rows.specs.Layout.{header_length, table_length};
ghost use Rattle.table.specs.Listed.{layout_of, rank_in_lem};
ghost use Rattle.table.specs.Calls.{sound_header};

use super::unchecked::reading::Table;
use topology_types::NEXT_HOPS;

// Whether the header is sound for n routers: the layout's kind, destination below n, count n, K from 1 to 16.
pub(crate) fn header_is_sound(n: usize, table: Table) -> bool
    requires { header_length (layout_of table.bytes.now) ≤ length table.bytes.now }
    ensures { result ≡ sound_header n table.entry.bytes.now }
{
    table.bytes[0] == table.layout.kind
        && table.destination().index() < n
        && table.count() == n
        && (1..=NEXT_HOPS).contains(&table.limit())
}

// Whether two tables for n routers have the same ranks.
pub(crate) fn ranks_agree(n: usize, table: Table, other: Table) -> bool
    requires { (n ≤ most_routers) × (table_length (layout_of table.bytes.now) n ≤ length table.bytes.now) × (table_length (layout_of other.bytes.now) n ≤ length other.bytes.now) }
    ensures { result ≡ every (λ u. eqb (rank_in_lem table.entry.bytes.now u) (rank_in_lem other.entry.bytes.now u)) (below n) }
{
    for u in 0..n {
        if table.rank(u) != other.rank(u) {
            return false;
        }
    }
    true
}

// The first offset at which two tables of one length differ.
pub(crate) fn first_difference(table: &[u8], other: &[u8]) -> Option<usize>
    ensures { result ≡ position (λ p. not (eqb p.0 p.1)) (zip table.now other.now) }
{
    table.iter().zip(other).position(|(x, y)| *x != *y)
}
