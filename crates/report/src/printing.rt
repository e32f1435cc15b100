// Putting lines onto a page.
ghost use Rattle.std.specs.Prelude.{◌≡◌, ◌*◌, length};
ghost use Rattle.table.specs.Listed.{rank_in_lem};
ghost use Rattle.table.specs.Inner.{HasRow};
ghost use Rattle.text.specs.Page.{Puts, Room};
ghost use Rattle.listing_rules.specs.Inner.{most_listing_line, most_listing_lines, row_text, front_of_lem, front_text, front_line, RowFits, Small, Listable, table_text};

use super::unchecked::fields::{put_fields, put_place, put_rank};
use listing_rules::Front;
use table::unchecked::reading::Table;
use table_rows::ENTRIES;
use text::unchecked::lines::Page;
use topology_types::{Place, ROUTERS, Rank};

// Room for a line, and for the lines of a destination.
const LINE: usize = 14 + 3 * ENTRIES;

pub(crate) const LINES: usize = LINE * ROUTERS;

pub(crate) fn room_for_lines() -> [u8; LINES]
    ensures { most_listing_lines ≡ length result }
{
    text::filled(0)
}

// The row, a space before each field.
fn put_row(page: &mut Page<'_>, row: &[u8])
    requires { RowFits row.now × Room page.old 48 }
    ensures { Puts page.old (row_text row.now) page.new }
{
    if row.is_empty() {
        page.put(b" -");
    } else {
        put_fields(page, row);
    }
}

// The fields of a line before its row.
fn put_front(page: &mut Page<'_>, front: Front)
    requires { Small front × Room page.old 13 }
    ensures { Puts page.old (front_text front) page.new }
{
    page.put_small(front.destination.0);
    put_place(page, front.router);
    put_rank(page, front.rank);
    put_rank(page, front.hops);
}

// A line.
fn put_line(page: &mut Page<'_>, front: Front, row: &[u8])
    requires { Small front × RowFits row.now × Room page.old most_listing_line }
    ensures { Puts page.old (front_line front row.now) page.new }
{
    put_front(page, front);
    put_row(page, row);
    page.put(b"\n");
}

// The fields before its row of the line of the router at u, by the table and its hop count.
fn front_of(table: Table, destination: Place, u: usize, hops: u8) -> Front
    requires { HasRow table.bytes.now u }
    ensures { result ≡ front_of_lem destination.0 u (rank_in_lem table.entry.bytes.now u) hops }
{
    let rank = table.rank(u);
    Front {
        destination,
        router: Place(u as u8),
        rank,
        hops: Rank(hops),
    }
}

// The lines of a table, with the hop counts by place.
pub(crate) fn put_table(page: &mut Page<'_>, table: Table, hops: &[u8], destination: Place)
    requires { Listable table.bytes.now hops.now (length hops.now) destination.0 × Room page.old (most_listing_line * length hops.now) }
    ensures { Puts page.old (table_text table.entry.bytes.now hops.now destination.0 (length hops.now)) page.new }
{
    for (u, count) in hops.iter().enumerate() {
        put_line(page, front_of(table, destination, u, *count), table.row(u));
    }
}
