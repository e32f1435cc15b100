// What stands in a table, by its layout: for callers that know it to be long enough.
ghost use Rattle.std.specs.Prelude.{◌≡◌, ◌≤◌, length};
ghost use Rattle.topology_types.specs.Limits.{most_next_hops};
ghost use Rattle.table_rows.specs.Layout.{header_length};
ghost use Rattle.table.specs.Listed.{layout_of, destination_in_lem, count_in_lem, limit_in_lem, rank_in_lem, entry_count, places_in};
ghost use Rattle.table.specs.Inner.{HasRow};

use table_rows::unchecked::layout;
use table_rows::{Layout, NARROW};
use topology_types::{Place, Rank};

// A lent table, and its layout. It is made of any bytes, before their number is tested, so that each reading asks for the bytes that it reads.
#[derive(Clone, Copy)]
pub struct Table<'a> {
    pub layout: Layout,
    pub bytes: &'a [u8],
    pub ghost laid: { layout ≡ layout_of bytes.now },
}

impl<'a> Table<'a> {
    // The layout goes by the kind: there is one, and a table of any other kind is refused.
    pub fn of(bytes: &'a [u8]) -> Table<'a>
        ensures { result.bytes.now ≡ bytes.now }
    {
        Table {
            layout: NARROW,
            bytes,
        }
    }

    // The destination.
    pub fn destination(self) -> Place
        requires { header_length (layout_of self.bytes.now) ≤ length self.bytes.now }
        ensures { result.0 ≡ destination_in_lem self.entry.bytes.now }
    {
        Place(layout::number_at(self.bytes, 1, self.layout.place) as u8)
    }

    // The router count.
    pub fn count(self) -> usize
        requires { header_length (layout_of self.bytes.now) ≤ length self.bytes.now }
        ensures { result ≡ count_in_lem self.entry.bytes.now }
    {
        let at = 1 + usize::from(self.layout.place);
        layout::number_at(self.bytes, at, self.layout.rank)
    }

    // K.
    pub fn limit(self) -> u8
        requires { header_length (layout_of self.bytes.now) ≤ length self.bytes.now }
        ensures { result ≡ limit_in_lem self.entry.bytes.now }
    {
        self.bytes[1 + usize::from(self.layout.place) + usize::from(self.layout.rank)]
    }

    // The rank of the place u; where it has none, 255, the byte that stands there.
    pub fn rank(self, u: usize) -> Rank
        requires { HasRow self.bytes.now u }
        ensures { result.0 ≡ rank_in_lem self.entry.bytes.now u }
    {
        let at = self.layout.row_start(u) + 1;
        Rank(layout::number_at(self.bytes, at, self.layout.rank) as u8)
    }

    // The places that the row of u lists, a byte each, as a part of the table.
    pub fn row(self, u: usize) -> &'a [u8]
        requires { HasRow self.bytes.now u × (entry_count self.bytes.now u ≤ most_next_hops) }
        ensures { result.now ≡ places_in self.entry.bytes.now u }
    {
        let count = self.layout.row_start(u) + 1 + usize::from(self.layout.rank);
        let first = count + 1;
        let last = first + usize::from(self.bytes[count]);
        &self.bytes[first..last]
    }
}
