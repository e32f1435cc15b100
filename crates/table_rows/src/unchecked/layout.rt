// Where the fields of a table stand, and the numbers in them, by its layout.
ghost use Rattle.std.specs.Prelude.{◌≡◌, ◌+◌, ◌^◌, ◌≤◌, ◌<◌, length};
ghost use Rattle.topology_types.specs.Limits.{most_routers};
ghost use Rattle.table_rows.specs.Layout.{row_start_lem, number_at, narrow, table_length};
ghost use Rattle.table_rows.specs.Inner.{Readable};

use super::super::{ENTRIES, Layout, TABLE};

impl Layout {
    // Where the row of the place u begins; where u is how many routers there are, how long the table is.
    #[tactic(auto, unfolding(crate::specs::Layout::row_start_lem))]
    pub fn row_start(self, u: usize) -> usize
        requires { Readable self × (u ≤ most_routers) }
        ensures { result ≡ row_start_lem self u }
    {
        let place = usize::from(self.place);
        let rank = usize::from(self.rank);
        2 + place + rank + (2 + rank + place * ENTRIES) * u
    }
}

// The number that stands in one byte or two from an offset on.
pub fn number_at(bytes: &[u8], at: usize, width: u8) -> usize
    requires { (1 ≤ width) × (width ≤ 2) × (at + width ≤ length bytes.now) }
    ensures { (result ≡ number_at width bytes.now at) × (result < 256 ^ width) }
{
    if width < 2 {
        return usize::from(bytes[at]);
    }
    usize::from(u16::from_be_bytes([bytes[at], bytes[at + 1]]))
}

// Room for the longest table.
pub fn room_for_table() -> [u8; TABLE]
    ensures { table_length narrow most_routers ≡ length result }
{
    [0; TABLE]
}
