// The bytes of a header and of a row, each into a part of a lent buffer that is as long.
ghost use Rattle.std.specs.Prelude.{◌≡◌, ◌≤◌, length, map};
ghost use Rattle.topology_types.specs.Limits.{most_next_hops};
ghost use Rattle.table_rows.specs.Layout.{header_length, row_length};
ghost use Rattle.table_rows.specs.Bytes.{header_bytes, row_bytes};
ghost use Rattle.table_rows.specs.Inner.{Bytewise, place_in_key};

use super::Layout;
use topology_types::{Place, Rank};

// The header: kind, destination, router count, K.
pub(crate) fn put_header(header: &mut [u8], l: Layout, destination: Place, count: u8, limit: u8)
    requires { Bytewise l × (length header.old ≡ header_length l) }
    ensures { header.new ≡ header_bytes l destination.0 count limit }
{
    header.copy_from_slice(&[l.kind, destination.0, count, limit]);
}

// A row: its kind, rank, count, the places that the keys name, and 255 in the entries that are not used.
pub(crate) fn put_row(row: &mut [u8], l: Layout, rank: Rank, keys: &[u64])
    requires { Bytewise l × (length keys.now ≤ most_next_hops) × (length row.old ≡ row_length l) }
    ensures { row.new ≡ row_bytes l rank.0 (map place_in_key keys.now) }
{
    row[0] = l.rows;
    row[1] = rank.0;
    row[2] = keys.len() as u8;
    row[3..].fill(255);
    for (i, key) in keys.iter().enumerate() {
        row[3 + i] = (*key % 256) as u8;
    }
}
