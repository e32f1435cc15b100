// Rows of next hops, and the bytes of a table (01, Rows and tables).
#![tactic(auto)]

use topology_types::{NEXT_HOPS, ROUTERS};

mod sorting;
pub mod unchecked;
mod writing;

// A row has room for as many entries as K may be.
pub const ENTRIES: usize = NEXT_HOPS as usize;

// How a table is laid out: its kind and that of its rows, and how many bytes a place and a rank have (specs/Layout.antt). The kinds are the bytes that stand
// in a table, so that a further kind of table is one more value.
#[derive(Clone, Copy)]
pub struct Layout {
    pub kind: u8,
    pub rows: u8,
    pub place: u8,
    pub rank: u8,
}

// 01, Rows and tables: kind 16 with rows of kind 17, a byte for a place and for a rank.
pub const NARROW: Layout = Layout {
    kind: 16,
    rows: 17,
    place: 1,
    rank: 1,
};

// The bytes of the longest table.
pub const TABLE: usize = 4 + 19 * ROUTERS;
