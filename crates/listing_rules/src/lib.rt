// The text of the listing (01, Two networks by hand). Its definitions and theorems stand in specs/.
#![tactic(auto)]

use topology_types::{Place, Rank};

// The fields of a line before its row; the greatest hop count, a bound, is a rank.
#[derive(Clone, Copy)]
pub struct Front {
    pub destination: Place,
    pub router: Place,
    pub rank: Rank,
    pub hops: Rank,
}
