// The distances to a destination (01, Order), by Dijkstra's method: again and again the nearest router that is not settled is settled, and none of its
// neighbours is held farther than by way of it.
#![tactic(auto)]

mod settling;
pub mod unchecked;
