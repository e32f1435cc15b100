// Placing the routers of an order (01, Order): the mode, and in `unchecked` the standings of the routers that wait to be placed.
#![tactic(auto)]

pub mod unchecked;

// 01, Order: shortest-path mode is ANHOR-SP, free mode ANHOR.
#[derive(Clone, Copy)]
pub enum Mode {
    ShortestPath,
    Free,
}
