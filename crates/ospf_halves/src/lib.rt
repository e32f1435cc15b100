// The neighbours of a router by the links of its LSA, and the halves given to them (02, #106).
#![tactic(auto)]

pub mod unchecked;
