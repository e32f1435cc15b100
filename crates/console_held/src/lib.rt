// The requests of the console that change what is held, each a call of the library: what its fields hold, what it replies, and what is held from then on.
#![tactic(auto)]

pub mod unchecked;
