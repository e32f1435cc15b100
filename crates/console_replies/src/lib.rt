// The requests of the console that leave what is held as it is, and the line that a reply stands for.
#![tactic(auto)]

pub mod unchecked;
