// The lines of every path from a start (02, 103), for the program `routes`.
#![tactic(auto)]

mod printing;
pub mod unchecked;
