// The coverage figures (02, #102): counted over the listing's tables, and put as lines. `report` has the call.
#![tactic(auto)]

mod tables;
pub mod unchecked;
