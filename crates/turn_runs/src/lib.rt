// Runs: consecutive bytes read at once, beside the turns of a reading. A run may end before any byte, since a turn follows.
#![tactic(auto)]

mod cancelling;
pub mod drawn;
pub mod run;
