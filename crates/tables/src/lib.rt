// How bytes are classified: constant tables, and choices by a number or an enum.
#![tactic(auto)]

pub mod controls;
pub mod escapes;
pub mod sets;
