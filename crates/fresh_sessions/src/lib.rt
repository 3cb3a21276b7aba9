// Sessions as they are opened, with their store.
#![tactic(auto)]

pub mod open;
