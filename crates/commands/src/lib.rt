// Commands closed and opened; the fresh look.
#![tactic(auto)]

pub mod closing;
pub mod looks;
pub mod opening;
