// Steps of a run of commands: the next command opened, a control or a format effector, the point that is due.
#![tactic(auto)]

pub mod effectors;
pub mod opening;
pub mod points;
