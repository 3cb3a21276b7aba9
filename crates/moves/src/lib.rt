// What moves the cursor: characters and format effectors.
#![tactic(auto)]

pub mod characters;
pub mod movers;
