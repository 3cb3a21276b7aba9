// Storing the bytes of a macro definition: one, an ESC and another, or a run of them.
#![tactic(auto)]

pub mod appending;
pub mod escapes;
pub mod filling;
