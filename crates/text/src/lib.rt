// Text: its field, the cursor, and the drawing point beside it.
#![tactic(auto)]

pub mod axis;
pub mod cursor;
pub mod field;
