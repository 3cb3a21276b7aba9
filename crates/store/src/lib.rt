// The macro store: 256 cells of 32 bytes, lent by the caller. The body of a macro is a chain of cells, and cell 0 heads the free chain.
#![tactic(auto)]

pub mod cells;
pub mod chains;
pub mod cursors;
pub mod names;
pub mod opening;
