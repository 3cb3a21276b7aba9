// The page reader's calls. None of open, feed, end, colour and unread has a `requires`: whatever is lent gets an answer.
#![tactic(auto)]

pub mod end;
pub mod feed;

pub use fresh_sessions::open;
pub use queries::{colour, number, unread};
