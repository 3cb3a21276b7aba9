// The calls that only ask: a colour of the map, what a feed left unread of a piece, the number of an answer.
#![tactic(auto)]

pub mod colour;
pub mod number;
pub mod unread;
