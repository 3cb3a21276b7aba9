// A pen apart from its text, which is lent.
#![tactic(auto)]

pub mod tips;
