// The frames that a unit hears, each read as a whole.
#![tactic(auto)]

pub mod contents;
pub mod first;
pub mod third;
