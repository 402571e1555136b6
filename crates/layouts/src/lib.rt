// The elements' contents, each read and written in one file.
#![tactic(auto)]

pub mod mic;
pub mod timeout;
