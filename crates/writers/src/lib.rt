// The frames as they are written, each as a whole.
#![tactic(auto)]

pub mod comeback;
pub mod header;
pub mod second;
