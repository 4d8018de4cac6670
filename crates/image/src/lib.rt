// The table image: loading a state from it, and writing it back.
#![tactic(auto)]

pub mod load;
pub mod write;
