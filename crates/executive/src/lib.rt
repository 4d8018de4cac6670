// The executive: the state of a rack and what may be done to it.
#![tactic(auto)]

pub mod calls;
pub mod loaded;
pub mod standing;
pub mod state;
