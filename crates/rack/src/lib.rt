// The boundary for other languages: functions that take slices and give numbers. The crate rack_c exports them, and
// include/rack.h declares them for C.
#![tactic(auto)]

pub mod export;
pub mod import;
pub mod play;
mod refusals;
pub mod rewrite;
mod rows;
pub mod verdict;
