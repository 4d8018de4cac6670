// Lists of sched_attr records from Linux rigs, as sched_setattr(2) describes them: a table read from one, and written
// as one.
#![tactic(auto)]

pub mod read;
pub mod write;

// A record has 48 bytes, and says so in its first field.
pub const RECORD: usize = 48;

pub const SIZE: u32 = 48;

pub const SCHED_DEADLINE: u32 = 6;

// A tick has 10 nanoseconds.
pub const TICK: u64 = 10;
