// The limits of document 01.

// "What the executive covers": up to 64 tasks, up to 16 semaphores.
pub const TASKS: usize = 64;

pub const SEMS: usize = 16;

// "The image": records of 32 bytes, at most 4,096 bytes in all.
pub const RECORD: usize = 32;

pub const IMAGE: usize = 4_096;

// "The image": the ranges of the fields.
pub const NUMBER_MOST: u16 = 65_535;

pub const PERIOD_LEAST: u32 = 1_000;

pub const PERIOD_MOST: u32 = 100_000_000;

pub const FIGURE_MOST: u16 = 10_000;

// "Numbers that come back", 10: the largest shared period. 22: the latest time.
pub const SHARED_PERIOD_MOST: u64 = 1_000_000_000_000;

pub const TIME_MOST: u64 = 1_000_000_000_000_000;
