// Judging: the tests of document 01 on a table, with charges included.
#![tactic(auto)]

pub mod judge;
mod search;
mod sums;

// What the tests read of a task. The queue is its number of document 01, as in `Task`. What range the figures have
// stands in the clauses of the functions inside and not in the type: `JudgeWhen` and `JudgeNames` speak of the rows of
// any tasks.
#[derive(Clone, Copy)]
pub struct Row {
    pub period: u64,
    pub load: u64,
    pub span: u64,
    pub queue: u8,
}

// Why a table does not pass, with the number of the task that is named.
#[derive(Clone, Copy, PartialEq, Eq)]
pub enum Unfit {
    NoTask,
    SharedPeriod(u16),
    Dp1OverFull,
    DpOverFull,
    Dp2NoTime(u16),
    FpNoTime(u16),
}

// What judging answers in document 01's numbers, of which the theorems on judging speak: that of the first test that
// fails, or 0, and the task that it names, or 0.
#[derive(Clone, Copy)]
pub struct Verdict {
    pub number: u8,
    pub task: u16,
}
