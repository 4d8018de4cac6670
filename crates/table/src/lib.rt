// The entries of a rack's table, the limits and the refusals of document 01, and the built-in figures of the board.
#![tactic(auto)]

ghost use Rattle.std.specs.Prelude.{◌≡◌};
ghost use Rattle.table.specs.Entries.{built_in, no_figures, blank_task, blank_sem};
ghost use Rattle.table.specs.Entries.{span_of, with_status, with_deadline, with_holder};

pub mod limits;
pub mod ranges;
pub mod refusals;

// What a task is doing. A semaphore is named by its place in the table.
#[derive(Clone, Copy)]
pub enum Status {
    Idle,
    Ready,
    Event,
    Waits(u8),
}

// A task. The wide fields stand first, so that an entry has no gaps. `due` is the deadline as the record has it, in
// ticks from a release, 0 for the period; `deadline` is that of the last release. A queue is its number, on which 01 asks
// for a `match`; the blank task has 0, and a record may have any.
#[derive(Clone, Copy)]
pub struct Task {
    pub deadline: u64,
    pub period: u32,
    pub cost: u32,
    pub due: u32,
    pub number: u16,
    pub queue: u8,
    pub status: Status,
}

// A semaphore. Who holds it is named by its position in the table.
#[derive(Clone, Copy)]
pub struct Sem {
    pub number: u16,
    pub holder: Option<u8>,
}

// The nine overhead figures, in the order of the board record.
#[derive(Clone, Copy)]
pub struct Board {
    pub dp_block: u16,
    pub dp_unblock: u16,
    pub dp_select: u16,
    pub dp_select_task: u16,
    pub fp_block: u16,
    pub fp_block_task: u16,
    pub fp_unblock: u16,
    pub fp_select: u16,
    pub per_queue: u16,
}

impl Board {
    pub const DP_BLOCK: u16 = 160;

    pub const DP_UNBLOCK: u16 = 120;

    pub const DP_SELECT: u16 = 120;

    pub const DP_SELECT_TASK: u16 = 25;

    pub const FP_BLOCK: u16 = 100;

    pub const FP_BLOCK_TASK: u16 = 36;

    pub const FP_UNBLOCK: u16 = 140;

    pub const FP_SELECT: u16 = 60;

    pub const PER_QUEUE: u16 = 55;

    // The figures that hold if there is no board record.
    #[tactic(auto, unfolding(crate::specs::Entries::built_in))]
    pub fn built_in() -> Self
        ensures { result ≡ built_in }
    {
        Self {
            dp_block: Board::DP_BLOCK,
            dp_unblock: Board::DP_UNBLOCK,
            dp_select: Board::DP_SELECT,
            dp_select_task: Board::DP_SELECT_TASK,
            fp_block: Board::FP_BLOCK,
            fp_block_task: Board::FP_BLOCK_TASK,
            fp_unblock: Board::FP_UNBLOCK,
            fp_select: Board::FP_SELECT,
            per_queue: Board::PER_QUEUE,
        }
    }

    // The figures of the empty state: every number is zero.
    pub fn no_figures() -> Self
        ensures { result ≡ no_figures }
    {
        Self {
            dp_block: 0,
            dp_unblock: 0,
            dp_select: 0,
            dp_select_task: 0,
            fp_block: 0,
            fp_block_task: 0,
            fp_unblock: 0,
            fp_select: 0,
            per_queue: 0,
        }
    }
}

impl Task {
    // What stands at a place that no task has.
    pub fn blank() -> Self
        ensures { result ≡ blank_task }
    {
        Self {
            deadline: 0,
            period: 0,
            cost: 0,
            due: 0,
            number: 0,
            queue: 0,
            status: Status::Idle,
        }
    }

    // The same task, doing something else.
    pub fn with_status(self, status: Status) -> Self
        ensures { result ≡ with_status self status }
    {
        Self { status, ..self }
    }

    // The same task, with another deadline.
    pub fn with_deadline(self, deadline: u64) -> Self
        ensures { result ≡ with_deadline self deadline }
    {
        Self { deadline, ..self }
    }

    // The time from a release to its deadline.
    #[tactic(auto, unfolding(crate::specs::Entries::span_of))]
    pub fn span(self) -> u32
        ensures { result ≡ span_of self }
    {
        if self.due == 0 { self.period } else { self.due }
    }
}

impl Sem {
    // What stands at a place that no semaphore has.
    pub fn blank() -> Self
        ensures { result ≡ blank_sem }
    {
        Self {
            number: 0,
            holder: None,
        }
    }

    // The same semaphore, held otherwise.
    pub fn with_holder(self, holder: Option<u8>) -> Self
        ensures { result ≡ with_holder self holder }
    {
        Self { holder, ..self }
    }
}
