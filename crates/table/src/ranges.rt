// The ranges of the fields, and the order of the entries (document 01, "The image"). Each is one test with no branch in
// it, as the definitions have it.
ghost use Rattle.std.specs.Prelude.{◌≡◌, ◌&&◌};
ghost use Rattle.table.specs.WellFormed.{within, due_in_range, task_in_range, sem_in_range, board_in_range};
ghost use Rattle.table.specs.WellFormed.{task_before, sem_before};

use crate::{Board, Sem, Task, limits};

#[tactic(auto, unfolding(crate::specs::WellFormed::task_in_range, crate::specs::WellFormed::within))]
pub fn task_in_range(task: Task) -> bool
    ensures { result ≡ task_in_range task }
{
    let queue = task.queue;
    match queue {
        1..=3 => fields_in_range(task),
        _ => false,
    }
}

// The number, the period, the cost and the deadline.
#[tactic(auto, unfolding(crate::specs::WellFormed::within))]
fn fields_in_range(task: Task) -> bool
    ensures { result
        ≡ (within 1 task.number 65535
        && within 1000 task.period 100000000
        && within 1 task.cost task.period
        && due_in_range task) }
{
    let number = (1 <= task.number) & (task.number <= limits::NUMBER_MOST);
    let period = (limits::PERIOD_LEAST <= task.period) & (task.period <= limits::PERIOD_MOST);
    let cost = (1 <= task.cost) & (task.cost <= task.period);
    number & period & cost & due_in_range(task)
}

// A deadline of its own leaves room for the cost, falls before the period's end, and only an FP task has one.
#[tactic(auto, unfolding(crate::specs::WellFormed::due_in_range))]
fn due_in_range(task: Task) -> bool
    ensures { result ≡ due_in_range task }
{
    (task.due == 0) | ((task.queue == 3) & (task.cost <= task.due) & (task.due < task.period))
}

#[tactic(auto, unfolding(crate::specs::WellFormed::sem_in_range, crate::specs::WellFormed::within))]
pub fn sem_in_range(sem: Sem) -> bool
    ensures { result ≡ sem_in_range sem }
{
    (1 <= sem.number) & (sem.number <= limits::NUMBER_MOST)
}

#[tactic(auto, unfolding(crate::specs::WellFormed::board_in_range))]
pub fn board_in_range(b: Board) -> bool
    ensures { result ≡ board_in_range b }
{
    let most = limits::FIGURE_MOST;
    let dp = (b.dp_block <= most)
        & (b.dp_unblock <= most)
        & (b.dp_select <= most)
        & (b.dp_select_task <= most);
    dp & (b.fp_block <= most)
        & (b.fp_block_task <= most)
        & (b.fp_unblock <= most)
        & (b.fp_select <= most)
        & (b.per_queue <= most)
}

// Tasks stand by rising period, equal periods by rising number, queues never falling.
#[tactic(auto, unfolding(crate::specs::WellFormed::task_before))]
pub fn task_before(a: Task, b: Task) -> bool
    ensures { result ≡ task_before a b }
{
    (a.queue <= b.queue) & ((a.period, a.number) < (b.period, b.number))
}

// Semaphores stand by rising number: one comparison, where a derived order of `Sem` would order holders too.
#[tactic(auto, unfolding(crate::specs::WellFormed::sem_before))]
pub fn sem_before(first: Sem, second: Sem) -> bool
    ensures { result ≡ sem_before first second }
{
    first.number < second.number
}
