// Judging a state: each test in its order, and the first task at which one arises.
ghost use Rattle.std.specs.Prelude.{◌≡◌, ◌≤◌, ◌<◌, length, take};
ghost use Rattle.executive.specs.States.{tasks_of};
ghost use Rattle.executive.specs.Sound.{Sound};
ghost use Rattle.judging.specs.Rows.{rows_of};
ghost use Rattle.judging.specs.Ranges.{InRange};
ghost use Rattle.judging.specs.Verdicts.{late, first_late, verdict_by, verdict_of, told};

use crate::{Row, Unfit, Verdict, search, sums};
use charges::Counts;
use executive::state::State;
use table::refusals::Refusal;
use table::{Board, Task};

// Whether the task at i is in the queue and has no time: among all tasks for a DP2 task, among those up to it for an FP
// task. The definition has the same two cases, so that a search handed in would be no plainer.
fn late(rows: &[Row], queue: u8, i: usize) -> bool
    requires { InRange rows.now × (i < length rows.now) }
    ensures { result ≡ late queue rows.now i }
{
    let row = rows[i];
    if row.queue != queue {
        return false;
    }
    if queue == 2 {
        return !search::has_time(rows, Some(row.period), row.period);
    }
    !search::has_time(&rows[..i + 1], None, row.span)
}

// The first task of the queue in table order that has no time.
fn first_late(rows: &[Row], queue: u8) -> Option<usize>
    requires { InRange rows.now }
    ensures { result ≡ first_late queue rows.now }
{
    for i in 0..rows.len() {
        if late(rows, queue, i) {
            return Some(i);
        }
    }
    None
}

// The tests in their order: 7, 10, 11, 12, 13, 14.
fn tested(tasks: &[Task], rows: &[Row]) -> Result<(), Unfit>
    requires { InRange rows.now × (length tasks.now ≡ length rows.now) }
    ensures { told result ≡ verdict_by tasks.now rows.now }
{
    if rows.is_empty() {
        return Err(Unfit::NoTask);
    }
    let h = match sums::shared_period(rows) {
        Ok(h) => h,
        Err(i) => return Err(Unfit::SharedPeriod(tasks[i].number)),
    };
    if sums::over_full(rows, 1, h) {
        return Err(Unfit::Dp1OverFull);
    }
    if sums::over_full(rows, 2, h) {
        return Err(Unfit::DpOverFull);
    }
    let dp2 = first_late(rows, 2);
    if let Some(i) = dp2 {
        return Err(Unfit::Dp2NoTime(tasks[i].number));
    }
    let fp = first_late(rows, 3);
    if let Some(i) = fp {
        return Err(Unfit::FpNoTime(tasks[i].number));
    }
    Ok(())
}

// The rows of the tasks, at most 64, as in `charges`, at the front of an array, as there is no heap.
fn rows_of(tasks: &[Task], board: Board) -> [Row; 64]
    requires { length tasks.now ≤ 64 }
    ensures { take (length tasks.now) result ≡ rows_of tasks.now board }
{
    let counts = Counts::of(tasks, board);
    let mut rows = [Row {
        period: 0,
        load: 0,
        span: 0,
        queue: 0,
    }; 64];
    for (i, task) in tasks.iter().enumerate() {
        rows[i] = Row {
            period: task.period as u64,
            load: counts.load(*task),
            span: task.span() as u64,
            queue: task.queue,
        };
    }
    rows
}

// Judges a state: the first test that it fails, and the task at which that arises.
pub fn judge(state: State) -> Result<(), Unfit>
    requires { Sound state }
    ensures { told result ≡ verdict_of (tasks_of state) state.board }
{
    let n = state.n;
    let tasks = &state.tasks[..n];
    let rows = rows_of(tasks, state.board);
    tested(tasks, &rows[..n])
}

// An answer in document 01's numbers.
pub fn told(answer: Result<(), Unfit>) -> Verdict
    ensures { result ≡ told answer }
{
    let (refusal, task) = match answer {
        Ok(()) => return Verdict { number: 0, task: 0 },
        Err(Unfit::NoTask) => (Refusal::NoTask, 0),
        Err(Unfit::SharedPeriod(task)) => (Refusal::SharedPeriod, task),
        Err(Unfit::Dp1OverFull) => (Refusal::Dp1OverFull, 0),
        Err(Unfit::DpOverFull) => (Refusal::DpOverFull, 0),
        Err(Unfit::Dp2NoTime(task)) => (Refusal::Dp2NoTime, task),
        Err(Unfit::FpNoTime(task)) => (Refusal::FpNoTime, task),
    };
    Verdict {
        number: refusal.number(),
        task,
    }
}
