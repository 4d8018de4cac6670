// Writing a list: the tasks in table order, a record each.
ghost use Rattle.std.specs.Prelude.{◌≡◌, ◌*◌, length};
ghost use Rattle.fields.specs.Parts.{flat};
ghost use Rattle.table.specs.Refusals.{told};
ghost use Rattle.table.specs.Sums.{any};
ghost use Rattle.executive.specs.Sound.{Sized};
ghost use Rattle.linux.specs.Writing.{encode_attr, outside_dp1, list_number, list_written};

use crate::{RECORD, SCHED_DEADLINE, SIZE, TICK};
use executive::state::State;
use table::Task;
use table::refusals::Refusal;

pub fn write(state: State, list: &mut [u8]) -> Result<(), Refusal>
    requires { Sized state }
    ensures value { told result ≡ list_number state (length list.old) }
    ensures list_after { list.new ≡ list_written state list.old }
{
    let tasks = &state.tasks[..state.n];
    if tasks.is_empty() {
        return Err(Refusal::NoTask);
    }
    if list.len() != tasks.len() * RECORD {
        return Err(Refusal::NoList);
    }
    if some_outside(tasks) {
        return Err(Refusal::NoList);
    }
    put_records(tasks, list);
    Ok(())
}

// Whether some task is outside DP1.
#[tactic(auto, unfolding(crate::specs::Writing::outside_dp1))]
fn some_outside(tasks: &[Task]) -> bool
    ensures { result ≡ any outside_dp1 tasks.now }
{
    tasks.iter().any(|task| task.queue != 1)
}

// The places are worked out here: of what is written through chunks_exact_mut std tells only how long it is.
fn put_records(tasks: &[Task], list: &mut [u8])
    requires { length list.old ≡ 48 * length tasks.now }
    ensures { list.new ≡ flat encode_attr tasks.now }
{
    for (i, task) in tasks.iter().enumerate() {
        let at = i * RECORD;
        put_record(*task, &mut list[at..at + RECORD]);
    }
}

// Puts one task into a part of 48 bytes, whatever stood there.
fn put_record(task: Task, part: &mut [u8])
    requires { length part.old ≡ 48 }
    ensures { part.new ≡ encode_attr task }
{
    let runtime = (task.cost as u64) * TICK;
    let period = (task.period as u64) * TICK;
    fields::fill(part, 0);
    fields::put(part, 0, SIZE);
    fields::put(part, 4, SCHED_DEADLINE);
    fields::put(part, 24, runtime);
    fields::put(part, 32, period);
    fields::put(part, 40, period);
}
