// The calls: each takes the state by value and hands back the next state beside an answer. A refusal hands back the very
// state.
ghost use Rattle.std.specs.Prelude.{◌≡◌, ◌≤◌, ◌<◌, ◌+◌, not, IfOk, IfSome, get_or};
ghost use Rattle.std.specs.Option.{ok_or};
ghost use Rattle.table.specs.Entries.{blank_task, span_of, with_status, with_deadline};
ghost use Rattle.table.specs.Places.{task_place, sem_place};
ghost use Rattle.waits.specs.Waits.{waits_for};
ghost use Rattle.waits.specs.Standing.{is_idle, is_event, is_none, running_of, heir_of};
ghost use Rattle.table.specs.declared.refusals.Refusal.TheVariants.{UnknownTask, UnknownSem, NobodyRuns};
ghost use Rattle.executive.specs.States.{tasks_of, sems_of};
ghost use Rattle.executive.specs.Sound.{Sized, Sound};
ghost use Rattle.executive.specs.Calls.{
  with_task,
  step_by,
  step_of,
  release_of,
  signal_of,
  withdraw_of,
  acquire_of,
  give_of,
  complete_of,
  block_of,
};

use crate::state::State;
use table::refusals::Refusal;
use table::{Status, Task, limits};
use waits::standing;

// What a call that is accepted did: all of it, or its caller now waits for the semaphore. Each is its number in
// document 01.
#[derive(Clone, Copy, PartialEq, Eq)]
pub enum Accepted {
    Done = 0,
    Waits = 90,
}

// What a call hands back: the next state beside the answer.
#[derive(Clone, Copy)]
pub struct Moved {
    pub state: State,
    pub answer: Result<Accepted, Refusal>,
}

#[tactic(auto, unfolding(waits::specs::Standing::is_idle))]
fn is_idle(status: Status) -> bool
    ensures { result ≡ is_idle status }
{
    matches!(status, Status::Idle)
}

#[tactic(auto, unfolding(waits::specs::Standing::is_event))]
fn is_event(status: Status) -> bool
    ensures { result ≡ is_event status }
{
    matches!(status, Status::Event)
}

// Whether a task that does this waits for a semaphore.
#[tactic(auto, unfolding(waits::specs::Standing::is_none, waits::specs::Standing::found_and, waits::specs::Waits::waits_for))]
fn waits(status: Status) -> bool
    ensures { result ≡ not (is_none (waits_for status)) }
{
    matches!(status, Status::Waits(_))
}

// The task released: its deadline is set and it is ready.
fn released(t: Task, time: u64) -> Task
    requires { time ≤ 1000000000000000 }
    ensures { result ≡ with_status (with_deadline t (time + span_of t)) Status.Ready }
{
    let span = t.span();
    let due = t.with_deadline(time + span as u64);
    due.with_status(Status::Ready)
}

// Each call is its act on the state in place. One function over all seven would take the act as a closure, of which it
// would have to be told at each call that it may act on this very state: no plainer.
impl State {
    // Takes a time, sets the deadline and makes an idle task ready.
    pub fn release(mut self, number: u16, time: u64) -> Moved
        requires { Sized self }
        ensures { step_of result ≡ release_of self number time }
    {
        let answer = self.try_release(number, time);
        Moved {
            state: self,
            answer,
        }
    }

    // Makes an event waiter ready.
    pub fn signal(mut self, number: u16) -> Moved
        requires { Sized self }
        ensures { step_of result ≡ signal_of self number }
    {
        let answer = self.try_signal(number);
        Moved {
            state: self,
            answer,
        }
    }

    // Makes a semaphore waiter ready without it.
    pub fn withdraw(mut self, number: u16) -> Moved
        requires { Sized self }
        ensures { step_of result ≡ withdraw_of self number }
    {
        let answer = self.try_withdraw(number);
        Moved {
            state: self,
            answer,
        }
    }

    // The running task becomes idle.
    pub fn complete(mut self) -> Moved
        requires { Sound self }
        ensures { step_of result ≡ complete_of self }
    {
        let answer = self.try_complete();
        Moved {
            state: self,
            answer,
        }
    }

    // The running task waits for an event, also while it holds a semaphore.
    pub fn block(mut self) -> Moved
        requires { Sound self }
        ensures { step_of result ≡ block_of self }
    {
        let answer = self.try_block();
        Moved {
            state: self,
            answer,
        }
    }

    // The running task takes a free semaphore, else it waits.
    pub fn acquire(mut self, number: u16) -> Moved
        requires { Sound self }
        ensures { step_of result ≡ acquire_of self number }
    {
        let answer = self.try_acquire(number);
        Moved {
            state: self,
            answer,
        }
    }

    // The running task hands a semaphore to the waiter of best standing, which becomes ready, or frees it.
    pub fn give(mut self, number: u16) -> Moved
        requires { Sound self }
        ensures { step_of result ≡ give_of self number }
    {
        let answer = self.try_give(number);
        Moved {
            state: self,
            answer,
        }
    }

    // The position of the task with this number, or 20.
    pub(crate) fn task(&self, number: u16) -> Result<usize, Refusal>
        requires { Sized self.now }
        ensures place { result ≡ ok_or (task_place (tasks_of self.now) number) UnknownTask }
        ensures inside { IfOk result (λ i. i < self.now.n) }
    {
        lookup::place(self.entries().tasks, number).ok_or(Refusal::UnknownTask)
    }

    // The place of the semaphore with this number, or 21.
    fn sem(&self, number: u16) -> Result<usize, Refusal>
        requires { Sized self.now }
        ensures place { result ≡ ok_or (sem_place (sems_of self.now) number) UnknownSem }
        ensures inside { IfOk result (λ k. k < self.now.m) }
    {
        lookup::place(self.entries().sems, number).ok_or(Refusal::UnknownSem)
    }

    // The position of the task that runs, or 26.
    pub(crate) fn runs(&self) -> Result<usize, Refusal>
        requires { Sound self.now }
        ensures place { result ≡ ok_or (running_of (tasks_of self.now) (sems_of self.now)) NobodyRuns }
        ensures inside { IfOk result (λ i. i < self.now.n) }
    {
        self.entries().running().ok_or(Refusal::NobodyRuns)
    }

    // The position of the waiter of best standing for the semaphore at a place.
    fn heir(&self, k: usize) -> Option<usize>
        requires { Sound self.now × (k < self.now.m) }
        ensures place { result ≡ heir_of (tasks_of self.now) (sems_of self.now) k }
        ensures inside { IfSome result (λ i. i < self.now.n) }
    {
        self.entries().heir(k)
    }

    // Release: 20, 23, 22.
    fn try_release(&mut self, number: u16, time: u64) -> Result<Accepted, Refusal>
        requires { Sized self.old }
        ensures { step_by self.new result ≡ release_of self.old number time }
    {
        let i = self.task(number)?;
        let t = self.tasks[i];
        if !is_idle(t.status) {
            return Err(Refusal::NotIdle);
        }
        if (time < self.last) | (limits::TIME_MOST < time) {
            return Err(Refusal::TimeRefused);
        }
        self.tasks[i] = released(t, time);
        self.last = time;
        Ok(Accepted::Done)
    }

    // The task at a position becomes ready.
    #[tactic(auto, unfolding(crate::specs::Calls::with_tasks))]
    fn wake(&mut self, i: usize)
        requires { Sized self.old × (i < self.old.n) }
        ensures { self.new ≡ with_task self.old i (with_status (get_or self.old.tasks i blank_task) Status.Ready) }
    {
        self.tasks[i] = self.tasks[i].with_status(Status::Ready);
    }

    // Signal: 20, 24.
    fn try_signal(&mut self, number: u16) -> Result<Accepted, Refusal>
        requires { Sized self.old }
        ensures { step_by self.new result ≡ signal_of self.old number }
    {
        let i = self.task(number)?;
        if !is_event(self.tasks[i].status) {
            return Err(Refusal::NoEventWait);
        }
        self.wake(i);
        Ok(Accepted::Done)
    }

    // Withdraw: 20, 25.
    fn try_withdraw(&mut self, number: u16) -> Result<Accepted, Refusal>
        requires { Sized self.old }
        ensures { step_by self.new result ≡ withdraw_of self.old number }
    {
        let i = self.task(number)?;
        if !waits(self.tasks[i].status) {
            return Err(Refusal::NoSemWait);
        }
        self.wake(i);
        Ok(Accepted::Done)
    }

    // Complete: 26, 27.
    fn try_complete(&mut self) -> Result<Accepted, Refusal>
        requires { Sound self.old }
        ensures { step_by self.new result ≡ complete_of self.old }
    {
        let i = self.runs()?;
        if self.entries().holds(i) {
            return Err(Refusal::StillHolds);
        }
        self.tasks[i] = self.tasks[i].with_status(Status::Idle);
        Ok(Accepted::Done)
    }

    // Block: 26.
    fn try_block(&mut self) -> Result<Accepted, Refusal>
        requires { Sound self.old }
        ensures { step_by self.new result ≡ block_of self.old }
    {
        let i = self.runs()?;
        self.tasks[i] = self.tasks[i].with_status(Status::Event);
        Ok(Accepted::Done)
    }

    // Acquire: 26, 21, 28.
    fn try_acquire(&mut self, number: u16) -> Result<Accepted, Refusal>
        requires { Sound self.old }
        ensures { step_by self.new result ≡ acquire_of self.old number }
    {
        let i = self.runs()?;
        let k = self.sem(number)?;
        if self.entries().closes_ring(i, k) {
            return Err(Refusal::Ring);
        }
        let entry = self.sems[k];
        if entry.holder.is_some() {
            self.tasks[i] = self.tasks[i].with_status(Status::Waits(k as u8));
            return Ok(Accepted::Waits);
        }
        self.sems[k] = entry.with_holder(Some(i as u8));
        Ok(Accepted::Done)
    }

    // Give: 26, 21, 29.
    fn try_give(&mut self, number: u16) -> Result<Accepted, Refusal>
        requires { Sound self.old }
        ensures { step_by self.new result ≡ give_of self.old number }
    {
        let i = self.runs()?;
        let k = self.sem(number)?;
        let entry = self.sems[k];
        if !standing::holds_it(i, entry) {
            return Err(Refusal::NotHeld);
        }
        let Some(heir) = self.heir(k) else {
            self.sems[k] = entry.with_holder(None);
            return Ok(Accepted::Done);
        };
        self.tasks[heir] = self.tasks[heir].with_status(Status::Ready);
        self.sems[k] = entry.with_holder(Some(heir as u8));
        Ok(Accepted::Done)
    }
}
