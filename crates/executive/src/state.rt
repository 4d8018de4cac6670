// The by-value state that document 01 names: 64 task entries, 16 semaphore entries, the board and its flag.
ghost use Rattle.std.specs.Prelude.{◌≡◌, length};
ghost use Rattle.executive.specs.States.{empty_state, tasks_of, sems_of};
ghost use Rattle.waits.specs.Waits.{Used};
ghost use Rattle.executive.specs.Sound.{Sized, Sound};

use table::{Board, Sem, Task};
use waits::Entries;

// Two arrays of a fixed length with their counts, the board and its flag: the form that 01 names. What holds of a state
// (`Sized`, `Sound`) is a clause of the functions that take one and no invariant of the type: some ask for less than
// others, and `RefusedSame` and `RefusedWrite` speak of any state.
#[derive(Clone, Copy)]
pub struct State {
    pub tasks: [Task; 64],
    pub sems: [Sem; 16],
    // How many tasks and semaphores there are; the entries behind them are blank.
    pub n: usize,
    pub m: usize,
    // The time of the last accepted release, 0 where there was none.
    pub last: u64,
    pub board: Board,
    // Whether a board record was there.
    pub present: bool,
}

impl State {
    // What a refused load hands back: no task, no semaphore, all numbers zero.
    pub fn empty() -> Self
        ensures { result ≡ empty_state }
    {
        Self {
            tasks: [Task::blank(); 64],
            sems: [Sem::blank(); 16],
            n: 0,
            m: 0,
            last: 0,
            board: Board::no_figures(),
            present: false,
        }
    }

    // The tasks and the semaphores that there are.
    #[tactic(auto, unfolding(crate::specs::States::tasks_of, crate::specs::States::sems_of))]
    pub(crate) fn entries(&self) -> Entries<'_>
        requires { Sized self.now }
        ensures tasks { result.tasks.now ≡ tasks_of self.now }
        ensures sems { result.sems.now ≡ sems_of self.now }
        ensures counts { (length result.tasks.now ≡ self.now.n) × (length result.sems.now ≡ self.now.m) }
        ensures used { Sound self.now → Used result.tasks.now result.sems.now }
    {
        Entries {
            tasks: &self.tasks[..self.n],
            sems: &self.sems[..self.m],
        }
    }
}
