// Asking for the running task and for a standing, which changes nothing.
ghost use Rattle.std.specs.Prelude.{◌≡◌};
ghost use Rattle.std.specs.Option.{option_map};
ghost use Rattle.waits.specs.Waits.{task_at};
ghost use Rattle.waits.specs.Standing.{running_of};
ghost use Rattle.executive.specs.States.{tasks_of, sems_of};
ghost use Rattle.executive.specs.Sound.{Sound};
ghost use Rattle.executive.specs.Calls.{stands_by, stands_of};

use crate::state::State;
use table::refusals::Refusal;
use waits::standing::Rank;

impl State {
    // The number of the ready task of best standing.
    pub fn running(&self) -> Option<u16>
        requires { Sound self.now }
        ensures { result
            ≡ option_map (λ i. (task_at (tasks_of self.now) i).number) (running_of (tasks_of self.now) (sems_of self.now)) }
    {
        let Ok(i) = self.runs() else {
            return None;
        };
        Some(self.tasks[i].number)
    }

    // The standing of the task with this number: queue, deadline and position, or 20.
    pub fn standing(&self, number: u16) -> Result<Rank, Refusal>
        requires { Sound self.now }
        ensures { stands_by result ≡ stands_of self.now number }
    {
        let i = self.task(number)?;
        Ok(self.entries().standing(i))
    }
}
