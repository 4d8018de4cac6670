// Standing and the running task. Nothing is kept: both are worked out from who waits for what.
ghost use Rattle.std.specs.Prelude.{◌≡◌, ◌<◌, length};
ghost use Rattle.waits.specs.Waits.{Used};
ghost use Rattle.waits.specs.Standing.{holds_it, still_holds, standing_of, running_of, heir_of, closes_ring};
ghost use Rattle.waits.specs.Scan.{on_holder, waited_on};

use crate::scan::{Goal, Lead};
use crate::{Entries, scan};
use table::{Sem, Task};

// A standing: queue (a number as in `Task`), deadline (0 in FP) and position.
#[derive(Clone, Copy)]
pub struct Rank {
    pub deadline: u64,
    pub queue: u8,
    pub position: u8,
}

// Whether the task at a position holds the semaphore.
#[tactic(auto, unfolding(crate::specs::Standing::holds_it, crate::specs::Standing::found_and))]
pub fn holds_it(i: usize, entry: Sem) -> bool
    ensures { result ≡ holds_it i entry }
{
    entry.holder.is_some_and(|at| at as usize == i)
}

impl<'a> Entries<'a> {
    // Whether the task at a position holds a semaphore.
    #[tactic(auto, unfolding(crate::specs::Standing::still_holds))]
    pub fn holds(&self, i: usize) -> bool
        ensures { result ≡ still_holds self.now.sems.now i }
    {
        self.sems.iter().any(|entry| holds_it(i, *entry))
    }

    // The ready task of best standing.
    pub fn running(&self) -> Option<usize>
        requires { Used self.now.tasks.now self.now.sems.now }
        ensures { result ≡ running_of self.now.tasks.now self.now.sems.now }
    {
        self.scan(Goal::Ready).map(|best| best.met)
    }

    // The waiter of best standing for the semaphore at a place.
    pub fn heir(&self, k: usize) -> Option<usize>
        requires { Used self.now.tasks.now self.now.sems.now × (k < length self.now.sems.now) }
        ensures { result ≡ heir_of self.now.tasks.now self.now.sems.now k }
    {
        self.scan(Goal::WaitsFor(k as u8)).map(|best| best.met)
    }

    // Whether an acquire of the semaphore at k by the task at i would close a ring of waits: the chain that starts at
    // the semaphore's holder comes to that task. It is followed by no index.
    pub fn closes_ring(&self, i: usize, k: usize) -> bool
        requires { Used self.now.tasks.now self.now.sems.now × (i < length self.now.tasks.now) × (k < length self.now.sems.now) }
        ensures { result ≡ closes_ring self.now.tasks.now self.now.sems.now i k }
    {
        let goal = Goal::Is(i as u8);
        let mut at = Lead::ToSem(k as u8);
        while let Lead::ToSem(k) = at {
            at = match self.sems[k as usize].holder {
                None => Lead::Nobody,
                Some(place) => scan::led_by(goal, self.tasks[place as usize].status, place),
            };
        }
        matches!(at, Lead::Met(_))
    }

    // Whether a task waits for a semaphore that the task at a position holds.
    fn waits_on(&self, t: Task, i: usize) -> bool
        ensures { result ≡ on_holder self.now.sems.now i t }
    {
        let Some(k) = scan::waited(t.status) else {
            return false;
        };
        let Some(entry) = self.sems.get(k as usize) else {
            return false;
        };
        holds_it(i, *entry)
    }

    // Whether somebody does.
    #[tactic(auto, unfolding(crate::specs::Scan::waited_on))]
    fn waited_on(&self, i: usize) -> bool
        ensures { result ≡ waited_on self.now.tasks.now self.now.sems.now i }
    {
        self.tasks.iter().any(|t| self.waits_on(*t, i))
    }

    // The standing of the task at a position: the best of its own and those of all that wait for it.
    pub fn standing(&self, i: usize) -> Rank
        requires { Used self.now.tasks.now self.now.sems.now × (i < length self.now.tasks.now) }
        ensures { result ≡ standing_of self.now.tasks.now self.now.sems.now i }
    {
        let own = scan::own(self.tasks[i], i as u8);
        if !self.waited_on(i) {
            return own;
        }
        match self.scan(Goal::Is(i as u8)) {
            None => own,
            Some(best) => scan::own(self.tasks[best.position], best.position as u8),
        }
    }
}
