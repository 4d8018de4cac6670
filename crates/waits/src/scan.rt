// The one scan over the tasks, from which the running task, an heir and a standing are read. It follows the chains of
// waits through a table that says where each semaphore leads.
ghost use Rattle.std.specs.Prelude.{◌≡◌, true, ◌<◌, length};
ghost use Rattle.waits.specs.Waits.{waits_for, Used};
ghost use Rattle.waits.specs.Standing.{own_rank, shown_deadline};
ghost use Rattle.waits.specs.Scan.{takes, holder_leads, Linked, walked, ended, to_sem, led_to, is_ahead, scan_of};

use crate::Entries;
use crate::standing::Rank;
use table::{Status, Task};

// Which task a chain of waits is followed to: a ready one, that at a position, or one that waits for a semaphore. A
// closure would be no plainer: what it answers would have to be tied to `takes` at each call.
#[derive(Clone, Copy)]
pub enum Goal {
    Ready,
    Is(u8),
    WaitsFor(u8),
}

// Where a chain leads: to nobody, on to the semaphore at a place, or to the task at a position, which the goal takes.
#[derive(Clone, Copy)]
pub enum Lead {
    Nobody,
    ToSem(u8),
    Met(u8),
}

// The best own standing among the tasks whose chain of waits meets the goal, and the position of the task that is met.
// No field is narrow, so that the loop carries no gaps: a `Rank` here was tried, and its gaps are written at each better
// task, so that `complete` misses its limit where every task is better than those before it.
#[derive(Clone, Copy)]
pub struct Best {
    pub deadline: u64,
    pub queue: u64,
    pub position: usize,
    pub met: usize,
}

const FP: u8 = 3;

// The place of the semaphore that is waited for.
#[tactic(auto, unfolding(crate::specs::Waits::waits_for))]
pub fn waited(status: Status) -> Option<u8>
    ensures { result ≡ waits_for status }
{
    match status {
        Status::Waits(k) => Some(k),
        _ => None,
    }
}

// Whether the goal takes a task that does this at this position.
#[tactic(auto, unfolding(crate::specs::Scan::takes, crate::specs::Standing::is_ready, crate::specs::Standing::found_and))]
fn taken(goal: Goal, status: Status, place: u8) -> bool
    ensures { result ≡ takes goal status place }
{
    match goal {
        Goal::Ready => matches!(status, Status::Ready),
        Goal::Is(at) => place == at,
        Goal::WaitsFor(k) => waited(status) == Some(k),
    }
}

// On to the semaphore that is waited for.
fn onward(status: Status) -> Lead
    ensures { result ≡ to_sem (waits_for status) }
{
    waited(status).map_or(Lead::Nobody, Lead::ToSem)
}

// Where a holder leads.
#[tactic(auto, unfolding(crate::specs::Scan::holder_leads))]
pub fn led_by(goal: Goal, status: Status, place: u8) -> Lead
    ensures { result ≡ holder_leads goal status place }
{
    if taken(goal, status, place) {
        Lead::Met(place)
    } else {
        onward(status)
    }
}

// The table followed from a place on, along the chain, by no index. A chain passes each semaphore once, so that it comes
// to an end.
fn walk(link: &[Lead; 16], from: Lead) -> Lead
    requires { (length link.now ≡ 16) × (ended (walked 17 link.now from) ≡ true) }
    ensures { result ≡ walked 17 link.now from }
{
    let mut at = from;
    while let Lead::ToSem(k) = at {
        at = link[k as usize];
    }
    at
}

// Where the chain of a task leads.
#[tactic(auto, unfolding(crate::specs::Scan::led_to))]
fn led_to(link: &[Lead; 16], goal: Goal, status: Status, place: u8) -> Lead
    requires { (length link.now ≡ 16) × (ended (walked 17 link.now (to_sem (waits_for status))) ≡ true) }
    ensures { result ≡ led_to link.now goal status place }
{
    if taken(goal, status, place) {
        Lead::Met(place)
    } else {
        walk(link, onward(status))
    }
}

#[tactic(auto, unfolding(crate::specs::Standing::shown_deadline))]
pub fn deadline_shown(t: Task) -> u64
    ensures { result ≡ shown_deadline t }
{
    if t.queue == FP { 0 } else { t.deadline }
}

// The own standing of a task at a position.
pub fn own(t: Task, position: u8) -> Rank
    ensures { result ≡ own_rank t position }
{
    Rank {
        deadline: deadline_shown(t),
        queue: t.queue,
        position,
    }
}

// Whether a task would stand before the best so far. Tasks come by rising position, so that the earlier one stays where
// queue and deadline are equal.
#[tactic(auto, unfolding(crate::specs::Scan::is_ahead))]
fn ahead(best: Option<Best>, t: Task) -> bool
    ensures { result ≡ is_ahead best t }
{
    let Some(best) = best else {
        return true;
    };
    let queue = t.queue as u64;
    queue < best.queue || (queue == best.queue && deadline_shown(t) < best.deadline)
}

impl<'a> Entries<'a> {
    // Where each semaphore leads.
    fn leads(&self, goal: Goal) -> [Lead; 16]
        requires { Used self.now.tasks.now self.now.sems.now }
        ensures long { length result ≡ 16 }
        ensures leads { Linked self.now.tasks.now self.now.sems.now goal result }
    {
        let mut link = [Lead::Nobody; 16];
        for (k, entry) in self.sems.iter().enumerate() {
            if let Some(place) = entry.holder {
                link[k] = led_by(goal, self.tasks[place as usize].status, place);
            }
        }
        link
    }

    // The best own standing among the tasks whose chain of waits meets the goal. A chain is followed only for a task
    // that would stand before the best so far.
    pub fn scan(&self, goal: Goal) -> Option<Best>
        requires { Used self.now.tasks.now self.now.sems.now }
        ensures { result ≡ scan_of self.now.tasks.now self.now.sems.now goal }
    {
        let link = self.leads(goal);
        let mut best: Option<Best> = None;
        for (i, t) in self.tasks.iter().enumerate() {
            if !ahead(best, *t) {
                continue;
            }
            if let Lead::Met(met) = led_to(&link, goal, t.status, i as u8) {
                best = Some(Best {
                    deadline: deadline_shown(*t),
                    queue: t.queue as u64,
                    position: i,
                    met: met as usize,
                });
            }
        }
        best
    }
}
