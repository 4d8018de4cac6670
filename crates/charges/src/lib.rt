// The charge of each task: what blocking, unblocking and choosing cost it (document 01, "Charges").
#![tactic(auto)]

ghost use Rattle.std.specs.Prelude.{◌≡◌, ◌*◌, ◌≤◌, length};
ghost use Rattle.charges.specs.Charges.{
  tasks_in,
  counts_of,
  choice_dp,
  choice_fp,
  sum_dp,
  choice_unblocked,
  sum_fp,
  sum_by,
  charge_by,
  load_by,
};

use table::{Board, Task};

// The figures, with n tasks, q in DP1, r in DP1 and DP2 together, k queues that are not empty, and m, the larger of q
// and r - q.
#[derive(Clone, Copy)]
pub struct Counts {
    pub board: Board,
    pub n: u8,
    pub q: u8,
    pub r: u8,
    pub k: u8,
    pub m: u8,
}

// The largest figure and the largest count that their types hold bound every product here, and so every sum.
fn times(count: u8, figure: u16) -> u64
    ensures { (result ≡ count * figure) × (result ≤ 16711425) }
{
    count as u64 * figure as u64
}

// How many of the tasks stand in a queue. That there are at most 64 is a clause here and wherever tasks are lent: a type
// of such slices would ask more of a caller than the clause does.
fn tasks_in(tasks: &[Task], queue: u8) -> u8
    requires { length tasks.now ≤ 64 }
    ensures { (result ≡ tasks_in queue tasks.now) × (result ≤ 64) }
{
    tasks.iter().filter(|task| task.queue == queue).count() as u8
}

impl Counts {
    // The counts of the tasks of a table.
    pub fn of(tasks: &[Task], board: Board) -> Self
        requires { length tasks.now ≤ 64 }
        ensures { result ≡ counts_of tasks.now board }
    {
        let q = tasks_in(tasks, 1);
        let s = tasks_in(tasks, 2);
        let f = tasks_in(tasks, 3);
        let k = u8::from(0 < q) + u8::from(0 < s) + u8::from(0 < f);
        Self {
            board,
            n: tasks.len() as u8,
            q,
            r: q + s,
            k,
            m: q.max(s),
        }
    }

    // What a DP choice over j tasks costs.
    fn choice_dp(self, j: u8) -> u64
        ensures { (result ≡ choice_dp self j) × (result ≤ 33488385) }
    {
        let select = self.board.dp_select;
        let a = times(j, self.board.dp_select_task);
        let b = times(self.k, self.board.per_queue);
        select as u64 + a + b
    }

    // What an FP choice costs.
    fn choice_fp(self) -> u64
        ensures { (result ≡ choice_fp self) × (result ≤ 33488385) }
    {
        let select = self.board.fp_select;
        let b = times(self.k, self.board.per_queue);
        select as u64 + b
    }

    // What a task is charged for that blocks with a choice over so many tasks, and unblocks with one over so many.
    fn sum_dp(self, blocked: u8, unblocked: u8) -> u64
        ensures { (result ≡ sum_dp self blocked unblocked) × (result ≤ 100000000) }
    {
        let block = self.board.dp_block;
        let unblock = self.board.dp_unblock;
        block as u64 + self.choice_dp(blocked) + unblock as u64 + self.choice_dp(unblocked)
    }

    // The choice when an FP task unblocks: among the DP tasks, if there are any.
    fn choice_unblocked(self) -> u64
        ensures { (result ≡ choice_unblocked self) × (result ≤ 33488385) }
    {
        if 0 < self.r {
            return self.choice_dp(self.m);
        }
        self.choice_fp()
    }

    // r is at most n in the counts of any table, so that nothing is cut off where n - r is taken.
    fn sum_fp(self) -> u64
        ensures { (result ≡ sum_fp self) × (result ≤ 100000000) }
    {
        let block = self.board.fp_block;
        let unblock = self.board.fp_unblock;
        let all = times(self.n.saturating_sub(self.r), self.board.fp_block_task);
        block as u64 + all + self.choice_fp() + unblock as u64 + self.choice_unblocked()
    }

    // A task's sum is that of its own queue, which is its number of document 01.
    fn sum(self, task: Task) -> u64
        ensures { (result ≡ sum_by self task) × (result ≤ 100000000) }
    {
        let queue = task.queue;
        match queue {
            1 => self.sum_dp(self.m, self.q),
            2 => self.sum_dp(self.r, self.m),
            _ => self.sum_fp(),
        }
    }

    // The charge of a task: 3/2 of its sum, rounded up.
    pub fn charge(self, task: Task) -> u64
        ensures { (result ≡ charge_by self task) × (result ≤ 150000000) }
    {
        (3 * self.sum(task) + 1) / 2
    }

    // The load of a task: its cost and its charge.
    #[tactic(auto, unfolding(crate::specs::Charges::load_by))]
    pub fn load(self, task: Task) -> u64
        ensures { result ≡ load_by self task }
    {
        let cost = task.cost;
        cost as u64 + self.charge(task)
    }
}
