// Who waits for what and on whom: standings, the task that runs, the heir of a semaphore, the ring that an acquire
// would close. All of it goes by the entries of a table; there is no state here.
#![tactic(auto)]

use table::{Sem, Task};

mod scan;
pub mod standing;

// The tasks and the semaphores that there are, in table order. What holds of them, `Used`, is a clause of the methods: a
// ghost field was tried and is refused, since that a chain of waits ends is no proposition; hidden in one it would have
// to be opened in every proof.
#[derive(Clone, Copy)]
pub struct Entries<'a> {
    pub tasks: &'a [Task],
    pub sems: &'a [Sem],
}
