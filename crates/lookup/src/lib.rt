// Look-up by number, among the tasks or the semaphores that there are.
#![tactic(auto)]

ghost use Rattle.std.specs.Prelude.{◌≡◌, ℕ, ◌==◌, position};

use table::{Sem, Task};

// An entry of the table that has a number.
pub trait Numbered {
    ghost number_of: { Self → ℕ };

    fn number(&self) -> u16
        ensures { result ≡ number_of self.now };
}

impl Numbered for Task {
    ghost number_of = { λ t. t.number };

    fn number(&self) -> u16 {
        self.number
    }
}

impl Numbered for Sem {
    ghost number_of = { λ s. s.number };

    fn number(&self) -> u16 {
        self.number
    }
}

// The place of the first entry with this number.
pub fn place<T: Numbered>(entries: &[T], number: u16) -> Option<usize>
    ensures { result ≡ position (λ x. T.number_of x == number) entries.now }
{
    entries.iter().position(|x| x.number() == number)
}
