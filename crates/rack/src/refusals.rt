// A refusal and its place in one number, for C.
ghost use Rattle.std.specs.Prelude.{◌≡◌, ◌+◌, ◌*◌, ◌≤◌};
ghost use Rattle.table.specs.Refusals.{number_of};

use executive::loaded::Refused;
use table::refusals::Refusal;

pub fn with_place(refused: Refused<Refusal>) -> u64
    requires { refused.place ≤ 128 }
    ensures { result ≡ number_of refused.refusal + 256 * refused.place }
{
    (refused.refusal.number() as u64) + 256 * (refused.place as u64)
}
