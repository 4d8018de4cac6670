// Tests 10, 11 and 12: the shared period of the DP tasks, and the sums of load/period.
ghost use Rattle.std.specs.Prelude.{◌≡◌};
ghost use Rattle.judging.specs.Periods.{gcd_of, over_full};
ghost use Rattle.judging.specs.Ranges.{InRange, Common};
ghost use Rattle.judging.specs.Verdicts.{shared_of};

use crate::Row;
use table::limits;

// The greatest common divisor, by Euclid: it goes by rests and counts no index.
fn gcd(a: u64, b: u64) -> u64
    ensures { result ≡ gcd_of a b }
{
    let mut x = a;
    let mut y = b;
    while y != 0 {
        let rest = x % y;
        x = y;
        y = rest;
    }
    x
}

// The shared period, taken in table order, or the place at which it grows too long. It is compared with its limit
// before it grows: no product is too large.
pub fn shared_period(rows: &[Row]) -> Result<u64, usize>
    requires { InRange rows.now }
    ensures { result ≡ shared_of rows.now }
{
    let mut h: u64 = 1;
    for (i, row) in rows.iter().enumerate() {
        if row.queue <= 2 {
            let part = row.period / gcd(h, row.period);
            if limits::SHARED_PERIOD_MOST / part < h {
                return Err(i);
            }
            h *= part;
        }
    }
    Ok(h)
}

// Whether the loads of the queues up to the last are more than their periods hold. Both sides go times the shared
// period h, so that no fraction is rounded; a sum that is above h stays above, so that no sum grows too large.
pub fn over_full(rows: &[Row], last: u8, h: u64) -> bool
    requires { InRange rows.now × Common rows.now last h }
    ensures { result ≡ over_full rows.now last }
{
    let mut sum: u64 = 0;
    for row in rows {
        if row.queue <= last {
            sum += row.load * (h / row.period);
            if h < sum {
                return true;
            }
        }
    }
    false
}
