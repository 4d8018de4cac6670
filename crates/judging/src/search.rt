// Tests 13 and 14: the search for a time. What a load asks for is told by `own`: 13 has the DP2 task's own period there
// and counts by the queue, 14 has nothing there and counts each load whole.
ghost use Rattle.std.specs.Prelude.{◌≡◌, ◌+◌, ◌*◌, ◌≤◌, ◌<◌};
ghost use Rattle.judging.specs.Demands.{ceil};
ghost use Rattle.judging.specs.Ranges.{RowInRange, InRange};
ghost use Rattle.judging.specs.Search.{counted_by, demand_by, has_time, NextTime};

use crate::Row;

// ceil(t/period): how often a period begins before t.
fn ceil(t: u64, period: u64) -> u64
    requires { (1 ≤ period) × (t ≤ 100000000) }
    ensures { (result ≡ ceil t period) × (result ≤ t) × (result * period < t + period) }
{
    t.div_ceil(period)
}

// How often a load counts up to t: ceil(t/period), in 13 only in queue 1, the star count in queue 2, else not at all.
fn count(row: &Row, own: Option<u64>, t: u64) -> u64
    requires { RowInRange row.now × (t ≤ 100000000) }
    ensures { (result ≡ counted_by own row.now t) × (result ≤ 100000000) }
{
    let whole = ceil(t, row.period);
    let Some(own) = own else {
        return whole;
    };
    match row.queue {
        1 => whole,
        2 if whole * row.period <= own => whole,
        2 => whole - 1,
        _ => 0,
    }
}

// What the rows ask for up to t.
fn demand(rows: &[Row], own: Option<u64>, t: u64) -> u64
    requires { InRange rows.now × (t ≤ 100000000) }
    ensures { result ≡ demand_by own rows.now t }
{
    let mut sum: u64 = 0;
    for row in rows {
        sum += row.load * count(row, own, t);
    }
    sum
}

// The first multiple of a period after t, or the limit where that comes before.
fn next(rows: &[Row], t: u64, limit: u64) -> u64
    requires { InRange rows.now × (t < limit) × (limit ≤ 100000000) }
    ensures { NextTime rows.now t limit result }
{
    let mut best = limit;
    for row in rows {
        best = best.min((t / row.period + 1) * row.period);
    }
    best
}

// Whether there is a whole t from 1 to the limit with the demand at most t. It tries each multiple of each period, and
// the limit, in rising order: from one to the next every count stands still, so that only the later end matters.
pub fn has_time(rows: &[Row], own: Option<u64>, limit: u64) -> bool
    requires { InRange rows.now × (limit ≤ 100000000) }
    ensures { result ≡ has_time own rows.now limit }
{
    let mut t: u64 = 0;
    while t < limit {
        t = next(rows, t, limit);
        if demand(rows, own, t) <= t {
            return true;
        }
    }
    false
}
