// Loads and judges an image.
ghost use Rattle.std.specs.Prelude.{◌≡◌, ◌+◌, ◌-◌, ◌*◌, ◌≤◌, length, replicate};
ghost use Rattle.lines.specs.Lines.{Put};
ghost use Rattle.rack.specs.Boundary.{Judged, head_bytes, entry_bytes, entries_bytes};

use crate::rows;
use charges::Counts;
use table::{Board, Task};

// What judging writes: 8 bytes, and 16 for each of 64 tasks.
pub const BYTES: usize = 1_032;

#[tactic(auto, using(crate::proofs::LoadCases::judged_short))]
pub fn rack_judge(image: &[u8], out: &mut [u8]) -> u64
    ensures { Judged image.now out.old out.new result }
{
    if out.len() < BYTES {
        return 0;
    }
    let loaded = image::load::load(image);
    if let Err(refused) = loaded.answer {
        let end = put_head(out, refused.refusal.number(), 0, refused.place as u64, 0, 0);
        put_zeros(out, end);
        return end as u64;
    }
    let state = loaded.state;
    let n = state.n;
    let verdict = judging::judge::told(judging::judge::judge(state));
    put_head(out, 0, verdict.number, 0, verdict.task as u64, n as u64);
    let end = put_entries(out, &state.tasks[..n], state.board);
    put_zeros(out, end);
    end as u64
}

// The first 8 bytes: two numbers of one byte and three of two. This and the functions below write at a place and say
// where they end, as those of `lines` do, whose promise (`Put`) theirs is; the room is a clause of each.
fn put_head(out: &mut [u8], number: u8, verdict: u8, place: u64, task: u64, n: u64) -> usize
    requires { 1032 ≤ length out.old }
    ensures { Put out.old 0 (head_bytes number verdict place task n) out.new result }
{
    let [place_low, place_high, ..] = place.to_le_bytes();
    let [task_low, task_high, ..] = task.to_le_bytes();
    let [n_low, n_high, ..] = n.to_le_bytes();
    let head = [
        number, verdict, place_low, place_high, task_low, task_high, n_low, n_high,
    ];
    lines::put_word(out, 0, &head)
}

// An entry of 16 bytes for each task, at most 64, as in `charges`.
fn put_entries(out: &mut [u8], tasks: &[Task], board: Board) -> usize
    requires { (length tasks.now ≤ 64) × (1032 ≤ length out.old) }
    ensures { Put out.old 8 (entries_bytes tasks.now board) out.new result
        × (result ≡ 8 + 16 * length tasks.now) }
{
    let counts = Counts::of(tasks, board);
    let mut at: usize = 8;
    for task in tasks {
        at = put_entry(
            out,
            at,
            task.number as u64,
            task.queue,
            counts.charge(*task),
        );
    }
    at
}

// One entry: number, queue, charge, with zeros between.
fn put_entry(out: &mut [u8], at: usize, number: u64, queue: u8, charge: u64) -> usize
    requires { at + 16 ≤ length out.old }
    ensures { Put out.old at (entry_bytes number queue charge) out.new result }
{
    let [low, high, ..] = number.to_le_bytes();
    let front = [low, high, queue, 0, 0, 0, 0, 0];
    rows::put_row(out, at, front, charge)
}

// The rest of the 1,032 bytes is zero.
fn put_zeros(out: &mut [u8], at: usize)
    requires { (at ≤ 1032) × (1032 ≤ length out.old) }
    ensures { Put out.old at (replicate (1032 - at) 0) out.new 1032 }
{
    let zeros = [0u8; 1032];
    lines::put_word(out, at, &zeros[at..1032]);
}
