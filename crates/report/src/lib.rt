// What the checking program prints for an image, put into a lent buffer.
#![tactic(auto)]

ghost use Rattle.std.specs.Prelude.{◌+◌, ◌≤◌, [], ◌∷◌, length};
ghost use Rattle.lines.specs.Lines.{Put, line_of};
ghost use Rattle.report.specs.Report.{Reported, line_by, lines_by, task_lines};

use charges::Counts;
use judging::judge;
use table::{Board, Task};

// The most that is ever printed: 64 lines of at most 68 bytes for the tasks, and one of at most 50 for the verdict.
pub const BYTES: usize = 4_402;

// Puts the lines of an image's answer at the front of the buffer, and says where they end. A buffer that might be too
// short is left as it was, and 0 comes back.
pub fn report(image: &[u8], out: &mut [u8]) -> usize
    ensures { Reported image.now out.old out.new result }
{
    if out.len() < BYTES {
        return 0;
    }
    let loaded = image::load::load(image);
    if let Err(refused) = loaded.answer {
        let number = refused.refusal.number();
        return put_pair(out, 0, b"image", number as u64, refused.place as u64);
    }
    let state = loaded.state;
    let end = put_tasks(&state.tasks[..state.n], state.board, out);
    let told = judge::told(judge::judge(state));
    put_pair(out, end, b"verdict", told.number as u64, told.task as u64)
}

// A line for each task: `task`, number, queue, charge. They are at most 64, as in `charges`. Here and below a place goes
// in and the end comes out, as in `lines`, whose promise (`Put`) theirs is; the room is a clause of each.
#[tactic(auto, unfolding(crate::specs::Report::task_lines))]
fn put_tasks(tasks: &[Task], board: Board, out: &mut [u8]) -> usize
    requires { (length tasks.now ≤ 64) × (4352 ≤ length out.old) }
    ensures { Put out.old 0 (task_lines tasks.now board) out.new result × (result ≤ 4352) }
{
    let counts = Counts::of(tasks, board);
    put_lines(counts, tasks, out)
}

// Those lines, once what the charges go by is counted.
fn put_lines(counts: Counts, tasks: &[Task], out: &mut [u8]) -> usize
    requires { (length tasks.now ≤ 64) × (4352 ≤ length out.old) }
    ensures { Put out.old 0 (lines_by counts tasks.now) out.new result × (result ≤ 4352) }
{
    let mut at: usize = 0;
    for task in tasks {
        at = put_task(counts, *task, out, at);
    }
    at
}

// One task's line.
fn put_task(counts: Counts, task: Task, out: &mut [u8], at: usize) -> usize
    requires { at + 68 ≤ length out.old }
    ensures { Put out.old at (line_by counts task) out.new result }
{
    let told = [task.number as u64, task.queue as u64, counts.charge(task)];
    lines::put_line(out, at, b"task", &told)
}

// A line of a word and two numbers: `image`, number, place, and `verdict`, number, task.
fn put_pair(out: &mut [u8], at: usize, word: &[u8], one: u64, two: u64) -> usize
    requires { at + length word.now + 43 ≤ length out.old }
    ensures { Put out.old at (line_of word.now (one ∷ two ∷ [])) out.new result }
{
    let told = [one, two];
    lines::put_line(out, at, word, &told)
}
