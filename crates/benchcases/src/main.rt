// The bench figures of document 01 that are run and compared, and not proved: each line that is printed stands in the
// file stdout.
#![tactic(auto)]

ghost use Rattle.std.specs.Prelude.{◌≤◌, length};

use std::io;

// P1 with numbers 7 and 9: a board of zeros, two DP1 tasks of period 2,000 and cost 1,000.
const P1: [u8; 96] = [
    2, 0, 0, 0, 0, 0, 0, 0, 0, 0, 0, 0, 0, 0, 0, 0, 0, 0, 0, 0, 0, 0, 0, 0, 0, 0, 0, 0, 0, 0, 0, 0,
    1, 1, 7, 0, 208, 7, 0, 0, 232, 3, 0, 0, 0, 0, 0, 0, 0, 0, 0, 0, 0, 0, 0, 0, 0, 0, 0, 0, 0, 0,
    0, 0, 1, 1, 9, 0, 208, 7, 0, 0, 232, 3, 0, 0, 0, 0, 0, 0, 0, 0, 0, 0, 0, 0, 0, 0, 0, 0, 0, 0,
    0, 0, 0, 0,
];

// Release 9 at 0 and 7 at 0.
const SAME_TIME: [u8; 32] = [
    1, 0, 9, 0, 7, 0, 0, 0, 0, 0, 0, 0, 0, 0, 0, 0, 1, 0, 7, 0, 7, 0, 0, 0, 0, 0, 0, 0, 0, 0, 0, 0,
];

// Release 9 at 0 and 7 at 1.
const LATER: [u8; 32] = [
    1, 0, 9, 0, 9, 0, 0, 0, 0, 0, 0, 0, 0, 0, 0, 0, 1, 0, 7, 0, 9, 0, 0, 0, 1, 0, 0, 0, 0, 0, 0, 0,
];

// One good task, an erased record, a board record.
const LIVE_BEHIND_ERASED: [u8; 96] = [
    1, 1, 7, 0, 208, 7, 0, 0, 232, 3, 0, 0, 0, 0, 0, 0, 0, 0, 0, 0, 0, 0, 0, 0, 0, 0, 0, 0, 0, 0,
    0, 0, 255, 255, 255, 255, 255, 255, 255, 255, 255, 255, 255, 255, 255, 255, 255, 255, 255, 255,
    255, 255, 255, 255, 255, 255, 255, 255, 255, 255, 255, 255, 255, 255, 2, 0, 0, 0, 0, 0, 0, 0,
    0, 0, 0, 0, 0, 0, 0, 0, 0, 0, 0, 0, 0, 0, 0, 0, 0, 0, 0, 0, 0, 0, 0, 0,
];

fn main(rt: HostRuntime) -> io::Result<()> {
    let p1 = P1;
    say(&rt, &p1)?;
    played(&rt, &p1, SAME_TIME)?;
    played(&rt, &p1, LATER)?;
    say(&rt, &p1[..0])?;
    say(&rt, &p1[..33])?;
    let erased = [255u8; 64];
    say(&rt, &erased)?;
    let live = LIVE_BEHIND_ERASED;
    say(&rt, &live)
}

// What the checking program prints for an image.
fn say(rt: &impl Print, image: &[u8]) -> io::Result<()> {
    let mut text = [0u8; 4402];
    let end = report::report(image, &mut text);
    if end <= 4402 {
        rt.write_all(&text[..end])?;
    }
    Ok(())
}

// Two calls: for each whether it was done, waits or was refused, and the task that runs after it.
fn played(rt: &impl Print, image: &[u8], script: [u8; 32]) -> io::Result<()> {
    let mut out = [0u8; 64];
    rack::play::rack_play(image, &script, &mut out);
    told(rt, out[0], out[2])?;
    told(rt, out[32], out[34])
}

// An answer is a byte of what rack_play writes, as include/rack.h has it.
fn told(rt: &impl Print, answer: u8, running: u8) -> io::Result<()> {
    match answer {
        0 => tell(rt, b"done, runs", running),
        90 => tell(rt, b"waits, runs", running),
        _ => tell(rt, b"refused, runs", running),
    }
}

fn tell(rt: &impl Print, word: &[u8], running: u8) -> io::Result<()>
    requires { length word.now ≤ 32 }
{
    let numbers = [running as u64];
    let mut line = [0u8; 64];
    let end = lines::put_line(&mut line, 0, word, &numbers);
    if end <= 64 {
        rt.write_all(&line[..end])?;
    }
    Ok(())
}
