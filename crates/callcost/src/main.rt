// The calls alone, so that their instructions can be counted: reads an image of 4,096 bytes and a script of at most 256
// records from standard input, makes the calls one after the other, and prints the sum of what they answer.
#![tactic(auto)]

ghost use Rattle.std.specs.Prelude.{◌≤◌, ◌<◌, length, take, IfOk};
ghost use Rattle.std.specs.Io.KnownBytes.{Consumes, IsAtEnd};

use executive::calls::Accepted;
use rack::play;
use std::io;
use std::io::Read;
use table::refusals::Refusal;
use waits::standing::Rank;

// A record of a script is as include/rack.h has it, and 8 asks for the running task, 9 for a standing; 0 is no call.
const RECORDS: usize = 256;

fn main(rt: HostRuntime) -> io::Result<()> {
    let mut input = rt.stdin();
    let mut image = [255u8; 4096];
    read_full(&mut input, &mut image)?;
    let mut script = [0u8; 4096];
    read_full(&mut input, &mut script)?;
    let sum = sum_of(&image, &script);
    print!(rt; "{sum}")
}

// The sum of all answers; for running the task's number, for a standing its queue.
fn sum_of(image: &[u8], script: &[u8]) -> u64
    requires { 4096 ≤ length script.now }
{
    let loaded = image::load::load(image);
    let mut state = loaded.state;
    let mut sum: u64 = 0;
    for i in 0..RECORDS {
        let at = i * play::CALL;
        match script[at] {
            0 => {}
            8 => {
                sum += state.running().unwrap_or(0) as u64;
            }
            9 => {
                let stands = state.standing(fields::read(script, at + 2));
                sum += queue(stands) as u64;
            }
            _ => match play::play_one(state, script, at) {
                None => {
                    sum += play::NO_CALL as u64;
                }
                Some(moved) => {
                    sum += number(moved.answer) as u64;
                    state = moved.state;
                }
            },
        }
    }
    sum
}

// The number that an answer is told as.
fn number(answer: Result<Accepted, Refusal>) -> u8 {
    match answer {
        Ok(accepted) => accepted as u8,
        Err(refusal) => refusal.number(),
    }
}

// The queue of a standing, 0 where it is refused.
fn queue(stands: Result<Rank, Refusal>) -> u8 {
    match stands {
        Ok(rank) => rank.queue,
        Err(_) => 0,
    }
}

// Reads until the buffer is full or the input ends, and says how many bytes it put at the buffer's start. What the input
// has beyond these is left unread. Each program that reads has this function: a library's public function would owe the
// statement that its contract allows one result, and reading has more.
fn read_full<R: Read>(input: &mut R, buf: &mut [u8]) -> io::Result<usize>
    ensures inside { IfOk result (λ n. n ≤ length buf.new) }
    ensures bytes { IfOk result (λ n. Consumes (R.remaining input.old) (R.remaining input.new) (take n buf.new)) }
    ensures whole { IfOk result (λ n. n < length buf.new → IsAtEnd (R.remaining input.new)) }
{
    let mut done = 0;
    while done < buf.len() {
        let n = input.read(&mut buf[done..])?;
        if n == 0 {
            return Ok(done);
        }
        done += n;
    }
    Ok(done)
}
