// Loads an image and plays a script of calls.
ghost use Rattle.std.specs.Prelude.{◌≡◌, ◌+◌, ◌*◌, ◌≤◌, length};
ghost use Rattle.lines.specs.Lines.{Put};
ghost use Rattle.std.specs.Option.{unwrap_or};
ghost use Rattle.executive.specs.Calls.{answer_by, stands_by};
ghost use Rattle.executive.specs.Sound.{Sound};
ghost use Rattle.rack.specs.Boundary.{Played, played_part, play_from, called_by, tried};

use crate::rows;
use executive::calls::{Accepted, Moved};
use executive::state::State;
use table::refusals::Refusal;
use waits::standing::Rank;

// The sizes of a script's record and of what it answers.
pub const CALL: usize = 16;

pub const ANSWER: usize = 32;

// What an unknown call answers: the number of include/rack.h.
pub const NO_CALL: u8 = 255;

pub fn rack_play(image: &[u8], script: &[u8], out: &mut [u8]) -> u64
    ensures { Played image.now script.now out.old out.new result }
{
    if script.len() % CALL != 0 {
        return 0;
    }
    let count = script.len() / CALL;
    if out.len() / ANSWER < count {
        return 0;
    }
    let loaded = image::load::load(image);
    if let Err(_) = loaded.answer {
        return 0;
    }
    play_all(loaded.state, script, out, count);
    count as u64
}

// Each record in its turn.
fn play_all(from: State, script: &[u8], out: &mut [u8], count: usize)
    requires { Sound from × (count * 16 ≤ length script.now) × (count * 32 ≤ length out.old) }
    ensures { Put out.old 0 (play_from from script.now 0 count) out.new (count * 32) }
{
    let mut state = from;
    for i in 0..count {
        let at = i * CALL;
        let answer = play_next(&mut state, script, at);
        let stands = state.standing(fields::read(script, at + 4));
        put_part(out, i * ANSWER, answer, state.running(), stands);
    }
}

// Makes the call that the record at a place names, and says its number. The state is kept where a call is refused, so
// that only an accepted one copies it back.
#[tactic(auto, unfolding(executive::specs::Calls::moved))]
fn play_next(state: &mut State, script: &[u8], at: usize) -> u8
    requires { Sound state.old × (at + 16 ≤ length script.now) }
    ensures next { state.new ≡ (called_by state.old script.now at).state }
    ensures answer { result ≡ (called_by state.old script.now at).answer }
{
    match play_one(*state, script, at) {
        None => NO_CALL,
        Some(moved) => {
            let answer = moved.answer;
            match answer {
                Ok(accepted) => {
                    *state = moved.state;
                    number(accepted)
                }
                Err(refusal) => refusal.number(),
            }
        }
    }
}

// The number of a call that is accepted.
fn number(accepted: Accepted) -> u8
    ensures { result ≡ answer_by (Ok accepted) }
{
    accepted as u8
}

// The call that the record at a place names, on a state. The numbers of the calls are the boundary's for C, and only
// here.
pub fn play_one(state: State, script: &[u8], at: usize) -> Option<Moved>
    requires { Sound state × (at + 16 ≤ length script.now) }
    ensures { tried state result ≡ called_by state script.now at }
{
    let call = script[at];
    let number: u16 = fields::read(script, at + 2);
    let moved = match call {
        1 => state.release(number, fields::read(script, at + 8)),
        2 => state.signal(number),
        3 => state.withdraw(number),
        4 => state.acquire(number),
        5 => state.give(number),
        6 => state.complete(),
        7 => state.block(),
        _ => return None,
    };
    Some(moved)
}

// What one record answers: two rows, the second of them zero. Its place and its end are as in `rows`.
fn put_part(
    out: &mut [u8],
    at: usize,
    answer: u8,
    running: Option<u16>,
    stands: Result<Rank, Refusal>,
) -> usize
    requires { at + 32 ≤ length out.old }
    ensures { Put out.old at (played_part answer (unwrap_or running 0) (stands_by stands)) out.new result }
{
    let running = running.unwrap_or(0);
    let (number, rank) = shown(stands);
    let [low, high] = running.to_le_bytes();
    let front = [answer, 0, low, high, number, rank.queue, rank.position, 0];
    let end = rows::put_row(out, at, front, rank.deadline);
    rows::put_row(out, end, [0u8; 8], 0)
}

// The number of a standing's answer, and the standing, all zero where it is refused.
#[tactic(auto, unfolding(executive::specs::Calls::shown, executive::specs::Calls::stands_refused))]
fn shown(stands: Result<Rank, Refusal>) -> (u8, Rank)
    ensures { stands_by stands
        ≡ record { number = result.0; queue = result.1.queue; deadline = result.1.deadline; position = result.1.position } }
{
    match stands {
        Ok(rank) => (0, rank),
        Err(refusal) => {
            let rank = Rank {
                deadline: 0,
                queue: 0,
                position: 0,
            };
            (refusal.number(), rank)
        }
    }
}
