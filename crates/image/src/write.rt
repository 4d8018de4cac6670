// Writing: the records, then 255 in every byte that remains.
ghost use Rattle.std.specs.Prelude.{◌≡◌, ◌++◌, ◌+◌, ◌*◌, length};
ghost use Rattle.fields.specs.Parts.{flat};
ghost use Rattle.table.specs.Refusals.{told};
ghost use Rattle.executive.specs.States.{tasks_of, sems_of};
ghost use Rattle.executive.specs.Sound.{Sized};
ghost use Rattle.records.specs.Records.{encode_task, encode_sem};
ghost use Rattle.image.specs.Writing.{board_bytes, write_number, written};

use crate::load::bad_length;
use executive::state::State;
use records::Kind;
use table::refusals::Refusal;
use table::{Board, limits};

pub fn write(state: State, buf: &mut [u8]) -> Result<(), Refusal>
    requires { Sized state }
    ensures value { told result ≡ write_number state (length buf.old) }
    ensures buf_after { buf.new ≡ written state buf.old }
{
    if state.n == 0 {
        return Err(Refusal::NoTask);
    }
    let length = buf.len();
    if bad_length(length) {
        return Err(Refusal::BufferLength);
    }
    let board = state.present.then_some(state.board);
    let start = board_length(board);
    let end = start + (state.n + state.m) * limits::RECORD;
    if length < end {
        return Err(Refusal::BufferLength);
    }
    put_board(board, &mut buf[0..start]);
    put_entries(state, &mut buf[start..end]);
    fields::fill(&mut buf[end..length], Kind::Erased as u8);
    Ok(())
}

#[tactic(auto, using(records::proofs::RecordLaws::length_board))]
fn board_length(board: Option<Board>) -> usize
    ensures { result ≡ length (board_bytes board) }
{
    match board {
        Some(_) => limits::RECORD,
        None => 0,
    }
}

// The board record, if one was there.
#[tactic(auto, using(records::proofs::RecordLaws::length_board))]
fn put_board(board: Option<Board>, part: &mut [u8])
    requires { length part.old ≡ length (board_bytes board) }
    ensures { part.new ≡ board_bytes board }
{
    if let Some(board) = board {
        records::put_board(board, part.as_mut_array().unwrap());
    }
}

// The tasks, then the semaphores, one record each. The loop goes by places and not by `as_chunks_mut`: of what was
// written through its chunks a proof knows no byte, nor of what was through an array made of `&mut part[start..end]`.
fn put_entries(state: State, part: &mut [u8])
    requires { Sized state × (length part.old ≡ 32 * (state.n + state.m)) }
    ensures { part.new ≡ flat encode_task (tasks_of state) ++ flat encode_sem (sems_of state) }
{
    let n = state.n;
    let count = n + state.m;
    for i in 0..count {
        let (_, behind) = part.split_at_mut(i * limits::RECORD);
        let record = behind.first_chunk_mut().unwrap();
        if i < n {
            records::put_task(state.tasks[i], record);
        } else {
            records::put_sem(state.sems[i - n], record);
        }
    }
}
