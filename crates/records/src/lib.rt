// One record of an image, 32 bytes: its kind, its fields and their ranges, and back.
#![tactic(auto)]

ghost use Rattle.std.specs.Prelude.{◌≡◌, cond, ◌&&◌, eqb};
ghost use Rattle.fields.specs.Fields.{all_are};
ghost use Rattle.records.specs.Records.{kind_of, unless_out_of_range};
ghost use Rattle.records.specs.Records.{decoded, task_decoded, board_decoded, sem_decoded};
ghost use Rattle.records.specs.Records.{task_in, board_in, sem_in, encode_task, encode_board, encode_sem};

use table::limits::RECORD;
use table::refusals::Refusal;
use table::{Board, Sem, Status, Task, ranges};

// What a record says: nothing, where it is erased, or one entry of the table.
#[derive(Clone, Copy)]
pub enum Record {
    Erased,
    Task(Task),
    Board(Board),
    Sem(Sem),
}

// What the first byte of a record says of its kind.
#[derive(Clone, Copy, PartialEq, Eq)]
pub enum Kind {
    Task = 1,
    Board = 2,
    Sem = 3,
    Erased = 255,
}

impl TryFrom<u8> for Kind {
    type Error = Refusal;

    ghost try_from_gives = { λ byte outcome. outcome ≡ kind_of byte };

    fn try_from(byte: u8) -> Result<Self, Refusal> {
        match byte {
            1 => Ok(Kind::Task),
            2 => Ok(Kind::Board),
            3 => Ok(Kind::Sem),
            255 => Ok(Kind::Erased),
            _ => Err(Refusal::UnknownKind),
        }
    }
}

pub fn decode(part: &[u8; RECORD]) -> Result<Record, Refusal>
    ensures { result ≡ decoded part.now }
{
    match Kind::try_from(part[0])? {
        Kind::Task => decode_task(part),
        Kind::Board => decode_board(part),
        Kind::Sem => decode_sem(part),
        Kind::Erased => decode_erased(part),
    }
}

fn decode_task(part: &[u8; RECORD]) -> Result<Record, Refusal>
    ensures { result ≡ task_decoded part.now }
{
    let task = task_at(part);
    clean(0, ranges::task_in_range(task), &part[16..32])?;
    Ok(Record::Task(task))
}

fn decode_board(part: &[u8; RECORD]) -> Result<Record, Refusal>
    ensures { result ≡ board_decoded part.now }
{
    let board = board_at(part);
    clean(part[1], ranges::board_in_range(board), &part[20..32])?;
    Ok(Record::Board(board))
}

fn decode_sem(part: &[u8; RECORD]) -> Result<Record, Refusal>
    ensures { result ≡ sem_decoded part.now }
{
    let sem = sem_at(part);
    clean(part[1], ranges::sem_in_range(sem), &part[4..32])?;
    Ok(Record::Sem(sem))
}

// What every kind asks: byte 1, where it is a zero byte, the fields in their ranges, and zeros behind them.
fn clean(second: u8, in_range: bool, rest: &[u8]) -> Result<(), Refusal>
    ensures { result ≡ unless_out_of_range (eqb second 0 && in_range && all_are 0 rest.now) tt }
{
    if second == 0 && in_range && fields::all_are(rest, 0) {
        return Ok(());
    }
    Err(Refusal::OutOfRange)
}

fn task_at(part: &[u8; RECORD]) -> Task
    ensures { result ≡ task_in part.now }
{
    Task {
        deadline: 0,
        period: fields::read(part, 4),
        cost: fields::read(part, 8),
        due: fields::read(part, 12),
        number: fields::read(part, 2),
        queue: part[1],
        status: Status::Idle,
    }
}

fn board_at(part: &[u8; RECORD]) -> Board
    ensures { result ≡ board_in part.now }
{
    Board {
        dp_block: fields::read(part, 2),
        dp_unblock: fields::read(part, 4),
        dp_select: fields::read(part, 6),
        dp_select_task: fields::read(part, 8),
        fp_block: fields::read(part, 10),
        fp_block_task: fields::read(part, 12),
        fp_unblock: fields::read(part, 14),
        fp_select: fields::read(part, 16),
        per_queue: fields::read(part, 18),
    }
}

fn sem_at(part: &[u8; RECORD]) -> Sem
    ensures { result ≡ sem_in part.now }
{
    Sem {
        number: fields::read(part, 2),
        holder: None,
    }
}

// A record whose first byte is 255: erased if every byte is, else of unknown kind.
fn decode_erased(part: &[u8; RECORD]) -> Result<Record, Refusal>
    ensures { result ≡ cond (all_are 255 part.now) (Ok Record.Erased) (Err Refusal.UnknownKind) }
{
    if fields::all_are(part, Kind::Erased as u8) {
        return Ok(Record::Erased);
    }
    Err(Refusal::UnknownKind)
}

// Puts one task into the 32 bytes of a record, whatever stood there.
pub fn put_task(task: Task, part: &mut [u8; RECORD])
    ensures { part.new ≡ encode_task task }
{
    fields::fill(part, 0);
    fields::put(part, 2, task.number);
    fields::put(part, 4, task.period);
    fields::put(part, 8, task.cost);
    fields::put(part, 12, task.due);
    part[0] = Kind::Task as u8;
    part[1] = task.queue;
}

pub fn put_sem(sem: Sem, part: &mut [u8; RECORD])
    ensures { part.new ≡ encode_sem sem }
{
    fields::fill(part, 0);
    fields::put(part, 2, sem.number);
    part[0] = Kind::Sem as u8;
}

pub fn put_board(board: Board, part: &mut [u8; RECORD])
    ensures { part.new ≡ encode_board board }
{
    fields::fill(part, 0);
    fields::put(part, 2, board.dp_block);
    fields::put(part, 4, board.dp_unblock);
    fields::put(part, 6, board.dp_select);
    fields::put(part, 8, board.dp_select_task);
    fields::put(part, 10, board.fp_block);
    fields::put(part, 12, board.fp_block_task);
    fields::put(part, 14, board.fp_unblock);
    fields::put(part, 16, board.fp_select);
    fields::put(part, 18, board.per_queue);
    part[0] = Kind::Board as u8;
}
