// Loading: the records from the front, each judged by what was read so far.
ghost use Rattle.std.specs.Prelude.{◌≡◌, false, ◌≤◌, eqb, IfOk};
ghost use Rattle.table.specs.Refusals.{told};
ghost use Rattle.table.specs.Sums.{any};
ghost use Rattle.executive.specs.Reading.{reading_of, finished_load};
ghost use Rattle.records.specs.Records.{decoded};
ghost use Rattle.image.specs.Loading.{load_of, load_from, fresh_table, bad_length, used_after};
ghost use Rattle.image.specs.Fronts.{front_of, front_after, front_refusal, front_unfit};

use executive::loaded::Loaded;
use executive::state::State;
use records::Record;
use table::limits::RECORD;
use table::refusals::Refusal;
use table::{Board, Sem, Task, limits, ranges};

// What of the records so far decides on the next: the last entries, how many there are, whether a board record was
// there, and an erased one.
#[derive(Clone, Copy)]
pub struct Front {
    pub task: Option<Task>,
    pub sem: Option<Sem>,
    pub n: usize,
    pub m: usize,
    pub present: bool,
    pub erased: bool,
}

pub fn load(image: &[u8]) -> Loaded<Refusal>
    ensures { reading_of result ≡ load_of image.now }
{
    if bad_length(image.len()) {
        return Loaded::refused(Refusal::ImageLength, 0);
    }
    let (records, _) = image.as_chunks::<RECORD>();
    load_records(records)
}

// Whether the length is none that an image may have, nor a buffer for one.
#[tactic(auto, unfolding(crate::specs::Loading::bad_length))]
pub(crate) fn bad_length(bytes: usize) -> bool
    ensures { result ≡ bad_length bytes }
{
    (bytes % RECORD != 0) | (limits::IMAGE < bytes)
}

// The state is built in place, and each record is judged by the front alone, so that no turn copies the state.
fn load_records(records: &[[u8; RECORD]]) -> Loaded<Refusal>
    ensures { reading_of result ≡ load_from fresh_table false 0 records.now }
{
    let mut state = State::empty();
    state.board = Board::built_in();
    // The numbers used so far, beside the state's count of tasks: there is no heap.
    let mut given: [u16; 64] = [0; 64];
    let mut front = Front::start();
    for (place, record) in records.iter().enumerate() {
        let n = state.n;
        let m = state.m;
        let said = match front.passed(record, &given[..n]) {
            Ok(said) => said,
            Err(refusal) => return Loaded::refused(refusal, place),
        };
        front.take(said);
        match said {
            Record::Erased => {}
            Record::Task(task) => {
                state.tasks[n] = task;
                state.n = n + 1;
                given[n] = task.number;
            }
            Record::Board(board) => {
                state.board = board;
                state.present = true;
            }
            Record::Sem(sem) => {
                state.sems[m] = sem;
                state.m = m + 1;
            }
        }
    }
    finished(state, records.len())
}

// At the end of the records: 7 where there is no task.
#[tactic(auto, unfolding(executive::specs::Reading::finished_load, table::specs::Refusals::first_of, table::specs::Refusals::answered))]
fn finished(state: State, count: usize) -> Loaded<Refusal>
    ensures { reading_of result ≡ finished_load state count }
{
    if state.n == 0 {
        return Loaded::refused(Refusal::NoTask, count);
    }
    Loaded::accepted(state)
}

impl Front {
    #[tactic(auto, unfolding(crate::specs::Loading::fresh_table, crate::specs::Fronts::last_of))]
    fn start() -> Self
        ensures { result ≡ front_of false fresh_table }
    {
        Self {
            task: None,
            sem: None,
            n: 0,
            m: 0,
            present: false,
            erased: false,
        }
    }

    // Goes on behind a record that was not refused.
    fn take(&mut self, said: Record)
        requires { (self.old.n ≤ 64) × (self.old.m ≤ 16) }
        ensures { self.new ≡ front_after self.old (Ok said) }
    {
        match said {
            Record::Erased => {
                self.erased = true;
            }
            Record::Task(task) => {
                self.task = Some(task);
                self.n += 1;
            }
            Record::Board(_) => {
                self.present = true;
            }
            Record::Sem(sem) => {
                self.sem = Some(sem);
                self.m += 1;
            }
        }
    }

    // What the next record says, or the first test that it fails, in the order 3, 2, 4, 5, 8, 6.
    fn passed(&self, bytes: &[u8; RECORD], given: &[u16]) -> Result<Record, Refusal>
        ensures why { told result
            ≡ front_refusal self.now (λ number. any (λ x. eqb x number) given.now) (decoded bytes.now) }
        ensures what { IfOk result (λ said. decoded bytes.now ≡ Ok said) }
    {
        let decoded = records::decode(bytes);
        if self.used_after(decoded) {
            return Err(Refusal::UsedAfterErased);
        }
        let said = decoded?;
        self.fits(said, given)?;
        Ok(said)
    }

    // Whether the record is used and comes after an erased one, whatever else is wrong with it.
    #[tactic(auto, unfolding(crate::specs::Loading::used_after))]
    fn used_after(&self, decoded: Result<Record, Refusal>) -> bool
        ensures { result ≡ used_after self.now.erased decoded }
    {
        match decoded {
            Ok(Record::Erased) => false,
            _ => self.erased,
        }
    }

    // What a record says may stand behind those so far.
    #[tactic(auto, unfolding(table::specs::Refusals::first_of))]
    fn fits(&self, said: Record, given: &[u16]) -> Result<(), Refusal>
        ensures { told result ≡ front_unfit self.now (λ number. any (λ x. eqb x number) given.now) said }
    {
        match said {
            Record::Erased => Ok(()),
            Record::Task(task) => self.task_fits(task, given),
            Record::Board(board) => self.board_fits(board),
            Record::Sem(sem) => self.sem_fits(sem),
        }
    }

    #[tactic(auto, unfolding(table::specs::Refusals::first_of))]
    fn task_fits(&self, task: Task, given: &[u16]) -> Result<(), Refusal>
        ensures { told result ≡ front_unfit self.now (λ number. any (λ x. eqb x number) given.now) (Record.Task task) }
    {
        let rises = self.task.is_none_or(|last| ranges::task_before(last, task));
        if self.m != 0 || !rises {
            return Err(Refusal::OrderBroken);
        }
        if given.contains(&task.number) {
            return Err(Refusal::NumberTwice);
        }
        if self.n >= limits::TASKS {
            return Err(Refusal::TooMany);
        }
        Ok(())
    }

    #[tactic(auto, unfolding(table::specs::Refusals::first_of))]
    fn board_fits(&self, board: Board) -> Result<(), Refusal>
        ensures { told result ≡ front_unfit self.now (λ number. false) (Record.Board board) }
    {
        if self.present || self.n != 0 || self.m != 0 {
            return Err(Refusal::OrderBroken);
        }
        Ok(())
    }

    #[tactic(auto, unfolding(table::specs::Refusals::first_of))]
    fn sem_fits(&self, sem: Sem) -> Result<(), Refusal>
        ensures { told result ≡ front_unfit self.now (λ number. false) (Record.Sem sem) }
    {
        if !self.sem.is_none_or(|last| ranges::sem_before(last, sem)) {
            return Err(Refusal::OrderBroken);
        }
        if self.m >= limits::SEMS {
            return Err(Refusal::TooMany);
        }
        Ok(())
    }
}
