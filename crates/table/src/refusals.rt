// Why something is refused (document 01, "Numbers that come back"; document 02). Each refusal is its number.
ghost use Rattle.std.specs.Prelude.{◌≡◌};
ghost use Rattle.table.specs.Refusals.{number_of, told};

#[derive(Clone, Copy, PartialEq, Eq)]
pub enum Refusal {
    // Loading and writing.
    ImageLength = 1,
    UnknownKind = 2,
    UsedAfterErased = 3,
    OutOfRange = 4,
    OrderBroken = 5,
    TooMany = 6,
    NoTask = 7,
    NumberTwice = 8,
    BufferLength = 9,
    // Judging.
    SharedPeriod = 10,
    Dp1OverFull = 11,
    DpOverFull = 12,
    Dp2NoTime = 13,
    FpNoTime = 14,
    // Dispatch.
    UnknownTask = 20,
    UnknownSem = 21,
    TimeRefused = 22,
    NotIdle = 23,
    NoEventWait = 24,
    NoSemWait = 25,
    NobodyRuns = 26,
    StillHolds = 27,
    Ring = 28,
    NotHeld = 29,
    // Lists from Linux rigs (document 02, b)): a length or a size field; the policy; the times; a state that is no
    // list.
    ListSize = 40,
    ListPolicy = 41,
    ListTimes = 42,
    NoList = 43,
}

impl Refusal {
    // Its number in document 01.
    pub fn number(self) -> u8
        ensures { result ≡ number_of self }
    {
        self as u8
    }
}

// What comes back where nothing is handed out but the answer: 0, or the number of the refusal.
pub fn told(answer: Result<(), Refusal>) -> u8
    ensures { result ≡ told answer }
{
    match answer {
        Ok(()) => 0,
        Err(refusal) => refusal.number(),
    }
}
