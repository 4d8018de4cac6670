// What reading a table hands back, from an image or from a list.
ghost use Rattle.std.specs.Prelude.{◌≡◌};
ghost use Rattle.executive.specs.Reading.{refused_with, accepted_with};

use crate::state::State;

// Why reading was refused, and the place of the record at which that arose. What reads a table here says why by a
// `Refusal`; another may say any number.
#[derive(Clone, Copy, PartialEq, Eq)]
pub struct Refused<Why> {
    pub refusal: Why,
    pub place: usize,
}

// The state beside the answer.
#[derive(Clone, Copy)]
pub struct Loaded<Why> {
    pub state: State,
    pub answer: Result<(), Refused<Why>>,
}

impl<Why> Loaded<Why> {
    // A refusal hands back the empty state.
    pub fn refused(refusal: Why, place: usize) -> Self
        ensures { result ≡ refused_with refusal place }
    {
        Self {
            state: State::empty(),
            answer: Err(Refused { refusal, place }),
        }
    }

    // The state that was read.
    pub fn accepted(state: State) -> Self
        ensures { result ≡ accepted_with state }
    {
        Self {
            state,
            answer: Ok(()),
        }
    }
}
