//! The states of a suspension, and the word that shows one.

use crate::fields::{field_at, word2, word4};
use crate::places::Ref;

/// The state of a suspension. `given_up` counts the attempts that were given back, and stays at 65,535 once there.
#[derive(Clone, Copy, Debug, PartialEq, Eq)]
pub enum SuspState {
    Unforced {
        given_up: u16,
    },
    Claimed {
        given_up: u16,
    },
    /// Its value stands at the place, and took so many steps to make.
    Done {
        place: Ref,
        steps: u32,
        given_up: u16,
    },
}

impl SuspState {
    ghost use Rattle.std.specs.Prelude.{◌≡◌, true, IfSome, IfNone};
    ghost use Rattle.lazy_rec.specs.States.{state_in_range, state_word};

    /// The word that shows the state. The steps and the place are below 4,194,304.
    pub fn to_word(&self) -> u64
        requires { state_in_range self.now ≡ true }
        ensures { result ≡ state_word self.now }
    {
        match *self {
            SuspState::Unforced { given_up } => word2((2, 0), (16, given_up as u64)),
            SuspState::Claimed { given_up } => word2((2, 1), (16, given_up as u64)),
            SuspState::Done {
                place,
                steps,
                given_up,
            } => {
                word4(
                    (2, 3),
                    (16, given_up as u64),
                    (22, steps as u64),
                    (22, place.0 as u64),
                )
            }
        }
    }

    /// The state that a word shows, or none where no state in range has this word.
    pub fn of_word(word: u64) -> Option<SuspState>
        ensures some { IfSome result (λ s. (state_in_range s ≡ true) × (word ≡ state_word s)) }
        ensures none { IfNone result ((s : SuspState) → state_in_range s ≡ true → word ≡ state_word s → ⊥) }
    {
        let given_up = field_at(word, 2, 16) as u16;
        match field_at(word, 0, 2) {
            0 if word < 1 << 18 => Some(SuspState::Unforced { given_up }),
            1 if word < 1 << 18 => Some(SuspState::Claimed { given_up }),
            3 if word < 1 << 62 => {
                let steps = field_at(word, 18, 22) as u32;
                let place = Ref(field_at(word, 40, 22) as u32);
                Some(SuspState::Done {
                    place,
                    steps,
                    given_up,
                })
            }
            _ => None,
        }
    }
}
