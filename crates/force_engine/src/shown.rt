//! What a look at a place answers.

use lazy_rec::Ref;

/// What a place shows: the place of its value, or a suspension that nobody has claimed, or one that somebody has.
#[derive(Clone, Copy, Debug, PartialEq, Eq)]
pub enum Peek {
    Value(Ref),
    Unforced,
    Claimed,
}
