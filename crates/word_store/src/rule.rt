//! The rule of a store, and the names of its kinds of step.
ghost use Rattle.word_store.specs.Rule.{IsKept, first_sight};
ghost use Rattle.word_store.specs.Opened.{with_first, without_first};
ghost use Rattle.word_store.specs.Joined.{joined, no_sight};
ghost use Rattle.word_store.specs.Plays.{Looked, LookedLast, Noted, Drew, Filled, Published, Tried, Spent, DrewName, StoredWord};

use crate::sight::{Sight, Size};
use atomic_table::{Join, Play, Split, TableRule};

/// What is true of a store between any two steps.
pub struct Order;

impl TableRule<u8, Sight, Size> for Order {
    ghost holds = { IsKept };

    ghost first = { first_sight };
}

/// A load.
pub struct Look;

impl Play<u8, Sight> for Look {
    ghost then = { Looked };
}

/// A load with which a refusal is noted.
pub struct Note;

impl Play<u8, Sight> for Note {
    ghost then = { Noted };
}

/// Places are drawn.
pub struct Draw;

impl Play<u8, Sight> for Draw {
    ghost then = { Drew };
}

/// A record word of a place in hand is stored, one behind the first.
pub struct Fill;

impl Play<u8, Sight> for Fill {
    ghost then = { Filled };
}

/// The first record word of a place in hand is stored.
pub struct Publish;

impl Play<u8, Sight> for Publish {
    ghost then = { Published };
}

/// A claim is tried.
pub struct Try;

impl Play<u8, Sight> for Try {
    ghost then = { Tried };
}

/// A claim is spent.
pub struct Spend;

impl Play<u8, Sight> for Spend {
    ghost then = { Spent };
}

/// A name is drawn.
pub struct DrawName;

impl Play<u8, Sight> for DrawName {
    ghost then = { DrewName };
}

/// A word of a row is stored.
pub struct StoreWord;

impl Play<u8, Sight> for StoreWord {
    ghost then = { StoredWord };
}

/// A caller's rights pass to a seat of its own.
pub struct Deal;

impl Split<Sight> for Deal {
    ghost left = { without_first };

    ghost right = { with_first };
}

/// A caller's rights, and what it has in hand, pass to another seat.
pub struct Gather;

impl Join<Sight> for Gather {
    ghost both = { joined };

    ghost spent = { no_sight };
}

/// The first load of a seat that took others in.
pub struct LastLook;

impl Play<u8, Sight> for LastLook {
    ghost then = { λ st before found after. LookedLast before after };
}
