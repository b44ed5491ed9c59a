//! Levels of finger trees over any heap (Hinze and Paterson, Finger trees: a simple general-purpose data structure): how they
//! are read, the pushes onto them, what pops leave of them, two of them in one, and how they are put.
//!
//! A push onto a full digit keeps two elements there. Three go down as a node, in a suspended push onto the middle:
//!
//! ```text
//!     before              after a push of x on the left
//!     Deep [b c d e]      Deep [x b]
//!          middle              PushL (c d e) middle
//!          [y z]               [y z]
//! ```
//!
//! Where a pop leaves nothing of a digit, the middle's node at that end becomes the digit. The middle is left without that node:
//! a tree with a shorter digit, or a suspended tail where it was the last one of its digit:
//!
//! ```text
//!     before              after a pop of x on the left
//!     Deep [x]            Deep [b c]
//!          Deep [(b c)]        DeepL middle [n]
//!               middle
//!               [n]
//!          [y z]               [y z]
//! ```
//!
//! Two deep trees in one, with a few elements between them, keep their outer digits. The inner ones and those elements become
//! nodes, of three where more than four are left, and wait between the middles as a suspended concatenation:
//!
//! ```text
//!     before                          after, with [d e] between
//!     Deep [a]      Deep [f g]        Deep [a]
//!          left          right             Concat left [(b c d) (e f g)] right
//!          [b c]         [h]               [h]
//! ```
#![tactic(auto)]

pub mod concat;
pub mod few;
pub mod level;
pub mod measured;
pub mod near_draws;
pub mod near_pops;
pub mod near_pushes;
mod near_puts;
pub mod pops;
pub mod pushes;
pub mod puts;
pub mod reads;

pub use concat::concat_level;
pub use few::{Few, Group, WeighedFew, Weight};
pub use level::{Digit, Family, Level, Middle, NodeRow, Nodes, Pushed, Side, places};
pub use measured::{Cached, measured_tree};
pub use near_draws::put_drawn;
pub use near_pops::put_popped;
pub use near_pushes::{put_pushed, put_pushes};
pub use pops::{Popped, drawn_places, popped_level, popped_need};
pub use pushes::{pushed_count, pushed_places};
pub use puts::{put_few, put_level};
pub use reads::{read_digit, read_level, read_weighed};
