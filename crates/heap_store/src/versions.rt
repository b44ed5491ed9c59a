//! Versions of structures.

use lazy_rec::{Kind, Ref};

/// A version that an event made: its number, which is the event's name or `second_of` it, the kind, the number of items, and
/// the place of its root, which is a value record and never a pending one.
#[derive(Clone, Copy, Debug, PartialEq, Eq)]
pub struct Version {
    pub name: u32,
    pub kind: Kind,
    pub size: u32,
    pub root: Ref,
}
