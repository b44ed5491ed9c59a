//! Places of a store, and items.

/// The name of a place of a store. It is below 4,194,304.
#[derive(Clone, Copy, Debug, PartialEq, Eq)]
pub struct Ref(pub u32);

/// One item of a structure.
#[derive(Clone, Copy, Debug, PartialEq, Eq)]
pub struct Item(pub u64);
