//! Limits by name, which contracts and code cite.

/// Places are below it: a place has 22 bits in a record's words.
pub const MOST_PLACES: u32 = 4_194_304;

/// The most nodes that a store is opened with.
pub const MOST_NODES: u32 = 4_000_000;

/// The most events of a script, and rows of a store.
pub const MOST_EVENTS: u32 = 200_000;

/// The most bytes of a script's text.
pub const MOST_SCRIPT_BYTES: usize = 16_777_216;

/// The most items of a version: sizes have 31 bits in a record's words.
pub const MOST_ITEMS: u32 = 2_147_483_647;

/// The most callers of a store: a row's first word has room for so many numbers.
pub const MOST_CALLERS: u32 = 64;

/// The most places that are drawn, 65 times `MOST_NODES`: those given, and for each caller one ask in vain.
pub const MOST_DRAWN: u64 = 260_000_000;

/// Attempts that were given back are counted up to it: a state word has 16 bits for them.
pub const MOST_GIVEN_UP: u16 = 65_535;

/// The claims for which a force has room from the start: only one that holds more asks for memory.
pub const ROOM_FOR_CLAIMS: usize = 64;
