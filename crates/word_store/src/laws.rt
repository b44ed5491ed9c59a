//! What the rule means for who uses a store: laws, each the contract of a function with an empty body.
ghost use Rattle.word_store.specs.Laws.{DoneStays, ClaimsAreOnce, DoneIsUnclaimed, WorkIsDue, PlacesAreDue, VainIsShort, VainIsTold, RoomIsEnough};

/// A suspension that any caller ever saw done is done, with the same place and the same steps.
pub fn done_stays()
    ensures { DoneStays }
{}

/// No two callers hold the claim of one suspension.
pub fn claims_are_once()
    ensures { ClaimsAreOnce }
{}

/// Nobody holds the claim of a suspension that is done. Only who holds its claim completes a suspension: so it completes at most
/// once.
pub fn done_is_unclaimed()
    ensures { DoneIsUnclaimed }
{}

/// The suspensions that are claimed or done take together no more steps than the begun events are due.
pub fn work_is_due()
    ensures { WorkIsDue }
{}

/// The places that were given, and those that may yet be reserved, are together at most those of the begun events themselves and
/// eight for each step that these are due.
pub fn places_are_due()
    ensures { PlacesAreDue }
{}

/// After an add in vain the store has fewer nodes than its begun events may take, with eight for each step that these are due.
pub fn vain_is_short()
    ensures { VainIsShort }
{}

/// The number of drawn places is that of the published and reserved ones, and what was added in vain. What was added in
/// vain is what is still in a hand and what some full rows wanted, each row taken once.
pub fn vain_is_told()
    ensures { VainIsTold }
{}

/// In a store with that many nodes the number of drawn places, and what all callers may yet reserve, are together within it: so
/// whatever a caller may reserve is there.
pub fn room_is_enough()
    ensures { RoomIsEnough }
{}
