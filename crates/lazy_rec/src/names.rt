//! Names of events, and the numbers by which events name versions.

ghost use Rattle.std.specs.Prelude.{◌≡◌, ◌<◌, true, false};
ghost use Rattle.lazy_rec.specs.History.{second_mark, is_second, event_name};

/// What the second version of a split has more than the name of its event.
pub const SECOND: u32 = 2_147_483_648;

/// Whether the number stands for a second version.
#[inline]
pub fn is_second(version: u32) -> bool
    ensures { result ≡ is_second version }
{
    version >= SECOND
}

/// The name of a version's event.
#[inline]
pub fn event_name(version: u32) -> u32
    ensures { result ≡ event_name version }
{
    if version >= SECOND {
        version - SECOND
    } else {
        version
    }
}

/// The number of the second version of the event of a name.
#[inline]
pub fn second_of(name: u32) -> u32
    requires { name < second_mark }
    ensures name { event_name result ≡ name }
    ensures second { is_second result ≡ true }
{
    name + SECOND
}
