ghost use Rattle.std.specs.Prelude.{◌≡◌};
ghost use Rattle.answers.specs.Rows.{examined};
ghost use Rattle.a_side.specs.Ranges.{a_in_range};

use answers::{Denial, is_limited, is_placed, is_switched, is_timed};

/// The settings of the originating side, as given.
#[derive(Clone, Copy, Debug, PartialEq, Eq)]
pub struct ASettings {
    /// Ticks that a request waits for its result.
    pub t2: u32,
    /// Ticks that an accepted request stands.
    pub t3: u32,
    /// Ticks that a recall waits for its answer.
    pub t4: u32,
    /// Requests that one user may have.
    pub la: u32,
    /// Retention: 1 if a request asks for it.
    pub ra: u32,
    /// The first transaction number.
    pub first: u32,
}

/// Tests the settings and the number of record places before a side is made of them.
pub fn examine(settings: &ASettings, places: usize) -> Result<(), Denial>
    ensures { result ≡ examined (a_in_range settings.now places) }
{
    let fits = is_timed(settings.t2)
        && is_timed(settings.t3)
        && is_timed(settings.t4)
        && is_limited(settings.la)
        && is_switched(settings.ra)
        && settings.first >= 1
        && is_placed(places);
    fits.then_some(()).ok_or(Denial::OutOfRange)
}
