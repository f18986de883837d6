ghost use Rattle.std.specs.Prelude.{◌≡◌};
ghost use Rattle.answers.specs.Rows.{examined};
ghost use Rattle.b_side.specs.Ranges.{b_in_range};

use answers::{Denial, is_limited, is_placed, is_switched, is_timed, is_within};

/// The settings of the destination side, as given.
#[derive(Clone, Copy, Debug, PartialEq, Eq)]
pub struct BSettings {
    /// Ticks that a stored request stands.
    pub t7: u32,
    /// Ticks that a line is free before a request is recalled.
    pub t8: u32,
    /// Ticks that a recall waits for its call.
    pub t9: u32,
    /// Requests that one destination may have.
    pub lb: u32,
    /// The number of destinations.
    pub n: u32,
    /// Retention: 1 if a request may keep its place.
    pub rb: u32,
}

/// Tests the settings, the number of record places and the number of line facts before a side is made of them.
pub fn examine(settings: &BSettings, places: usize, facts: usize) -> Result<(), Denial>
    ensures { result ≡ examined (b_in_range settings.now places facts) }
{
    let fits = is_timed(settings.t7)
        && is_timed(settings.t8)
        && is_timed(settings.t9)
        && is_limited(settings.lb)
        && is_within(1, 64, settings.n)
        && is_switched(settings.rb)
        && is_placed(places)
        && facts == settings.n as usize;
    fits.then_some(()).ok_or(Denial::OutOfRange)
}
