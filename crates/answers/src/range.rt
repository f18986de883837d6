ghost use Rattle.std.specs.Prelude.{◌≡◌};
ghost use Rattle.answers.specs.Rows.{within, timed, limited, switched, placed, sized};

/// Whether a number lies from `low` to `high`.
pub fn is_within(low: u32, high: u32, number: u32) -> bool
    ensures { result ≡ within low high number }
{
    (low..=high).contains(&number)
}

/// Whether a timer may be set to so many ticks.
pub fn is_timed(ticks: u32) -> bool
    ensures { result ≡ timed ticks }
{
    (1..=60_000).contains(&ticks)
}

/// Whether requests may be limited to so many.
pub fn is_limited(most: u32) -> bool
    ensures { result ≡ limited most }
{
    (1..=5).contains(&most)
}

/// Whether a setting is off or on.
pub fn is_switched(setting: u32) -> bool
    ensures { result ≡ switched setting }
{
    setting <= 1
}

/// Whether a side may have so many record places.
pub fn is_placed(places: usize) -> bool
    ensures { result ≡ placed places }
{
    (1..=320).contains(&places)
}

/// Whether a channel may hold so many messages.
pub fn is_sized(capacity: usize) -> bool
    ensures { result ≡ sized capacity }
{
    (8..=64).contains(&capacity)
}
