use crate::forwarding::Forwarding;

/// The facts of a destination's line, in memory that the exchange gives.
#[derive(Clone, Copy, Debug, Default, PartialEq, Eq)]
pub struct LineFacts {
    pub busy: bool,
    pub forwarding: Forwarding,
    /// Ticks that T8 has left; 0 while it is stopped.
    pub guard: u16,
}
