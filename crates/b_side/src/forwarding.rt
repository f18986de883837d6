ghost use Rattle.std.specs.Prelude.{◌≡◌};
ghost use Rattle.b_side.specs.Forwardings.{forwarding_number, forwarding_of};

/// Whether calls to a destination go elsewhere, and when.
#[derive(Clone, Copy, Debug, Default, PartialEq, Eq)]
pub enum Forwarding {
    #[default]
    None = 0,
    /// While the destination is busy.
    Busy = 1,
    /// When the destination does not answer.
    NoReply = 2,
    Unconditional = 3,
}

impl From<Forwarding> for u8 {
    ghost from_gives = { λ forwarding number. number ≡ forwarding_number forwarding };

    fn from(forwarding: Forwarding) -> u8 {
        forwarding as u8
    }
}

/// A number above 3 gives none.
impl From<u8> for Forwarding {
    ghost from_gives = { λ number forwarding. forwarding ≡ forwarding_of number };

    fn from(number: u8) -> Forwarding {
        match number {
            1 => Forwarding::Busy,
            2 => Forwarding::NoReply,
            3 => Forwarding::Unconditional,
            _ => Forwarding::None,
        }
    }
}
