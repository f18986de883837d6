ghost use Rattle.std.specs.Prelude.{◌≡◌};
ghost use Rattle.messages.specs.Lawful.{limits_of};

use crate::kind::Kind;

/// What the numbers of a kind may be: the largest of each, and the least cause.
#[derive(Clone, Copy, Debug, PartialEq, Eq)]
pub struct Limits {
    pub party: u8,
    pub service: u8,
    pub retention: u8,
    pub least_cause: u8,
    pub most_cause: u8,
}

impl Limits {
    // A kind that uses no number but its transaction.
    const NONE: Limits = Limits {
        party: 0,
        service: 0,
        retention: 0,
        least_cause: 0,
        most_cause: 0,
    };

    /// The limits of a kind.
    pub fn of(kind: Kind) -> Limits
        ensures { result ≡ limits_of kind }
    {
        match kind {
            Kind::Request => Limits {
                party: 63,
                service: 3,
                retention: 1,
                ..Limits::NONE
            },
            Kind::Result | Kind::CallBusy => Limits {
                retention: 1,
                ..Limits::NONE
            },
            Kind::Cancel => Limits {
                most_cause: 4,
                ..Limits::NONE
            },
            Kind::Error => Limits {
                least_cause: 6,
                most_cause: 7,
                ..Limits::NONE
            },
            _ => Limits::NONE,
        }
    }
}
