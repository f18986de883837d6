ghost use Rattle.b_side.specs.Rules.{b_aged, b_due};

use messages::Service;
use waiting_line::{Record, Timed};

/// What a request of the destination side is doing.
#[derive(Clone, Copy, Debug, PartialEq, Eq)]
pub enum BState {
    /// Stored, and waiting for its turn.
    Queued,
    /// Passed over while its user is busy.
    Suspended,
    /// Its user has been told that the destination is free.
    Recalling,
}

/// A stored request. A stopped timer holds 0.
#[derive(Clone, Copy, Debug, PartialEq, Eq)]
pub struct BRecord {
    pub tn: u32,
    pub destination: u8,
    /// The service meant, never one that is not given.
    pub service: Service,
    /// The agreed retention: whether a call that finds the destination busy keeps its place.
    pub retention: bool,
    pub state: BState,
    pub t7: u16,
    pub t9: u16,
}

impl Record for BRecord {
    ghost transaction_of = { λ r. r.tn };

    ghost destination_of = { λ r. r.destination };

    fn transaction(&self) -> u32 {
        self.tn
    }

    fn destination(&self) -> u8 {
        self.destination
    }
}

impl Timed for BRecord {
    ghost ticked = { b_aged };

    ghost due = { b_due };

    // T7 runs while the record stands, T9 only in Recalling.
    fn tick(&mut self) {
        self.t7 = self.t7.saturating_sub(1);
        if self.state == BState::Recalling {
            self.t9 = self.t9.saturating_sub(1);
        }
    }

    fn is_due(&self) -> bool {
        self.t7 == 0 || (self.state == BState::Recalling && self.t9 == 0)
    }
}
