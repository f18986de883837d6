ghost use Rattle.a_side.specs.Rules.{a_tn, a_aged, a_due};

use messages::Service;
use waiting_line::{Record, Timed};

/// What a request of the originating side is doing.
#[derive(Clone, Copy, Debug, PartialEq, Eq)]
pub enum AState {
    /// Sent, and not yet accepted by the destination side.
    Requested,
    /// Accepted: the destination is awaited.
    Waiting,
    /// The destination is free, and the user is being called back.
    Recalled,
    /// The destination is free, and the user is busy.
    Suspended,
    /// The user has answered, and the call is on its way.
    Calling,
}

/// A request of a user. A stopped timer holds 0.
#[derive(Clone, Copy, Debug, PartialEq, Eq)]
pub struct ARecord {
    pub tn: u32,
    pub user: u8,
    pub destination: u8,
    /// The service as it was given.
    pub service: Service,
    pub state: AState,
    pub t2: u16,
    pub t3: u16,
    pub t4: u16,
}

impl Record for ARecord {
    ghost transaction_of = { a_tn };

    ghost destination_of = { λ r. r.destination };

    fn transaction(&self) -> u32 {
        self.tn
    }

    fn destination(&self) -> u8 {
        self.destination
    }
}

impl Timed for ARecord {
    ghost ticked = { a_aged };

    ghost due = { a_due };

    fn tick(&mut self) {
        match self.state {
            AState::Requested => {
                self.t2 = self.t2.saturating_sub(1);
            }
            AState::Recalled => {
                self.t3 = self.t3.saturating_sub(1);
                self.t4 = self.t4.saturating_sub(1);
            }
            _ => {
                self.t3 = self.t3.saturating_sub(1);
            }
        }
    }

    fn is_due(&self) -> bool {
        match self.state {
            AState::Requested => self.t2 == 0,
            AState::Recalled => self.t3 == 0 || self.t4 == 0,
            _ => self.t3 == 0,
        }
    }
}
