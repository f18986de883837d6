ghost use Rattle.std.specs.Prelude.{◌≡◌, if◌then◌else◌};
ghost use Rattle.answers.specs.Numbers.{cause_number};
ghost use Rattle.messages.specs.Services.{service_number};
ghost use Rattle.messages.specs.Sent.{numbered, plain, requesting, cancelling};

use crate::kind::Kind;
use crate::service::Service;
use answers::Cause;

/// The seven values of a message, lawful or not: a kind and six numbers, 0 where the kind does not use one.
#[derive(Clone, Copy, Debug, PartialEq, Eq)]
pub struct Values {
    pub kind: Kind,
    pub tn: u32,
    pub user: u8,
    pub destination: u8,
    pub service: u8,
    pub retention: u8,
    pub cause: u8,
}

impl Values {
    /// A message other than a request: its transaction, retention and cause.
    pub fn numbered(kind: Kind, tn: u32, retention: bool, cause: Cause) -> Values
        ensures { result ≡ numbered kind tn (if retention then 1 else 0) (cause_number cause) }
    {
        Values {
            kind,
            tn,
            user: 0,
            destination: 0,
            service: 0,
            retention: u8::from(retention),
            cause: u8::from(cause),
        }
    }

    /// A message that has its transaction and no other number.
    pub fn plain(kind: Kind, tn: u32) -> Values
        ensures { result ≡ plain kind tn }
    {
        Values::numbered(kind, tn, false, Cause::NotGiven)
    }

    /// A request, with its parties and its service.
    pub fn requesting(
        tn: u32,
        user: u8,
        destination: u8,
        service: Service,
        retention: bool,
    ) -> Values
        ensures { result ≡ requesting tn user destination (service_number service) (if retention then 1 else 0) }
    {
        Values {
            user,
            destination,
            service: u8::from(service),
            ..Values::numbered(Kind::Request, tn, retention, Cause::NotGiven)
        }
    }

    /// A cancellation, with its cause.
    pub fn cancelling(tn: u32, cause: Cause) -> Values
        ensures { result ≡ cancelling tn (cause_number cause) }
    {
        Values::numbered(Kind::Cancel, tn, false, cause)
    }
}
