ghost use Rattle.std.specs.Prelude.{◌≡◌};
ghost use Rattle.messages.specs.Lawful.{is_lawful};
ghost use Rattle.messages.specs.Made.{said, lawfully};

use crate::limits::Limits;
use crate::message::Message;
use crate::values::Values;
use answers::Denial;

// Whether the seven values are a lawful message.
fn is_lawful(values: &Values) -> bool
    ensures { result ≡ is_lawful values.now }
{
    let limits = Limits::of(values.kind);
    values.tn >= 1
        && values.user <= limits.party
        && values.destination <= limits.party
        && values.service <= limits.service
        && values.retention <= limits.retention
        && (limits.least_cause..=limits.most_cause).contains(&values.cause)
}

impl Message {
    /// The message of seven values; denied with 14 if they are not lawful.
    pub fn new(values: Values) -> Result<Message, Denial>
        ensures { said result ≡ lawfully values }
    {
        if is_lawful(&values) {
            Ok(Message { values })
        } else {
            Err(Denial::NotLawful)
        }
    }

    /// Its kind and its six numbers.
    pub fn values(&self) -> Values
        ensures { result ≡ self.now.values }
    {
        self.values
    }
}
