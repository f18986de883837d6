ghost use Rattle.std.specs.Prelude.{◌≡◌, true, IfOk, Ok};
ghost use Rattle.messages.specs.Lawful.{is_lawful};
ghost use Rattle.messages.specs.Made.{said};
ghost use Rattle.messages.specs.Wire.{line_of};
ghost use Rattle.messages.specs.Parts.{reading_of};

use crate::message::Message;
use crate::values::Values;
use crate::wire::parts::take_apart;
use crate::wire::unread::Unread;

// The message that a wire line says, or the denial.
fn decode(line: &[u8]) -> Result<Message, Unread>
    ensures { said result ≡ reading_of line.now }
{
    let parts = take_apart(line)?;
    Message::new(parts.values).map_err(|_| Unread::NotLawful)
}

/// The message that a wire line says; denied with 15 if the bytes are no line, with 14 if their values are not lawful.
pub fn read(line: &[u8]) -> Result<Message, Unread>
    ensures value { said result ≡ reading_of line.now }
    ensures sound { IfOk result (λ m. line.now ≡ line_of m.values) }
    ensures complete { (v : Values) → is_lawful v ≡ true → line.now ≡ line_of v → said result ≡ Ok v }
{
    decode(line)
}
