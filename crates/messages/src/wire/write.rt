ghost use Rattle.std.specs.Prelude.{◌≡◌, ◌++◌, decimal};
ghost use Rattle.drafts.specs.Drafts.{written, added};
ghost use Rattle.messages.specs.Wire.{key_text, line_of};

use crate::message::Message;
use crate::wire::key::Key;
use drafts::Draft;

/// The bytes of the longest line.
pub const LONGEST: usize = 46;

// Adds a key and its number.
fn push_field(line: &mut Draft<LONGEST>, key: Key, number: u32)
    ensures { written line.new ≡ added 46 (added 46 (written line.old) (key_text key)) (decimal number) }
{
    line.push_text(key.text());
    line.push_number(u64::from(number));
}

/// The wire line of a message.
#[tactic(auto, using(crate::proofs::Pieces::pieces_fit))]
pub fn write(message: &Message) -> Draft<LONGEST>
    ensures { written result ≡ line_of message.now.values }
{
    let values = message.values();
    let mut line = Draft::new();
    line.push_text(Key::Kind.text());
    line.push(u8::from(values.kind));
    push_field(&mut line, Key::Tn, values.tn);
    push_field(&mut line, Key::A, u32::from(values.user));
    push_field(&mut line, Key::B, u32::from(values.destination));
    push_field(&mut line, Key::Sv, u32::from(values.service));
    push_field(&mut line, Key::Rt, u32::from(values.retention));
    push_field(&mut line, Key::Cs, u32::from(values.cause));
    line.push(b'\n');
    line
}
