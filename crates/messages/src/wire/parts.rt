ghost use Rattle.std.specs.Prelude.{◌≡◌, ◌≤◌, length, IfOk};
ghost use Rattle.lines.specs.Readings.{Handed};
ghost use Rattle.lines.specs.Results.{on_ok};
ghost use Rattle.lines.specs.Tokens.{seen, value_in};
ghost use Rattle.messages.specs.Wire.{key_most};
ghost use Rattle.messages.specs.Parts.{kind_at, field_of, parts_seen, parts_of};

use crate::kind::Kind;
use crate::values::Values;
use crate::wire::key::Key;
use lines::{Fault, Keyed, LineFault, Reader, Token};

/// A wire line taken apart: its seven values, and the part of the line that each fills.
#[derive(Clone, Copy, Debug, PartialEq, Eq)]
pub struct Parts<'a> {
    pub values: Values,
    pub kind: Token<'a>,
    pub tn: Token<'a>,
    pub user: Token<'a>,
    pub destination: Token<'a>,
    pub service: Token<'a>,
    pub retention: Token<'a>,
    pub cause: Token<'a>,
}

// The kind whose letter the token is.
#[tactic(auto, using(lines::proofs::Results::err_mapped), unfolding(crate::specs::Parts::kind_at))]
fn kind_in(letter: Token<'_>) -> Result<Kind, LineFault<Key>>
    ensures { result ≡ kind_at (seen letter.entry) }
{
    let fault = Fault::Text { at: letter.place() };
    Kind::try_from(letter.first()).map_err(|_| Keyed {
        key: Key::Kind,
        fault,
    })
}

// The number under a key.
fn field<'a>(reader: &mut Reader<'a>, key: Key) -> Result<Token<'a>, LineFault<Key>>
    ensures value { Handed (field_of key) reader.old (on_ok seen result) reader.new }
    ensures within { IfOk result (λ token. value_in (seen token) ≤ key_most key) }
{
    reader.field(key, key.text(), key.most())
}

/// Takes a wire line apart; refused with the key, the cause and the byte of its leftmost fault.
pub fn take_apart<'a>(line: &'a [u8]) -> Result<Parts<'a>, LineFault<Key>>
    ensures { on_ok parts_seen result ≡ parts_of line.now }
{
    let mut reader = Reader::new(line);
    reader.text(Key::Kind, Key::Kind.text())?;
    let kind = reader.letter(Key::Kind)?;
    let said = kind_in(kind)?;
    let tn = field(&mut reader, Key::Tn)?;
    let user = field(&mut reader, Key::A)?;
    let destination = field(&mut reader, Key::B)?;
    let service = field(&mut reader, Key::Sv)?;
    let retention = field(&mut reader, Key::Rt)?;
    let cause = field(&mut reader, Key::Cs)?;
    reader.end(Key::Cs)?;
    let values = Values {
        kind: said,
        tn: tn.number(),
        user: user.number() as u8,
        destination: destination.number() as u8,
        service: service.number() as u8,
        retention: retention.number() as u8,
        cause: cause.number() as u8,
    };
    Ok(Parts {
        values,
        kind,
        tn,
        user,
        destination,
        service,
        retention,
        cause,
    })
}
