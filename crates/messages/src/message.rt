// A message with its law. This file cites nothing that names `Message`.
ghost use Rattle.std.specs.Prelude.{◌≡◌, true};
ghost use Rattle.messages.specs.Lawful.{is_lawful};

use crate::values::Values;

/// A lawful message: no message exists whose values break their ranges.
#[derive(Clone, Copy, Debug, PartialEq, Eq)]
pub struct Message {
    values: Values,
    ghost lawful: { is_lawful values ≡ true },
}

pub mod made;
