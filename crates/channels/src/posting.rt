ghost use Rattle.std.specs.Prelude.{[], ◌∷◌};
ghost use Rattle.channels.specs.Meaning.{Takes};

use crate::channel::Channel;
use messages::{Message, Values};

/// Puts the message of these values at the end, if it is lawful and a place is free.
pub fn post<C: Channel>(to: &mut C, values: Values)
    ensures { Takes C.Channel.capacity C.Channel.waiting to.old (values ∷ []) to.new }
{
    if let Ok(message) = Message::new(values) {
        let _ = to.put(message);
    }
}
