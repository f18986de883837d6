ghost use Rattle.std.specs.Prelude.{◌≡◌, ◌++◌, take, drop};
ghost use Rattle.channels.specs.Meaning.{carried, Leaves};

use crate::channel::Channel;

/// Moves messages from one channel to another, in order, until the first is empty or the second is full; says how many.
pub fn carry<P: Channel, C: Channel>(from: &mut P, to: &mut C) -> usize
    ensures count { result ≡ carried (P.Channel.waiting from.old) (C.Channel.capacity to.old) (C.Channel.waiting to.old) }
    ensures from { Leaves P.Channel.capacity P.Channel.waiting from.old (drop result (P.Channel.waiting from.old)) from.new }
    ensures to { Leaves C.Channel.capacity C.Channel.waiting to.old (C.Channel.waiting to.old ++ take result (P.Channel.waiting from.old)) to.new }
{
    let count = from.len().min(to.free());
    for _ in 0..count {
        if let Ok(message) = from.take() {
            let _ = to.put(message);
        }
    }
    count
}
