// What a call asks of a channel before it uses it.
ghost use Rattle.std.specs.Prelude.{◌≡◌, ◌-◌, not, length, nat_lt};
ghost use Rattle.answers.specs.declared.denial.Denial.TheVariants.{OutOfRange, NoFreePlace};
ghost use Rattle.answers.specs.Rows.{denied, row, sized};

use crate::channel::Channel;
use answers::{Denial, is_sized};

/// Lets a channel of 8 to 64 places pass; denied with 1 if it has fewer or more.
pub fn check_sized<C: Channel>(channel: &C) -> Result<(), Denial>
    ensures { denied result ≡ row (not (sized (C.Channel.capacity channel.now))) OutOfRange }
{
    if !is_sized(channel.capacity()) {
        return Err(Denial::OutOfRange);
    }
    Ok(())
}

/// Lets a channel pass that has as many free places; denied with 13 if it has fewer.
pub fn check_room<C: Channel>(channel: &C, places: usize) -> Result<(), Denial>
    ensures { denied result ≡ row (nat_lt (C.Channel.capacity channel.now - length (C.Channel.waiting channel.now)) places) NoFreePlace }
{
    if channel.free() < places {
        return Err(Denial::NoFreePlace);
    }
    Ok(())
}
