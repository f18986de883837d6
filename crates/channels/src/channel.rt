ghost use Rattle.std.specs.Prelude.{◌≡◌, ℕ, ◌-◌, ◌≤◌, true, List, length};
ghost use Rattle.std.specs.List.{AllByRecursion};
ghost use Rattle.messages.specs.declared.values.Values.{Values};
ghost use Rattle.messages.specs.Lawful.{is_lawful};
ghost use Rattle.messages.specs.Made.{said};
ghost use Rattle.waiting_line.specs.Lines.{put_answer, put_left};
ghost use Rattle.channels.specs.Meaning.{seen, first, taken, rest, Leaves};

use answers::Denial;
use messages::Message;

/// A one-way channel: a capacity, fixed at its making, and the list of the lawful messages that wait in it, oldest first.
pub trait Channel {
    ghost capacity: { Self → ℕ };

    ghost waiting: { Self → List Values };

    /// How many messages it can hold.
    fn capacity(&self) -> usize
        ensures { result ≡ capacity self.now };

    /// How many messages wait.
    fn len(&self) -> usize
        ensures { result ≡ length (waiting self.now) };

    /// How many places are free.
    fn free(&self) -> usize
        ensures { result ≡ capacity self.now - length (waiting self.now) }
    {
        self.capacity() - self.len()
    }

    /// The first message, or that none waits.
    fn look(&self) -> Option<Message>
        ensures { seen result ≡ first (waiting self.now) };

    /// Puts a message at the end; denied with 13 if no place is free.
    fn put(&mut self, message: Message) -> Result<(), Denial>
        ensures answer { result ≡ put_answer (capacity self.old) (waiting self.old) }
        ensures leaves { Leaves capacity waiting self.old (put_left (capacity self.old) (waiting self.old) message.values) self.new };

    /// Takes the first message; denied with 10 if none waits.
    fn take(&mut self) -> Result<Message, Denial>
        ensures answer { said result ≡ taken (waiting self.old) }
        ensures leaves { Leaves capacity waiting self.old (rest (waiting self.old)) self.new };

    ghost fits: { (c : Self) → length (waiting c) ≤ capacity c };

    ghost lawful: { (c : Self) → AllByRecursion (λ v. is_lawful v ≡ true) (waiting c) };
}
