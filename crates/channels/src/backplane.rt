ghost use Rattle.std.specs.Prelude.{◌≡◌, [], length};
ghost use Rattle.messages.specs.Made.{said};
ghost use Rattle.waiting_line.specs.Gaps.{over};
ghost use Rattle.waiting_line.specs.Lines.{put_answer, put_left};
ghost use Rattle.channels.specs.Meaning.{taken, rest, Leaves};
ghost use Rattle.channels.specs.Backplanes.{records, back_memory, back_capacity, back_waiting, back_fits, back_lawful};

use crate::channel::Channel;
use answers::Denial;
use messages::Message;
use waiting_line::WaitingLine;

/// A channel that is a waiting line of message records.
#[derive(Drop)]
pub struct Backplane<'m> {
    line: WaitingLine<'m, Message>,
}

impl<'m> Backplane<'m> {
    /// An empty backplane over given memory, with a place for each record of it.
    pub fn new(places: &'m mut [Message]) -> Backplane<'m>
        ensures waiting { back_waiting result ≡ [] }
        ensures capacity { back_capacity result ≡ length places.old }
        ensures memory { back_memory result ≡ places.old }
    {
        Backplane {
            line: WaitingLine::new(places),
        }
    }
}

impl<'m> Channel for Backplane<'m> {
    ghost capacity = { back_capacity };

    ghost waiting = { back_waiting };

    ghost fits = { back_fits };

    ghost lawful = { back_lawful };

    fn capacity(&self) -> usize {
        self.line.places()
    }

    fn len(&self) -> usize {
        self.line.len()
    }

    fn look(&self) -> Option<Message> {
        self.line.read(0).ok()
    }

    fn put(&mut self, message: Message) -> Result<(), Denial>
        ensures answer { result ≡ put_answer (back_capacity self.old) (back_waiting self.old) }
        ensures leaves { Leaves back_capacity back_waiting self.old (put_left (back_capacity self.old) (back_waiting self.old) message.values) self.new }
        ensures memory { back_memory self.new ≡ over (put_left (back_capacity self.old) (records self.old) message) (back_memory self.old) }
    {
        self.line.put(message)
    }

    fn take(&mut self) -> Result<Message, Denial>
        ensures answer { said result ≡ taken (back_waiting self.old) }
        ensures leaves { Leaves back_capacity back_waiting self.old (rest (back_waiting self.old)) self.new }
        ensures memory { back_memory self.new ≡ over (rest (records self.old)) (back_memory self.old) }
    {
        let message = self.line.read(0)?;
        self.line.remove(0)?;
        Ok(message)
    }
}
