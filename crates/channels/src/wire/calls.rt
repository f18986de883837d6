ghost use Rattle.std.specs.Prelude.{◌≡◌, ◌/◌, [], length};
ghost use Rattle.messages.specs.Made.{said};
ghost use Rattle.waiting_line.specs.Gaps.{over};
ghost use Rattle.waiting_line.specs.Lines.{put_answer, put_left};
ghost use Rattle.channels.specs.Meaning.{taken, rest, Leaves};
ghost use Rattle.channels.specs.Lined.{first_line, lines_of};
ghost use Rattle.channels.specs.Wires.{wire_memory, wire_capacity, wire_waiting, wire_fits, wire_lawful};

use crate::channel::Channel;
use crate::wire::Wire;
use answers::Denial;
use messages::{LONGEST, Message, read, write};
use waiting_line::WaitingLine;

// The bytes up to and with the first newline; all of them where there is none.
fn first_line(bytes: &[u8]) -> &[u8]
    ensures { result.now ≡ first_line bytes.now }
{
    bytes
        .split_inclusive(|byte| *byte == b'\n')
        .next()
        .unwrap_or(bytes)
}

impl<'m> Wire<'m> {
    /// An empty wire over given memory, with a place for each 46 bytes of it.
    pub fn new(memory: &'m mut [u8]) -> Wire<'m>
        ensures waiting { wire_waiting result ≡ [] }
        ensures capacity { wire_capacity result ≡ length memory.old / 46 }
        ensures memory { wire_memory result ≡ memory.old }
    {
        Wire {
            bytes: WaitingLine::new(memory),
            count: 0,
        }
    }

    /// The bytes that stand on it: the lines of the waiting messages, one after another.
    pub fn lines(&self) -> &[u8]
        ensures { result.now ≡ lines_of (wire_waiting self.now) }
    {
        self.bytes.all()
    }
}

impl<'m> Channel for Wire<'m> {
    ghost capacity = { wire_capacity };

    ghost waiting = { wire_waiting };

    ghost fits = { wire_fits };

    ghost lawful = { wire_lawful };

    fn capacity(&self) -> usize {
        self.bytes.places() / LONGEST
    }

    fn len(&self) -> usize {
        self.count
    }

    fn look(&self) -> Option<Message> {
        read(first_line(self.bytes.all())).ok()
    }

    fn put(&mut self, message: Message) -> Result<(), Denial>
        ensures answer { result ≡ put_answer (wire_capacity self.old) (wire_waiting self.old) }
        ensures leaves { Leaves wire_capacity wire_waiting self.old (put_left (wire_capacity self.old) (wire_waiting self.old) message.values) self.new }
        ensures memory { wire_memory self.new ≡ over (lines_of (wire_waiting self.new)) (wire_memory self.old) }
    {
        if self.count == self.capacity() {
            return Err(Denial::NoFreePlace);
        }
        self.bytes.put_all(write(&message).as_bytes())?;
        self.count += 1;
        Ok(())
    }

    fn take(&mut self) -> Result<Message, Denial>
        ensures answer { said result ≡ taken (wire_waiting self.old) }
        ensures leaves { Leaves wire_capacity wire_waiting self.old (rest (wire_waiting self.old)) self.new }
        ensures memory { wire_memory self.new ≡ over (lines_of (wire_waiting self.new)) (wire_memory self.old) }
    {
        let message = self.look().ok_or(Denial::NoneThere)?;
        let len = first_line(self.bytes.all()).len();
        self.bytes.remove_first(len);
        self.count -= 1;
        Ok(message)
    }
}
