// Carries a log of messages over a backplane and over a wire, and shows that both cabinets answer alike.

#![tactic(auto)]

ghost use Rattle.std.specs.Prelude.{◌≡◌, ◌++◌, OnOk};
ghost use Rattle.messages.specs.Parts.{reading_of};
ghost use Rattle.channels.specs.Meaning.{rest, seen, Leaves};
ghost use Rattle.channels.specs.Backplanes.{back_capacity, back_waiting};
ghost use Rattle.channels.specs.Wires.{wire_capacity, wire_waiting};
ghost use Rattle.cabinets.specs.Calls.{back_came, wire_came, line_put, Counted, PutCounted, TakingCounted};
ghost use Rattle.cabinets.specs.Page.{both_told, put_told, shown, taking_told};

use answers::Denial;
use came::left_by;
use channels::{Backplane, Channel, Wire, carry};
use messages::{Kind, LONGEST, Message, Values, read, write};
use std::alloc::AllocError;
use std::io;
use std::io::{Read, Write};
use tally::Tally;

mod came;
mod tally;

// How many messages each channel can hold, and how many the channel that they are carried to.
const PLACES: usize = 8;

const CARRIED: usize = 3;

// How many bytes of a line of the log are read. No line of a message is longer.
const LINE: usize = 64;

// Two channels that are asked the same, and the page that tells what each came to.
#[derive(Drop)]
struct Trial<'m> {
    backplane: Backplane<'m>,
    wire: Wire<'m>,
    tally: Tally,
    page: Vec<u8>,
}

impl Trial<'_> {
    // The whole trial: the log, what stands on the wire then, a carriage each way, and taking once more than they can hold.
    fn run(
        &mut self,
        log: &[u8],
        wire: &mut Wire<'_>,
        backplane: &mut Backplane<'_>,
    ) -> io::Result<()> {
        self.put_log(log)?;
        self.show_wire()?;
        self.carry_over(wire, backplane)?;
        for _ in 0..=PLACES {
            self.take()?;
        }
        Ok(())
    }

    // Puts every line of the log. A last part that no line end closes is no line.
    fn put_log(&mut self, log: &[u8]) -> io::Result<()> {
        for line in log.split_inclusive(|byte| *byte == b'\n') {
            if line.ends_with(b"\n") {
                self.put_line(&line[..line.len().min(LINE)])?;
            }
        }
        Ok(())
    }

    // Puts the message of a line on both channels. A line that is no message goes on neither.
    fn put_line(&mut self, line: &[u8]) -> io::Result<()>
        ensures backplane { OnOk result (Leaves back_capacity back_waiting self.old.backplane (line_put (reading_of line.now) (back_capacity self.old.backplane) (back_waiting self.old.backplane)) self.new.backplane) }
        ensures wire { OnOk result (Leaves wire_capacity wire_waiting self.old.wire (line_put (reading_of line.now) (wire_capacity self.old.wire) (wire_waiting self.old.wire)) self.new.wire) }
        ensures page { OnOk result (self.new.page.items ≡ put_told self.old.page.items line.now (reading_of line.now) self.old.backplane self.old.wire) }
        ensures tally { OnOk result (PutCounted (reading_of line.now) self.old.backplane self.old.wire self.old.tally self.new.tally) }
    {
        self.page.write_all(b"put ")?;
        self.page.write_all(line)?;
        match read(line) {
            Ok(message) => {
                let backplane = self.backplane.put(message);
                let wire = self.wire.put(message);
                self.compare(backplane, wire)
            }
            Err(unread) => {
                let denial = Denial::from(unread);
                writeln!(self.page, "  no message: denied with {denial}")
            }
        }
    }

    // Takes from both channels.
    fn take(&mut self) -> io::Result<()>
        ensures backplane { OnOk result (Leaves back_capacity back_waiting self.old.backplane (rest (back_waiting self.old.backplane)) self.new.backplane) }
        ensures wire { OnOk result (Leaves wire_capacity wire_waiting self.old.wire (rest (wire_waiting self.old.wire)) self.new.wire) }
        ensures page { OnOk result (self.new.page.items ≡ taking_told self.old.page.items self.old.backplane self.old.wire) }
        ensures tally { OnOk result (TakingCounted self.old.backplane self.old.wire self.old.tally self.new.tally) }
    {
        let first = self.wire.look();
        self.tally.compare(&self.backplane.look(), &first);
        self.page.write_all(b"take ")?;
        show(&mut self.page, first)?;
        let backplane = self.backplane.take().map(|_| ());
        let wire = self.wire.take().map(|_| ());
        self.compare(backplane, wire)
    }

    // What both answered, and what that left of them.
    fn compare(&mut self, backplane: Result<(), Denial>, wire: Result<(), Denial>) -> io::Result<()>
        ensures backplane { self.new.backplane ≡ self.old.backplane }
        ensures wire { self.new.wire ≡ self.old.wire }
        ensures page { OnOk result (self.new.page.items ≡ both_told self.old.page.items (back_came backplane self.old.backplane) (wire_came wire self.old.wire)) }
        ensures tally { Counted (back_came backplane self.old.backplane) (wire_came wire self.old.wire) self.old.tally self.new.tally }
    {
        let backplane = left_by(backplane, &self.backplane);
        let wire = left_by(wire, &self.wire);
        self.tally.count(backplane, wire);
        writeln!(self.page, "  backplane: {backplane}")?;
        writeln!(self.page, "  wire:      {wire}")
    }

    // Carries from each channel to one of the other make.
    fn carry_over(&mut self, wire: &mut Wire<'_>, backplane: &mut Backplane<'_>) -> io::Result<()> {
        write!(self.page, "backplane to wire: ")?;
        carry_and_show(&mut self.page, &mut self.backplane, wire)?;
        write!(self.page, "wire to backplane: ")?;
        carry_and_show(&mut self.page, &mut self.wire, backplane)
    }

    // The bytes that stand on the wire.
    fn show_wire(&mut self) -> io::Result<()> {
        let lines = self.wire.lines();
        writeln!(self.page, "on the wire are {} bytes:", lines.len())?;
        self.page.write_all(lines)
    }
}

// Carries from one channel to another, and tells how many messages went and which is the first that stayed.
fn carry_and_show<P: Channel, C: Channel>(
    page: &mut Vec<u8>,
    from: &mut P,
    to: &mut C,
) -> io::Result<()> {
    let carried = carry(from, to);
    write!(page, "carried {carried}, the first is now ")?;
    show(page, from.look())
}

// A message as its line.
fn show(page: &mut Vec<u8>, message: Option<Message>) -> io::Result<()>
    ensures { OnOk result (page.new.items ≡ page.old.items ++ shown (seen message)) }
{
    match message {
        Some(message) => page.write_all(write(&message).as_bytes()),
        None => page.write_all(b"nothing\n"),
    }
}

// An error is told in words, as `anyhow` prints it.
fn main(rt: HostRuntime) -> anyhow::Result<()> {
    let heap = rt.alloc();
    let mut log = Vec::new(heap);
    rt.stdin().read_to_end(&mut log)?;
    // Memory has to hold something before a message stands in it.
    let blank = Message::new(Values::plain(Kind::Suspend, 1)).unwrap();
    let mut records = vec![in heap; blank; PLACES]?;
    let mut bytes = vec![in heap; 0u8; PLACES * LONGEST]?;
    let mut few_records = vec![in heap; blank; CARRIED]?;
    let mut few_bytes = vec![in heap; 0u8; CARRIED * LONGEST]?;
    let mut trial = Trial {
        backplane: Backplane::new(records.as_mut_slice()),
        wire: Wire::new(bytes.as_mut_slice()),
        tally: Tally::default(),
        page: Vec::new(heap),
    };
    // A page is written in memory, so that only memory can be wanting.
    trial
        .run(
            log.as_slice(),
            &mut Wire::new(few_bytes.as_mut_slice()),
            &mut Backplane::new(few_records.as_mut_slice()),
        )
        .map_err(|_| AllocError)?;
    rt.write_all(trial.page.as_slice())?;
    println!(rt; "{}", trial.tally)?;
    Ok(())
}
