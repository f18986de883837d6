// The calls of the destination side.
ghost use Rattle.std.specs.Prelude.{◌≡◌, true, false, length};
ghost use Rattle.b_side.specs.Rules.{b_fresh};
ghost use Rattle.destination.specs.Sides.{b_of, record_memory};
ghost use Rattle.destination.specs.Calls.{Came, CameSending, turned, forwarding_set, ticked, expired};

use crate::side::{BSide, Fit, Unfit};
use answers::{Answer, Denial};
use b_side::{BRecord, BSettings, LineFacts, examine};
use channels::Channel;
use waiting_line::{Timed, WaitingLine};

impl<'m> BSide<'m> {
    /// A side with no records, idle lines and no forwarding. One made of what is out of range denies every call with 1.
    pub fn new(
        settings: BSettings,
        memory: &'m mut [BRecord],
        facts: &'m mut [LineFacts],
    ) -> BSide<'m>
        ensures side { b_of result ≡ b_fresh settings (length memory.old) facts.old }
        ensures memory { record_memory result ≡ memory.old }
    {
        let side = if examine(&settings, memory.len(), facts.len()).is_ok() {
            facts.fill(LineFacts::default());
            Ok(Fit {
                settings,
                records: WaitingLine::new(memory),
                lines: facts,
            })
        } else {
            Err(Unfit {
                settings,
                memory,
                facts,
            })
        };
        BSide { side }
    }

    fn turn(&mut self, destination: u8, busy: bool) -> Result<Answer, Denial>
        ensures { Came (turned (b_of self.old) destination busy) result self.old self.new }
    {
        let Ok(side) = &mut self.side else {
            return Err(Denial::OutOfRange);
        };
        side.may_turn(destination)?;
        let ran = side.guards();
        side.turn_line(destination, busy);
        side.settle(&ran);
        Ok(Answer::Done)
    }

    /// A destination's line becomes busy.
    pub fn line_busy(&mut self, destination: u8) -> Result<Answer, Denial>
        ensures { Came (turned (b_of self.old) destination true) result self.old self.new }
    {
        self.turn(destination, true)
    }

    /// A destination's line becomes free.
    pub fn line_free(&mut self, destination: u8) -> Result<Answer, Denial>
        ensures { Came (turned (b_of self.old) destination false) result self.old self.new }
    {
        self.turn(destination, false)
    }

    /// Sets the forwarding of a destination, by its number.
    pub fn set_forwarding(&mut self, destination: u8, forwarding: u8) -> Result<Answer, Denial>
        ensures { Came (forwarding_set (b_of self.old) destination forwarding) result self.old self.new }
    {
        let Ok(side) = &mut self.side else {
            return Err(Denial::OutOfRange);
        };
        let forwarding = side.may_forward(destination, forwarding)?;
        side.forward_line(destination, forwarding);
        Ok(Answer::Done)
    }

    /// Takes one from each running timer.
    pub fn tick(&mut self) -> Result<Answer, Denial>
        ensures { Came (ticked (b_of self.old)) result self.old self.new }
    {
        let Ok(side) = &mut self.side else {
            return Err(Denial::OutOfRange);
        };
        side.may_tick()?;
        side.tick_guards();
        side.records.tick();
        Ok(Answer::Done)
    }

    /// Handles one timer at 0: of the records first, in stored order, then of the guards.
    pub fn expiry<C: Channel>(&mut self, to_a: &mut C) -> Result<Answer, Denial>
        ensures { CameSending C.Channel.capacity C.Channel.waiting expired result self.old to_a.old self.new to_a.new }
    {
        let Ok(side) = &mut self.side else {
            return Err(Denial::OutOfRange);
        };
        let due = side.may_expire(to_a)?;
        let ran = side.guards();
        let answer = side.expire(due, to_a);
        side.settle(&ran);
        Ok(answer)
    }
}
