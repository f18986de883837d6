// The calls of the originating side: each decides, then acts, and resumes last where records may now be resumed.
ghost use Rattle.std.specs.Prelude.{◌≡◌, length};
ghost use Rattle.a_side.specs.Rules.{a_fresh};
ghost use Rattle.originating.specs.Calls.{a_of, a_memory, Came, CameSending, activated, withdrawn, recall_answered, line_taken, line_freed, aged, expired};

use crate::side::rows::{MOST_SENT, check_party};
use crate::side::{ASide, Fit, Unfit};
use a_side::{ARecord, ASettings, examine};
use answers::{Answer, Denial};
use channels::{Channel, check_room, check_sized};
use waiting_line::{Timed, WaitingLine};

impl<'m> ASide<'m> {
    /// A side with no records and idle lines; one made of settings or memory that fail `examine` denies every call with 1.
    pub fn new(settings: ASettings, memory: &'m mut [ARecord]) -> ASide<'m>
        ensures side { a_of result ≡ a_fresh settings (length memory.old) }
        ensures memory { a_memory result ≡ memory.old }
    {
        let side = if examine(&settings, memory.len()).is_ok() {
            Ok(Fit {
                settings,
                next: Some(settings.first),
                busy: [false; 64],
                records: WaitingLine::new(memory),
            })
        } else {
            Err(Unfit { settings, memory })
        };
        ASide { side }
    }

    /// A user asks to be called back when a destination falls free.
    pub fn activate<C: Channel>(
        &mut self,
        to_b: &mut C,
        user: u8,
        destination: u8,
        service: u8,
    ) -> Result<Answer, Denial>
        ensures { CameSending C.Channel.capacity C.Channel.waiting (activated user destination service) result self.old to_b.old self.new to_b.new }
    {
        let Ok(side) = &mut self.side else {
            return Err(Denial::OutOfRange);
        };
        let (tn, service) = side.may_activate(to_b, user, destination, service)?;
        let answer = side.request(to_b, user, destination, service, tn);
        side.resume(to_b);
        Ok(answer)
    }

    /// A user gives up a request.
    pub fn withdraw<C: Channel>(
        &mut self,
        to_b: &mut C,
        user: u8,
        tn: u32,
    ) -> Result<Answer, Denial>
        ensures { CameSending C.Channel.capacity C.Channel.waiting (withdrawn user tn) result self.old to_b.old self.new to_b.new }
    {
        let Ok(side) = &mut self.side else {
            return Err(Denial::OutOfRange);
        };
        side.may_withdraw(to_b, user, tn)?;
        let answer = side.cancel(to_b, tn);
        side.resume(to_b);
        Ok(answer)
    }

    /// A user answers the recall of a request.
    pub fn answer_recall<C: Channel>(
        &mut self,
        to_b: &mut C,
        user: u8,
        tn: u32,
    ) -> Result<Answer, Denial>
        ensures { CameSending C.Channel.capacity C.Channel.waiting (recall_answered user tn) result self.old to_b.old self.new to_b.new }
    {
        let Ok(side) = &mut self.side else {
            return Err(Denial::OutOfRange);
        };
        let request = side.may_answer(to_b, user, tn)?;
        let answer = side.answer(to_b, request);
        side.resume(to_b);
        Ok(answer)
    }

    /// A user's line becomes busy.
    pub fn line_busy(&mut self, user: u8) -> Result<Answer, Denial>
        ensures { Came (line_taken user (a_of self.old)) result self.old self.new }
    {
        let Ok(side) = &mut self.side else {
            return Err(Denial::OutOfRange);
        };
        check_party(user)?;
        side.set_line(user, true);
        Ok(Answer::Done)
    }

    /// A user's line becomes idle.
    pub fn line_free<C: Channel>(&mut self, to_b: &mut C, user: u8) -> Result<Answer, Denial>
        ensures { CameSending C.Channel.capacity C.Channel.waiting (line_freed user) result self.old to_b.old self.new to_b.new }
    {
        let Ok(side) = &mut self.side else {
            return Err(Denial::OutOfRange);
        };
        check_sized(to_b)?;
        check_party(user)?;
        check_room(to_b, MOST_SENT)?;
        side.set_line(user, false);
        side.resume(to_b);
        Ok(Answer::Done)
    }

    /// Takes one from each running timer.
    pub fn tick(&mut self) -> Result<Answer, Denial>
        ensures { Came (aged (a_of self.old)) result self.old self.new }
    {
        let Ok(side) = &mut self.side else {
            return Err(Denial::OutOfRange);
        };
        side.may_tick()?;
        side.records.tick();
        Ok(Answer::Done)
    }

    /// Handles one timer at 0: of the first record that is due, T3 before T4.
    pub fn expiry<C: Channel>(&mut self, to_b: &mut C) -> Result<Answer, Denial>
        ensures { CameSending C.Channel.capacity C.Channel.waiting expired result self.old to_b.old self.new to_b.new }
    {
        let Ok(side) = &mut self.side else {
            return Err(Denial::OutOfRange);
        };
        let request = side.may_expire(to_b)?;
        let answer = side.expire(to_b, request);
        side.resume(to_b);
        Ok(answer)
    }
}
