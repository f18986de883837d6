ghost use Rattle.std.specs.Prelude.{◌≡◌, [], ◌∷◌};
ghost use Rattle.drafts.specs.Drafts.{added_all};
ghost use Rattle.messages.specs.Made.{said};
ghost use Rattle.wirecheck.specs.Reports.{told_in, Says, numbered, retention as retention_words, cause as cause_words, request, uses, message as message_words, faulty, refusal, report as report_of};

use crate::words::Words;
use answers::{Cause, Denial};
use drafts::Draft;
use lines::LineFault;
use messages::{Key, Kind, Message, Service, Unread, Values};

/// One line of the report: what a wire line says, or why it is no message. The longest has some 120 bytes.
#[derive(Clone, Copy, Debug)]
pub struct Report {
    text: Draft<160>,
}

impl Report {
    /// The report of the log's line of this number, by what was read of it.
    pub fn of_line(number: u64, read: Result<Message, Unread>) -> Report
        ensures { told_in result ≡ added_all 160 [] (report_of number (said read)) }
    {
        let mut report = Report { text: Draft::new() };
        report.text.push_text(b"line ");
        report.text.push_number(number);
        report.text.push_text(b": ");
        match read {
            Ok(message) => report.say_message(&message.values()),
            Err(unread) => report.say_refusal(unread),
        }
        report.text.push(b'\n');
        report
    }

    /// What it says.
    pub fn as_bytes(&self) -> &[u8]
        ensures { result.now ≡ told_in self.now }
    {
        self.text.as_bytes()
    }

    // The kind, the transaction, and what else the kind uses.
    fn say_message(&mut self, values: &Values)
        ensures { Says self.old (message_words values.now) self.new }
    {
        self.text.push_text(values.kind.words());
        self.say_number(b", transaction ", values.tn);
        self.say_uses(values);
    }

    // What the kind uses besides the transaction.
    fn say_uses(&mut self, values: &Values)
        ensures { Says self.old (uses values.now.kind values.now) self.new }
    {
        match values.kind {
            Kind::Request => self.say_request(values),
            Kind::Result | Kind::CallBusy => self.say_retention(values.retention),
            Kind::Cancel | Kind::Error => self.say_cause(values.cause),
            _ => {}
        }
    }

    fn say_request(&mut self, values: &Values)
        ensures { Says self.old (request values.now) self.new }
    {
        self.say_number(b", user ", u32::from(values.user));
        self.say_number(b", destination ", u32::from(values.destination));
        self.say_words(b", ", Service::from(values.service));
        self.say_retention(values.retention);
    }

    fn say_retention(&mut self, retention: u8)
        ensures { Says self.old (retention_words retention) self.new }
    {
        if retention == 1 {
            self.text.push_text(b", retained");
        } else {
            self.text.push_text(b", not retained");
        }
    }

    fn say_cause(&mut self, cause: u8)
        ensures { Says self.old (cause_words cause) self.new }
    {
        self.say_number(b", cause ", u32::from(cause));
        self.say_words(b", ", Cause::from(cause));
    }

    fn say_refusal(&mut self, unread: Unread)
        ensures { Says self.old (refusal unread) self.new }
    {
        let denial = u8::from(Denial::from(unread));
        self.say_number(b"refused ", u32::from(denial));
        match unread {
            Unread::NotLawful => self.text.push_text(b", a line but no lawful message"),
            Unread::NotALine(fault) => self.say_fault(&fault),
        }
    }

    fn say_fault(&mut self, line: &LineFault<Key>)
        ensures { Says self.old (faulty line.now) self.new }
    {
        self.say_number(b", no line: cause ", u32::from(line.fault.cause()));
        self.say_words(b", ", line.fault);
        self.say_words(b", at key ", line.key);
        self.text.push_text(b", byte ");
        self.text.push_number(line.fault.at() as u64);
    }

    // A text and the words of a value.
    fn say_words<T: Words>(&mut self, text: &[u8], value: T)
        ensures { Says self.old (text.now ∷ T.words value ∷ []) self.new }
    {
        self.text.push_text(text);
        self.text.push_text(value.words());
    }

    // A text and the digits of a number.
    fn say_number(&mut self, text: &[u8], number: u32)
        ensures { Says self.old (numbered text.now number) self.new }
    {
        self.text.push_text(text);
        self.text.push_number(u64::from(number));
    }
}
