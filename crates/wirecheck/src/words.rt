// What a technician reads: kinds, services, causes, keys and faults in words.
ghost use Rattle.std.specs.Prelude.{◌≡◌, ℕ, List};
ghost use Rattle.wirecheck.specs.Words.{kind_words, service_words, cause_words, fault_words, key_words};

use answers::Cause;
use lines::{Fault, NumberCause};
use messages::{Key, Kind, Service};

/// What is told in words of its own.
pub trait Words {
    ghost words: { Self → List ℕ };

    /// Its words.
    fn words(self) -> &'static [u8]
        ensures { result.now ≡ words self };
}

impl Words for Kind {
    ghost words = { kind_words };

    fn words(self) -> &'static [u8] {
        match self {
            Kind::Request => b"request",
            Kind::Suspend => b"suspend",
            Kind::Resume => b"resume",
            Kind::Call => b"call",
            Kind::Cancel => b"cancel",
            Kind::Result => b"result",
            Kind::Error => b"error",
            Kind::RemoteUserFree => b"remote user free",
            Kind::CallDone => b"call done",
            Kind::CallBusy => b"call found busy",
        }
    }
}

impl Words for Service {
    ghost words = { service_words };

    fn words(self) -> &'static [u8] {
        match self {
            Service::NotGiven => b"no service given",
            Service::Audio => b"3.1 kHz audio",
            Service::Speech => b"speech",
            Service::Digital => b"64 kbit/s",
        }
    }
}

impl Words for Cause {
    ghost words = { cause_words };

    fn words(self) -> &'static [u8] {
        match self {
            Cause::NotGiven => b"none given",
            Cause::T3Over => b"T3 over",
            Cause::T4Over => b"T4 over",
            Cause::T7Over => b"T7 over",
            Cause::T9Over => b"T9 over",
            Cause::Withdrawn => b"withdrawn",
            Cause::ShortTermDenial => b"short-term denial",
            Cause::LongTermDenial => b"long-term denial",
            Cause::Completed => b"completed",
            Cause::BusyAgain => b"busy again",
            Cause::CallReturned => b"call returned",
            Cause::MessageReturned => b"message returned",
        }
    }
}

impl Words for Fault {
    ghost words = { fault_words };

    fn words(self) -> &'static [u8] {
        match self {
            Fault::Text { .. } => b"wrong key, letter or separator",
            Fault::Number(number) => match number.cause {
                NumberCause::NoNumber => b"no digit, or a leading zero",
                NumberCause::Beyond => b"number beyond its field",
            },
            Fault::End { .. } => b"line end missing, or not last",
        }
    }
}

impl Words for Key {
    ghost words = { key_words };

    fn words(self) -> &'static [u8] {
        match self {
            Key::Kind => b"kind",
            Key::Tn => b"tn",
            Key::A => b"a",
            Key::B => b"b",
            Key::Sv => b"sv",
            Key::Rt => b"rt",
            Key::Cs => b"cs",
        }
    }
}
