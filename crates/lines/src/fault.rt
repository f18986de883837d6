ghost use Rattle.std.specs.Prelude.{◌≡◌, Result};
ghost use Rattle.lines.specs.declared.number.NumberFault.{NumberFault};
ghost use Rattle.lines.specs.Faults.{fault_cause, fault_place, keyed, line_fault};

use crate::number::NumberFault;

/// What is wrong with a line, and where.
#[derive(Clone, Copy, Debug, PartialEq, Eq)]
pub enum Fault {
    /// Another key, letter, word or separator stands at the byte `at`.
    Text { at: usize },
    /// A number is missing, badly written or beyond its field.
    Number(NumberFault),
    /// The line end is missing at the byte `at`, or the byte there comes after it.
    End { at: usize },
}

impl Fault {
    /// The number of its cause, 1 to 4.
    pub fn cause(&self) -> u8
        ensures { result ≡ fault_cause self.now }
    {
        match self {
            Fault::Text { .. } => 1,
            Fault::Number(fault) => fault.cause.into(),
            Fault::End { .. } => 4,
        }
    }

    /// The byte of the line at which it was found.
    pub fn at(&self) -> usize
        ensures { result ≡ fault_place self.now }
    {
        match self {
            Fault::Text { at } | Fault::End { at } => *at,
            Fault::Number(fault) => fault.at,
        }
    }
}

/// A fault with the key of the field that it was found in.
#[derive(Clone, Copy, Debug, PartialEq, Eq)]
pub struct Keyed<K, F> {
    pub key: K,
    pub fault: F,
}

/// A line's fault, with its key.
pub type LineFault<K> = Keyed<K, Fault>;

impl<K: Drop> From<Keyed<K, NumberFault>> for LineFault<K> {
    ghost from_gives = { λ k r. r ≡ line_fault k };

    fn from(keyed: Keyed<K, NumberFault>) -> LineFault<K> {
        Keyed {
            key: keyed.key,
            fault: Fault::Number(keyed.fault),
        }
    }
}

/// Puts the key of its field beside a number's fault.
pub trait Under<T> {
    ghost outcome: { Self → Result T NumberFault };

    /// The same result, with the key beside a fault.
    fn under<K: Drop>(self, key: K) -> Result<T, Keyed<K, NumberFault>>
        ensures { result ≡ keyed key (Self.Under.outcome self) };
}

impl<T> Under<T> for Result<T, NumberFault> {
    ghost outcome = { λ r. r };

    fn under<K: Drop>(self, key: K) -> Result<T, Keyed<K, NumberFault>> {
        self.map_err(|fault| Keyed { key, fault })
    }
}
