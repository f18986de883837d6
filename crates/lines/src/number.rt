ghost use Rattle.std.specs.Prelude.{◌≡◌, ◌<◌, ◌≤◌, length, IfOk};
ghost use Rattle.std.specs.Char.{is_ascii_digit};
ghost use Rattle.std.specs.List.{prefix_len, AllPass};
ghost use Rattle.lines.specs.Numbers.{number_of, numeral_at, number_cause};

/// What can be wrong with a number, each case with its number.
#[derive(Clone, Copy, Debug, PartialEq, Eq)]
pub enum NumberCause {
    /// There is no digit, or a zero stands before another digit.
    NoNumber = 2,
    /// The number is beyond its field.
    Beyond = 3,
}

impl From<NumberCause> for u8 {
    ghost from_gives = { λ cause number. number ≡ number_cause cause };

    fn from(cause: NumberCause) -> u8 {
        cause as u8
    }
}

/// What is wrong with a number, and the byte of the line at which it begins.
#[derive(Clone, Copy, Debug, PartialEq, Eq)]
pub struct NumberFault {
    pub cause: NumberCause,
    pub at: usize,
}

/// A number that stands in a line, and the place after its last digit.
#[derive(Clone, Copy, Debug, PartialEq, Eq)]
pub struct Numeral {
    pub value: u32,
    pub end: usize,
}

// How many digits stand in front.
fn digits_len(rest: &[u8]) -> usize
    ensures { result ≡ prefix_len is_ascii_digit rest.now }
{
    rest.iter().take_while(|byte| byte.is_ascii_digit()).count()
}

// The number that the digits write, which may be `most` at most.
fn number_of(digits: &[u8], most: u32) -> Result<u32, NumberCause>
    requires { AllPass is_ascii_digit digits.now }
    ensures { result ≡ number_of most digits.now }
{
    if let [] | [b'0', _, ..] = digits {
        return Err(NumberCause::NoNumber);
    }
    let mut value: u64 = 0;
    for digit in digits {
        value = value * 10 + u64::from(*digit - b'0');
        if value > u64::from(most) {
            return Err(NumberCause::Beyond);
        }
    }
    Ok(value as u32)
}

/// The number at the byte `from` of a line, which may be `most` at most.
pub fn numeral_at(line: &[u8], from: usize, most: u32) -> Result<Numeral, NumberFault>
    ensures value { result ≡ numeral_at most from line.now }
    ensures within { IfOk result (λ n. (n.value ≤ most) × (from < n.end) × (n.end ≤ length line.now)) }
{
    let rest = &line[from.min(line.len())..];
    let digits = &rest[..digits_len(rest)];
    let end = from + digits.len();
    number_of(digits, most)
        .map_err(|cause| NumberFault { cause, at: from })
        .map(|value| Numeral { value, end })
}
