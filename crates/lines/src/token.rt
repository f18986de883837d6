ghost use Rattle.std.specs.Prelude.{◌≡◌};
ghost use Rattle.lines.specs.Tokens.{seen, place_in, part_in, value_in, first_in};

/// A part of a line, with the byte at which it begins.
#[derive(Clone, Copy, Debug, PartialEq, Eq)]
pub enum Token<'a> {
    Word {
        text: &'a [u8],
        at: usize,
    },
    Number {
        digits: &'a [u8],
        value: u32,
        at: usize,
    },
}

impl<'a> Token<'a> {
    /// The byte of the line at which it begins.
    pub fn place(self) -> usize
        ensures { result ≡ place_in (seen self.entry) }
    {
        match self {
            Token::Word { at, .. } | Token::Number { at, .. } => at,
        }
    }

    /// The bytes that it fills.
    pub fn part(self) -> &'a [u8]
        ensures { result.now ≡ part_in (seen self.entry) }
    {
        match self {
            Token::Word { text, .. } => text,
            Token::Number { digits, .. } => digits,
        }
    }

    /// Its value; that of a word is 0.
    pub fn number(self) -> u32
        ensures { result ≡ value_in (seen self.entry) }
    {
        match self {
            Token::Word { .. } => 0,
            Token::Number { value, .. } => value,
        }
    }

    /// The first byte that it fills, 0 if there is none.
    pub fn first(self) -> u8
        ensures { result ≡ first_in (seen self.entry) }
    {
        self.part().first().copied().unwrap_or(0)
    }
}
