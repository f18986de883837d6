ghost use Rattle.std.specs.Prelude.{◌≡◌};
ghost use Rattle.messages.specs.Wire.{key_text, key_most};

/// The keys of a wire line, in their order.
#[derive(Clone, Copy, Debug, PartialEq, Eq)]
pub enum Key {
    Kind,
    Tn,
    A,
    B,
    Sv,
    Rt,
    Cs,
}

impl Key {
    /// The separator, the key and its `=`, as they stand in the line.
    pub fn text(self) -> &'static [u8]
        ensures { result.now ≡ key_text self }
    {
        match self {
            Key::Kind => b"kind=",
            Key::Tn => b" tn=",
            Key::A => b" a=",
            Key::B => b" b=",
            Key::Sv => b" sv=",
            Key::Rt => b" rt=",
            Key::Cs => b" cs=",
        }
    }

    /// The largest number that a line can say under it.
    pub fn most(self) -> u32
        ensures { result ≡ key_most self }
    {
        match self {
            Key::Kind => 0,
            Key::Tn => u32::MAX,
            Key::A | Key::B => 99,
            Key::Sv | Key::Rt | Key::Cs => 9,
        }
    }
}
