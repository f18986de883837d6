ghost use Rattle.std.specs.Prelude.{◌≡◌, [], ◌∷◌, decimal, Some};
ghost use Rattle.std.specs.Fmt.{debug_list};
ghost use Rattle.drafts.specs.Drafts.{written, added};

use crate::draft::Draft;
use std::fmt;

// The digits of the number, after those of its tenth.
fn digits_of(n: u64) -> Draft<20>
    ensures { written result ≡ decimal n }
{
    let mut digits = if n < 10 {
        Draft::new()
    } else {
        digits_of(n / 10)
    };
    digits.push(b'0' + (n % 10) as u8);
    digits
}

impl<const N: usize> Draft<N> {
    /// A line with nothing in it yet.
    pub fn new() -> Draft<N>
        ensures { written result ≡ [] }
    {
        Draft {
            bytes: [0; N],
            len: 0,
        }
    }

    /// What has been written.
    pub fn as_bytes(&self) -> &[u8]
        ensures { result.now ≡ written self.now }
    {
        &self.bytes[..self.len]
    }

    /// Adds a text; one that does not fit is left out.
    #[tactic(auto, using(std::proofs::lemmas::Slice::overwrites, crate::proofs::Added::length_written), unfolding(crate::specs::Drafts::added))]
    pub fn push_text(&mut self, text: &[u8])
        ensures { written self.new ≡ added N (written self.old) text.now }
    {
        if text.len() <= N - self.len {
            let end = self.len + text.len();
            let bytes = &mut self.bytes[..];
            bytes[self.len..end].copy_from_slice(text);
            self.len = end;
        }
    }

    /// Adds a byte; one that does not fit is left out.
    #[tactic(auto, using(crate::proofs::Added::length_written), unfolding(crate::specs::Drafts::added))]
    pub fn push(&mut self, byte: u8)
        ensures { written self.new ≡ added N (written self.old) (byte ∷ []) }
    {
        if self.len < N {
            self.bytes[self.len] = byte;
            self.len += 1;
        }
    }

    /// Adds the digits of a number; one that does not fit is left out whole.
    pub fn push_number(&mut self, n: u64)
        ensures { written self.new ≡ added N (written self.old) (decimal n) }
    {
        self.push_text(digits_of(n).as_bytes());
    }
}

/// The bytes that have been written, in a list; those past them are never shown.
impl<const N: usize> fmt::Debug for Draft<N> {
    ghost debug_output = { λ draft. debug_list (λ byte. Some (decimal byte)) (written draft) };

    fn fmt<W: fmt::Write>(&self, f: &mut fmt::Formatter<W>) -> fmt::Result {
        fmt::Debug::fmt(&self.as_bytes(), f)
    }
}
