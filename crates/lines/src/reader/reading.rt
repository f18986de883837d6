ghost use Rattle.std.specs.Prelude.{◌≡◌, ◌≤◌, length, IfOk};
ghost use Rattle.lines.specs.Readings.{agree, text_at, letter_at, number_at, field_at, end_at, line_in, Passed, Handed};
ghost use Rattle.lines.specs.Results.{on_ok};
ghost use Rattle.lines.specs.Tokens.{seen, value_in};

use crate::fault::{Fault, Keyed, LineFault, Under};
use crate::number::{Numeral, numeral_at};
use crate::reader::Reader;
use crate::token::Token;
use std::slice;

// How many bytes of the text stand in front of the rest.
fn agreeing(text: &[u8], rest: &[u8]) -> usize
    ensures value { result ≡ agree text.now rest.now }
    ensures within { (result ≤ length text.now) × (result ≤ length rest.now) }
{
    text.iter().zip(rest).take_while(|(c, b)| c == b).count()
}

impl<'a> Reader<'a> {
    /// A reader at the start of the line.
    pub fn new(line: &'a [u8]) -> Reader<'a>
        ensures place { result.at ≡ 0 }
        ensures line { line_in result ≡ line.now }
    {
        Reader { line, at: 0 }
    }

    /// Passes the text that belongs here, a separator and a key with its `=`.
    #[tactic(auto, using(std::proofs::lemmas::List::take_rest), unfolding(crate::specs::Readings::text_at))]
    pub fn text<K: Drop>(&mut self, key: K, text: &[u8]) -> Result<(), LineFault<K>>
        ensures { Passed (text_at key text.now) self.old result self.new }
    {
        let same = agreeing(text, &self.line[self.at..]);
        if same < text.len() {
            return Err(Keyed {
                key,
                fault: Fault::Text { at: self.at + same },
            });
        }
        self.at += same;
        Ok(())
    }

    /// Hands out the byte that stands here, whatever it is.
    #[tactic(auto, unfolding(crate::specs::Readings::letter_at))]
    pub fn letter<K: Drop>(&mut self, key: K) -> Result<Token<'a>, LineFault<K>>
        ensures { Handed (letter_at key) self.old (on_ok seen result) self.new }
    {
        let at = self.at;
        let fault = Fault::Text { at };
        let letter = self.line.get(at).ok_or(Keyed { key, fault })?;
        self.at += 1;
        Ok(Token::Word {
            text: slice::from_ref(letter),
            at,
        })
    }

    /// Hands out the number that stands here, which may be `most` at most.
    #[tactic(auto, unfolding(crate::specs::Readings::number_at))]
    pub fn number<K: Drop>(&mut self, key: K, most: u32) -> Result<Token<'a>, LineFault<K>>
        ensures value { Handed (number_at key most) self.old (on_ok seen result) self.new }
        ensures within { IfOk result (λ token. value_in (seen token) ≤ most) }
    {
        let at = self.at;
        let Numeral { value, end } = numeral_at(self.line, at, most).under(key)?;
        self.at = end;
        Ok(Token::Number {
            digits: &self.line[at..end],
            value,
            at,
        })
    }

    /// Passes the text and hands out the number after it: a field with its separator.
    #[tactic(auto, unfolding(crate::specs::Readings::field_at))]
    pub fn field<K: Copy>(
        &mut self,
        key: K,
        text: &[u8],
        most: u32,
    ) -> Result<Token<'a>, LineFault<K>>
        ensures value { Handed (field_at key text.now most) self.old (on_ok seen result) self.new }
        ensures within { IfOk result (λ token. value_in (seen token) ≤ most) }
    {
        let mut ahead = *self;
        ahead.text(key, text)?;
        let token = ahead.number(key, most)?;
        *self = ahead;
        Ok(token)
    }

    /// Finds the newline here, and nothing after it.
    #[tactic(auto, unfolding(crate::specs::Readings::end_at))]
    pub fn end<K: Drop>(&self, key: K) -> Result<(), LineFault<K>>
        ensures { result ≡ end_at key self.now.at (line_in self.now) }
    {
        let at = match &self.line[self.at..] {
            [b'\n'] => return Ok(()),
            [b'\n', ..] => self.at + 1,
            _ => self.at,
        };
        Err(Keyed {
            key,
            fault: Fault::End { at },
        })
    }
}
