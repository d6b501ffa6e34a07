//! The words of a line, taken one by one.

ghost use Rattle.std.specs.Prelude.{◌≡◌, ◌+◌, ◌<◌, ◌≤◌, ◌↔◌, ◌++◌, ◌∷◌, [], ℕ, List, IsTrue, IfOk, MatchOption, option_copied};
ghost use Rattle.rp_text.specs.Words.{first_word, rest_of_words, left};

use crate::fault::LineFault;
use crate::hexadecimal::read_bytes;
use cos_base::{NoMemory, Numbers, Octets};
use cos_text::{read_decimal, read_hexadecimal};
use std::alloc::Global;
use std::marker::Model;

/// What stands before the first blank, and the rest.
pub fn cut_word(text: &[u8]) -> (&[u8], &[u8])
    ensures front { result.0.now ≡ first_word text.now }
    ensures back { result.1.now ≡ rest_of_words text.now }
{
    for i in 0..text.len() {
        if text[i] == b' ' {
            return (&text[..i], &text[i..]);
        }
    }
    (text, &[])
}

/// What stands behind a blank, where one is first.
fn after_blank(text: &[u8]) -> Option<&[u8]>
    ensures { MatchOption (option_copied result) ((more : List ℕ) → text.now ≡ 32 ∷ more → ⊥) (λ after. text.now ≡ 32 ∷ after) }
{
    match text {
        [b' ', after @ ..] => Some(after),
        _ => None,
    }
}

/// What is left of a line, from a blank on. After a word that wasn't what was asked for nothing is left, and each further word
/// is refused too. Contracts see the bytes that are left, or none after a refusal.
#[derive(Drop)]
pub struct Words<'a> {
    rest: Option<&'a [u8]>,
}

impl<'a> Model for Words<'a> {
    ghost use Rattle.std.specs.Prelude.{ℕ, List, Option, option_copied};

    ghost Value = { Option (List ℕ) };

    ghost view = { λ w. option_copied w.rest };
}

impl<'a> Words<'a> {
    ghost use Rattle.std.specs.Prelude.{◌^◌};
    ghost use Rattle.rp_text.specs.Reading.{TakesWord, TakesNumber, TakesHex, TakesBytes, TakesCaps};

    /// The words of this text.
    pub fn of(text: &'a [u8]) -> Words<'a>
        ensures { result ≡ Some text.entry.now }
    {
        Words { rest: Some(text) }
    }

    /// Whether there are more words.
    pub fn has_more(&self) -> bool
        ensures { IsTrue result ↔ (0 < left self.now) }
    {
        match self.rest {
            Some(rest) => !rest.is_empty(),
            None => false,
        }
    }

    /// Whether all words were taken, and none was refused.
    pub fn is_end(&self) -> bool
        ensures { IsTrue result ↔ (self.now ≡ Some []) }
    {
        match self.rest {
            Some(rest) => rest.is_empty(),
            None => false,
        }
    }

    /// Takes a word.
    fn take(&mut self) -> Option<&'a [u8]>
        ensures { TakesWord self.old (option_copied result) self.new }
    {
        let rest = self.rest?;
        match after_blank(rest) {
            Some(after) => {
                let (word, rest) = cut_word(after);
                self.rest = Some(rest);
                Some(word)
            }
            None => {
                self.rest = None;
                None
            }
        }
    }

    /// Takes a number of at most this size, or refuses the word.
    pub fn read_decimal(&mut self, most: u64) -> u64
        ensures { TakesNumber most self.old self.new result }
    {
        let Some(word) = self.take() else {
            return 0;
        };
        match read_decimal(word, most) {
            Some(number) => number,
            None => {
                self.rest = None;
                0
            }
        }
    }

    /// Takes a number in hexadecimal, or refuses the word.
    pub fn read_hexadecimal(&mut self) -> u64
        ensures { TakesHex self.old self.new result }
    {
        let Some(word) = self.take() else {
            return 0;
        };
        match read_hexadecimal(word) {
            Some(number) => number,
            None => {
                self.rest = None;
                0
            }
        }
    }

    /// Takes a number of one byte.
    pub fn read_u8(&mut self) -> u8
        ensures { TakesNumber 255 self.old self.new result }
    {
        self.read_decimal(255) as u8
    }

    /// Takes a number of two bytes.
    pub fn read_u16(&mut self) -> u16
        ensures { TakesNumber 65535 self.old self.new result }
    {
        self.read_decimal(65535) as u16
    }

    /// Takes a number of four bytes.
    pub fn read_u32(&mut self) -> u32
        ensures { TakesNumber 4294967295 self.old self.new result }
    {
        self.read_decimal(0xffff_ffff) as u32
    }

    /// Takes bytes, or refuses the word.
    pub fn bytes(&mut self, alloc: Global) -> Result<Octets, NoMemory>
        ensures { IfOk result (λ o. TakesBytes self.old self.new o.bytes) }
    {
        let Some(word) = self.take() else {
            return Ok(Octets::make(alloc));
        };
        match read_bytes(alloc, word) {
            Ok(bytes) => Ok(bytes),
            Err(LineFault::Line) => {
                self.rest = None;
                Ok(Octets::make(alloc))
            }
            Err(LineFault::NoMemory) => Err(NoMemory),
        }
    }

    /// Takes all words that are left as numbers of four bytes.
    pub fn read_capabilities(&mut self, alloc: Global) -> Result<Numbers, NoMemory>
        ensures { IfOk result (λ caps. TakesCaps self.old self.new caps) }
    {
        let mut caps = Numbers::make(alloc);
        'words: while self.has_more() {
            let cap = self.read_u32();
            caps.push(cap)?;
        }
        Ok(caps)
    }
}
