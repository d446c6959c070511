// A cursor over the bytes of a text.
ghost use Rattle.std.specs.Prelude.{◌≡◌, ◌≤◌, length};
ghost use Rattle.std.specs.List.{prefix_len};
ghost use Rattle.pgo_model.specs.Machine.{is_empty};
ghost use Rattle.pgo_model.specs.ValueText as text;
ghost use Rattle.pgo_log_text.specs.Bytes as spec;
ghost use Rattle.pgo_log_text.specs.Parsers.{Reads, ReadsAs};

use crate::errors::LineStop;
use crate::numbers::natural_of;
use crate::value::value_length;
use pgo_base::text::Text;
use pgo_lexer::bytes::word_length;
use pgo_text::bytes::is_digit;
use pgo_text::names::is_name;
use std::alloc::Global;
use std::marker::Model;

/// The bytes that are still to be read.
#[derive(Drop)]
pub struct Cursor<'a> {
    rest: &'a [u8],
}

impl<'a> Model for Cursor<'a> {
    ghost use Rattle.std.specs.Prelude.{List, ℕ};

    ghost Value = { List ℕ };

    ghost view = { λ c. c.rest.now };
}

/// How many digits stand at the front.
fn digits_length(bytes: &[u8]) -> usize
    ensures value { result ≡ prefix_len text.is_digit bytes.now }
    ensures within { result ≤ length bytes.now }
{
    bytes.iter().take_while(|b| is_digit(**b)).count()
}

impl<'a> Cursor<'a> {
    pub fn new(text: &'a [u8]) -> Cursor<'a>
        ensures { result ≡ text.now }
    {
        Cursor { rest: text }
    }

    /// How many bytes are still to be read.
    pub fn left(&self) -> usize
        ensures { result ≡ length self.now }
    {
        self.rest.len()
    }

    /// Whether these bytes are next.
    pub fn begins(&self, wanted: &[u8]) -> bool
        ensures { result ≡ spec.begins wanted.now self.now }
    {
        self.rest.starts_with(wanted)
    }

    /// Whether all is read.
    pub fn is_at_end(&self) -> bool
        ensures { result ≡ is_empty self.now }
    {
        match self.rest {
            [] => true,
            [_, ..] => false,
        }
    }

    /// These bytes.
    pub fn expect(&mut self, wanted: &[u8]) -> Result<(), LineStop>
        ensures { Reads (spec.expect wanted.now self.old) result self.new }
    {
        match self.rest.strip_prefix(wanted) {
            Some(rest) => {
                self.rest = rest;
                Ok(())
            }
            None => Err(LineStop::BadLine),
        }
    }

    /// The next bytes, so many. Where they are too few, all is read.
    pub fn take(&mut self, count: u32) -> Result<&'a [u8], LineStop>
        ensures { ReadsAs (λ s. s.now) (spec.taken count self.old) result self.new }
    {
        let count = count as usize;
        if count > self.rest.len() {
            self.rest = &self.rest[self.rest.len()..];
            return Err(LineStop::BadLine);
        }
        let taken = &self.rest[..count];
        self.rest = &self.rest[count..];
        Ok(taken)
    }

    /// The bytes up to the end of a value.
    pub fn value_part(&mut self) -> &'a [u8]
        ensures front { result.now ≡ spec.value_front self.old }
        ensures behind { self.new ≡ spec.value_behind self.old }
    {
        let length = value_length(self.rest);
        let part = &self.rest[..length];
        self.rest = &self.rest[length..];
        part
    }

    /// A number of 64 bits.
    #[tactic(auto, unfolding(crate::specs::Bytes::natural))]
    fn natural(&mut self) -> Result<u64, LineStop>
        ensures { Reads (spec.natural self.old) result self.new }
    {
        let length = digits_length(self.rest);
        let digits = &self.rest[..length];
        self.rest = &self.rest[length..];
        match natural_of(digits) {
            Some(n) => Ok(n),
            None => Err(LineStop::BadLine),
        }
    }

    /// A number below 2^32.
    #[tactic(auto, unfolding(crate::specs::Bytes::number))]
    pub fn number(&mut self) -> Result<u32, LineStop>
        ensures { Reads (spec.number self.old) result self.new }
    {
        match u32::try_from(self.natural()?) {
            Ok(n) => Ok(n),
            Err(_) => Err(LineStop::BadLine),
        }
    }

    /// A label or a variable.
    #[tactic(auto, unfolding(crate::specs::Bytes::name))]
    pub fn name(&mut self, alloc: Global) -> Result<Text, LineStop>
        ensures { Reads (spec.name self.old) result self.new }
    {
        let length = word_length(self.rest);
        let word = &self.rest[..length];
        self.rest = &self.rest[length..];
        if is_name(word) {
            Ok(Text::from_slice(alloc, word)?)
        } else {
            Err(LineStop::BadLine)
        }
    }
}
