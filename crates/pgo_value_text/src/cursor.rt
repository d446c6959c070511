// A cursor over the bytes of a text.
ghost use Rattle.std.specs.Prelude.{◌≡◌, ◌≤◌, length, false, []};
ghost use Rattle.std.specs.List.{prefix_len};
ghost use Rattle.pgo_model.specs.ValueText as text;
ghost use Rattle.pgo_value_text.specs.IsValueText as words;
ghost use Rattle.pgo_value_text.specs.Reading as spec;
ghost use Rattle.pgo_value_text.specs.Parsers.{Reads};

use crate::stop::Stop;
use crate::words::is_blank;
use pgo_base::text::Text;
use pgo_text::bytes::is_word_byte;
use std::alloc::Global;
use std::marker::Model;

/// The bytes that are still to be read.
#[derive(Drop)]
pub struct Cursor<'a> {
    rest: &'a [u8],
}

impl<'a> Model for Cursor<'a> {
    ghost use Rattle.std.specs.Prelude.{List, ℕ};

    ghost Value = { List ℕ };

    ghost view = { λ c. c.rest.now };
}

/// How many word bytes stand at the front.
fn word_length(bytes: &[u8]) -> usize
    ensures value { result ≡ prefix_len text.is_word_byte bytes.now }
    ensures within { result ≤ length bytes.now }
{
    bytes.iter().take_while(|b| is_word_byte(**b)).count()
}

/// How many blanks stand at the front.
fn blank_length(bytes: &[u8]) -> usize
    ensures value { result ≡ prefix_len words.is_blank bytes.now }
    ensures within { result ≤ length bytes.now }
{
    bytes.iter().take_while(|b| is_blank(**b)).count()
}

impl<'a> Cursor<'a> {
    pub fn new(text: &'a [u8]) -> Cursor<'a>
        ensures { result ≡ text.now }
    {
        Cursor { rest: text }
    }

    /// How many bytes are left.
    pub fn left(&self) -> usize
        ensures { result ≡ length self.now }
    {
        self.rest.len()
    }

    /// Whether these bytes are next.
    pub fn begins(&self, wanted: &[u8]) -> bool
        ensures { result ≡ spec.begins wanted.now self.now }
    {
        self.rest.starts_with(wanted)
    }

    /// These bytes.
    pub fn expect(&mut self, wanted: &[u8]) -> Result<(), Stop>
        ensures { Reads (spec.expect wanted.now self.old) result self.new }
    {
        match self.rest.strip_prefix(wanted) {
            Some(rest) => {
                self.rest = rest;
                Ok(())
            }
            None => Err(Stop::Bad {
                left: self.rest.len(),
            }),
        }
    }

    /// Blanks, or none.
    pub fn skip_blanks(&mut self)
        ensures { self.new ≡ spec.behind words.is_blank self.old }
    {
        self.rest = &self.rest[blank_length(self.rest)..];
    }

    /// Whether these bytes are next behind blanks.
    pub fn is_before(&self, wanted: &[u8]) -> bool
        ensures { result ≡ spec.is_before wanted.now self.now }
    {
        let rest = &self.rest[blank_length(self.rest)..];
        Cursor::new(rest).begins(wanted)
    }

    /// The longest run of letters, digits and `_`.
    pub fn word(&mut self) -> &'a [u8]
        ensures word { result.now ≡ spec.front text.is_word_byte self.old }
        ensures rest { self.new ≡ spec.behind text.is_word_byte self.old }
    {
        let length = word_length(self.rest);
        let word = &self.rest[..length];
        self.rest = &self.rest[length..];
        word
    }

    /// The bytes of a string behind its opening quote.
    #[tactic(auto, unfolding(crate::specs::Reading::string_from))]
    pub fn string(&mut self, alloc: Global) -> Result<Text, Stop>
        ensures { Reads (spec.string_from false [] self.old) result self.new }
    {
        let bytes = self.rest;
        let mut string = Vec::new(alloc);
        let mut escaping = false;
        for (i, b) in bytes.iter().enumerate() {
            if escaping {
                match unescaped(*b) {
                    Some(c) => {
                        string.push(c)?;
                        escaping = false;
                        continue;
                    }
                    None => {
                        return Err(Stop::Bad {
                            left: bytes.len() - i,
                        })
                    }
                }
            }
            if *b == b'"' {
                let string = Text::from_bytes(string)?;
                self.rest = &bytes[i + 1..];
                return Ok(string);
            }
            if *b == b'\\' {
                escaping = true;
                continue;
            }
            if !is_printable(*b) {
                return Err(Stop::Bad {
                    left: bytes.len() - i,
                });
            }
            string.push(*b)?;
        }
        Err(Stop::Bad { left: 0 })
    }
}

/// The byte that one behind a `\` stands for.
fn unescaped(b: u8) -> Option<u8>
    ensures { result ≡ spec.unescaped b }
{
    match b {
        b'"' => Some(b'"'),
        b'\\' => Some(b'\\'),
        b'n' => Some(b'\n'),
        b't' => Some(b'\t'),
        _ => None,
    }
}

fn is_printable(b: u8) -> bool
    ensures { result ≡ spec.is_printable b }
{
    b' ' <= b && b <= b'~'
}
