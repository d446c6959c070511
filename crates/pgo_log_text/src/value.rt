// The values of a bundle.
ghost use Rattle.std.specs.Prelude.{◌≡◌, ◌≤◌, ◌<◌, length};
ghost use Rattle.pgo_base.specs.View.{data_of};
ghost use Rattle.pgo_log_text.specs.Bytes as spec;
ghost use Rattle.pgo_log_text.specs.Parsers.{MakesAs, ReadsAs};
ghost use Rattle.pgo_log_text.specs.declared.value.Place.TheVariants.{Outside as outside};

use crate::cursor::Cursor;
use crate::errors::LineStop;
use pgo_base::value::Value;
use pgo_text::names::same_bytes;
use pgo_value_text::errors::ValueStop;
use pgo_value_text::read::read_value;
use pgo_value_text::write::write_value;
use std::alloc::Global;

/// Where a byte of a value's text stands.
#[derive(Clone, Copy)]
pub enum Place {
    /// Outside of strings.
    Outside,
    /// In a string.
    Quoted,
    /// In a string, behind a `\`.
    Escaped,
}

/// Whether a value's text ends before this byte: before a newline, or before a `]` outside of strings that closes none
/// of its brackets.
fn is_end(place: Place, open_brackets: usize, b: u8) -> bool
    ensures { result ≡ spec.is_end place open_brackets b }
{
    match place {
        Place::Outside => b == b'\n' || (b == b']' && open_brackets == 0),
        Place::Quoted => b == b'\n',
        Place::Escaped => b == b'\n',
    }
}

/// Where the next byte stands.
fn place_behind(place: Place, b: u8) -> Place
    ensures { result ≡ spec.place_behind place b }
{
    match place {
        Place::Outside if b == b'"' => Place::Quoted,
        Place::Outside => Place::Outside,
        Place::Quoted if b == b'"' => Place::Outside,
        Place::Quoted if b == b'\\' => Place::Escaped,
        Place::Quoted => Place::Quoted,
        Place::Escaped => Place::Quoted,
    }
}

/// How many brackets are open behind this byte.
fn brackets_behind(place: Place, open_brackets: usize, b: u8) -> usize
    requires { open_brackets < usize.MAX }
    ensures { result ≡ spec.brackets_behind place open_brackets b }
{
    match place {
        Place::Outside if b == b'[' => open_brackets + 1,
        Place::Outside if b == b']' => open_brackets.saturating_sub(1),
        _ => open_brackets,
    }
}

/// How many bytes stand before the end of a value.
#[tactic(auto, unfolding(crate::specs::Bytes::value_length))]
pub fn value_length(bytes: &[u8]) -> usize
    ensures value { result ≡ spec.value_length outside 0 bytes.now }
    ensures within { result ≤ length bytes.now }
{
    let mut place = Place::Outside;
    let mut open_brackets = 0;
    for (i, b) in bytes.iter().enumerate() {
        if is_end(place, open_brackets, *b) {
            return i;
        }
        open_brackets = brackets_behind(place, open_brackets, *b);
        place = place_behind(place, *b);
    }
    bytes.len()
}

/// The value, where this is its canonical text.
fn if_canonical(alloc: Global, value: Value, text: &[u8]) -> Result<Value, LineStop>
    ensures { MakesAs data_of (spec.if_canonical text.now (Some (data_of value))) result }
{
    let Ok(written) = write_value(alloc, &value) else {
        return Err(LineStop::NoMemory);
    };
    if same_bytes(written.as_bytes(), text) {
        Ok(value)
    } else {
        Err(LineStop::BadLine)
    }
}

/// The value of which this is the canonical text.
#[tactic(auto, unfolding(crate::specs::Bytes::canonical))]
fn canonical(alloc: Global, text: &[u8]) -> Result<Value, LineStop>
    ensures { MakesAs data_of (spec.canonical text.now) result }
{
    match read_value(alloc, text) {
        Ok(value) => if_canonical(alloc, value, text),
        Err(ValueStop::Bad { .. }) => Err(LineStop::BadLine),
        Err(ValueStop::NoMemory) => Err(LineStop::NoMemory),
    }
}

impl<'a> Cursor<'a> {
    /// A value in its canonical text.
    #[tactic(auto, unfolding(crate::specs::Bytes::value))]
    pub fn value(&mut self, alloc: Global) -> Result<Value, LineStop>
        ensures { ReadsAs data_of (spec.value self.old) result self.new }
    {
        let text = self.value_part();
        canonical(alloc, text)
    }
}
