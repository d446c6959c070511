// The lines of a text, and how a line is put together from its pieces.
ghost use Rattle.std.specs.Prelude.{◌≡◌, ◌∷◌, ◌++◌, [], decimal, IfOk};
ghost use Rattle.pgo_model.specs.ModuleText.{line};
ghost use Rattle.pgo_lines.specs.Pieces.{piece_text, pieces_text};

use itoa::Buffer;
use pgo_base::text::Text;
use std::alloc::{AllocError, Global};
use std::marker::Model;

/// A part of a line.
#[derive(Clone, Copy)]
pub enum Piece<'a> {
    Bytes(&'a [u8]),
    Name(&'a Text),
    Number(u64),
}

/// One line, with the newline at its end once it is whole.
#[derive(Drop)]
pub struct Line {
    bytes: Vec<u8>,
}

impl Model for Line {
    ghost use Rattle.std.specs.Prelude.{List, ℕ};

    ghost Value = { List ℕ };

    ghost view = { λ l. l.bytes.items };
}

/// The lines of a text, in order.
#[derive(Drop)]
pub struct Lines {
    list: Vec<Line>,
}

impl Model for Lines {
    ghost use Rattle.std.specs.Prelude.{List, ℕ};

    ghost Value = { List (List ℕ) };

    ghost view = { λ ls. ls.list.items };
}

/// Adds a number in decimal digits.
fn push_number(bytes: &mut Vec<u8>, number: u64) -> Result<(), AllocError>
    ensures { IfOk result (λ _. bytes.new.items ≡ bytes.old.items ++ decimal number) }
{
    let mut buffer = Buffer::new();
    bytes.extend_from_slice(buffer.format(number).as_bytes())
}

/// Adds a piece.
fn push_piece(bytes: &mut Vec<u8>, piece: Piece) -> Result<(), AllocError>
    ensures { IfOk result (λ _. bytes.new.items ≡ bytes.old.items ++ piece_text piece.entry) }
{
    match piece {
        Piece::Bytes(text) => bytes.extend_from_slice(text),
        Piece::Name(text) => bytes.extend_from_slice(text.as_bytes()),
        Piece::Number(number) => push_number(bytes, number),
    }
}

impl Line {
    /// The pieces one behind the other.
    pub fn of(alloc: Global, pieces: &[Piece]) -> Result<Line, AllocError>
        ensures { IfOk result (λ l. l ≡ pieces_text pieces.now) }
    {
        let mut bytes = Vec::new(alloc);
        for piece in pieces {
            push_piece(&mut bytes, *piece)?;
        }
        Ok(Line { bytes })
    }

    /// Its bytes.
    pub fn as_bytes(&self) -> &[u8]
        ensures { result.now ≡ self.now }
    {
        self.bytes.as_slice()
    }
}

impl Lines {
    /// No line.
    pub fn new(alloc: Global) -> Lines
        ensures { result ≡ [] }
    {
        Lines {
            list: Vec::new(alloc),
        }
    }

    /// One line more, of these pieces and a newline.
    pub fn push(&mut self, alloc: Global, pieces: &[Piece]) -> Result<(), AllocError>
        ensures { IfOk result (λ _. self.new ≡ self.old ++ line (pieces_text pieces.now) ∷ []) }
    {
        let mut whole = Line::of(alloc, pieces)?;
        whole.bytes.push(b'\n')?;
        self.list.push(whole)?;
        Ok(())
    }

    /// The lines as a slice.
    pub fn as_slice(&self) -> &[Line]
        ensures { result.now ≡ self.now }
    {
        self.list.as_slice()
    }
}
