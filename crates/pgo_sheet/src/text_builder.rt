// Texts that the lines of a sheet build.
//
// `then T` adds T to the text that was begun, `| T` adds T and a newline, `bytes 01 ff` adds bytes, `repeat N T` adds T so often, and
// `number N T` adds T so often with its number, from 0, in the place of @. `keep NAME` keeps the text under a name and begins anew, and
// `add NAME` adds it. `within A B` has each text stand between two kept ones from there on.
use crate::sheet::halves;
use std::alloc::{AllocError, Global};
use std::mem;

/// A text under a name.
#[derive(Drop)]
struct Piece {
    name: String,
    text: Vec<u8>,
}

#[derive(Drop)]
pub struct TextBuilder {
    alloc: Global,
    pieces: Vec<Piece>,
    /// what stands before the text, and what behind it
    pub before: Vec<u8>,
    behind: Vec<u8>,
    /// the text alone
    pub text: Vec<u8>,
}

impl TextBuilder {
    pub fn new(alloc: Global) -> TextBuilder {
        TextBuilder {
            alloc,
            pieces: Vec::new(alloc),
            before: Vec::new(alloc),
            behind: Vec::new(alloc),
            text: Vec::new(alloc),
        }
    }

    /// This text in the place of what was there.
    pub fn begin(&mut self, text: &str) -> Result<bool, AllocError> {
        self.text.clear();
        self.add(text)
    }

    /// Takes a line of this key; false: it doesn't build a text.
    pub fn take(&mut self, key: &str, line: &str) -> Result<bool, AllocError> {
        let (first, second) = halves(line);
        match key {
            "then" => self.add(line),
            "|" => Ok(self.add(line)? && self.add("\n")?),
            "bytes" => self.add_bytes(line),
            "repeat" => self.repeat(first, second),
            "number" => self.number(first, second),
            _ => self.take_piece(key, line),
        }
    }

    /// Takes a line about kept texts.
    fn take_piece(&mut self, key: &str, line: &str) -> Result<bool, AllocError> {
        let (first, second) = halves(line);
        match key {
            "keep" => self.keep(line),
            "add" => self.add_piece(line),
            "within" => self.stand_within(first, second),
            _ => Ok(false),
        }
    }

    /// The text with what stands around it.
    pub fn whole(&self) -> Result<Vec<u8>, AllocError> {
        [
            self.before.as_slice(),
            self.text.as_slice(),
            self.behind.as_slice(),
        ]
        .concat(self.alloc)
    }

    fn add(&mut self, piece: &str) -> Result<bool, AllocError> {
        self.text.extend_from_slice(piece.as_bytes())?;
        Ok(true)
    }

    /// Adds the bytes of these numbers to the base 16.
    fn add_bytes(&mut self, numbers: &str) -> Result<bool, AllocError> {
        for number in numbers.split_whitespace() {
            match u8::from_str_radix(number, 16) {
                Ok(byte) => self.text.push(byte)?,
                Err(_) => return Ok(false),
            }
        }
        Ok(true)
    }

    fn repeat(&mut self, times: &str, piece: &str) -> Result<bool, AllocError> {
        match times.parse::<u32>() {
            Ok(times) => {
                let pieces = piece.repeat(self.alloc, times as usize)?;
                self.add(pieces.as_str())
            }
            Err(_) => Ok(false),
        }
    }

    fn number(&mut self, times: &str, piece: &str) -> Result<bool, AllocError> {
        let Ok(times) = times.parse::<u32>() else {
            return Ok(false);
        };
        for number in 0..times {
            let number = number.to_string(self.alloc)?;
            let numbered = piece.replace(self.alloc, "@", number.as_str())?;
            self.add(numbered.as_str())?;
        }
        Ok(true)
    }

    fn keep(&mut self, name: &str) -> Result<bool, AllocError> {
        let name = String::from_str(self.alloc, name)?;
        let text = mem::replace(&mut self.text, Vec::new(self.alloc));
        self.pieces.push(Piece { name, text })?;
        Ok(true)
    }

    fn add_piece(&mut self, name: &str) -> Result<bool, AllocError> {
        match self.piece(name)? {
            Some(piece) => {
                self.text.extend_from_slice(piece.as_slice())?;
                Ok(true)
            }
            None => Ok(false),
        }
    }

    /// Without names each text stands alone.
    fn stand_within(&mut self, before: &str, behind: &str) -> Result<bool, AllocError> {
        match (self.piece(before)?, self.piece(behind)?) {
            (Some(before), Some(behind)) => {
                self.before = before;
                self.behind = behind;
                Ok(true)
            }
            _ => Ok(false),
        }
    }

    /// The text that is kept under this name; no bytes are kept under no name.
    fn piece(&self, name: &str) -> Result<Option<Vec<u8>>, AllocError> {
        if name.is_empty() {
            return Ok(Some(Vec::new(self.alloc)));
        }
        for piece in &self.pieces {
            if piece.name.as_str() == name {
                return Ok(Some(Vec::from_slice(self.alloc, piece.text.as_slice())?));
            }
        }
        Ok(None)
    }
}
