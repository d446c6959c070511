// What is read from a source up to a limit, and what a sink holds after some writes.
//
// `memory N` takes a source or a sink in memory, the sink with room for N bytes; `standard N` takes those over the standard
// traits, the sink over a slice of N bytes; `failing N` takes those in memory whose call behind N good ones fails, where each
// write takes one byte; `failing_standard N` takes those over the standard traits whose reader or writer takes one byte in each
// call and fails once, behind N good calls. `read N` reads the text up to N bytes, `write T` writes T; a row reads or writes
// once for each of its lines.
use crate::fails_once::{FailingReader, FailingWriter};
use crate::one_byte_sink::OneByteSink;
use pgo_io::mem_sink::MemSink;
use pgo_io::mem_source::MemSource;
use pgo_io::read_all::{ReadStop, read_all};
use pgo_io::sink::Sink;
use pgo_io::source::Source;
use pgo_io::standard::{StdSink, StdSource};
use pgo_io::sure_sink::SureSink;
use pgo_io::sure_source::SureSource;
use pgo_io::write_all::write_all;
use pgo_sheet::answers::{push_word, unless_same};
use pgo_sheet::sheet::Subject;
use pgo_sheet::text_builder::TextBuilder;
use std::alloc::{AllocError, Global};

/// The room of a sink that fails.
const SINK_ROOM: usize = 64;

/// What is read from and written to.
#[derive(Clone, Copy)]
enum Medium {
    Memory,
    Standard,
    Failing,
    FailingStandard,
}

#[derive(Drop)]
pub struct Streams {
    alloc: Global,
    builder: TextBuilder,
    medium: Medium,
    /// The room of a sink, or how many calls succeed before the one that fails.
    size: u32,
    reads: Vec<u64>,
    writes: Vec<String>,
}

impl Streams {
    pub fn new(alloc: Global) -> Streams {
        Streams {
            alloc,
            builder: TextBuilder::new(alloc),
            medium: Medium::Memory,
            size: 0,
            reads: Vec::new(alloc),
            writes: Vec::new(alloc),
        }
    }

    /// Takes a line whose text is a number.
    fn set(&mut self, key: &str, number: u32) -> Result<bool, AllocError> {
        self.medium = match key {
            "memory" => Medium::Memory,
            "standard" => Medium::Standard,
            "failing" => Medium::Failing,
            "failing_standard" => Medium::FailingStandard,
            "read" => {
                self.reads.push(u64::from(number))?;
                return Ok(true);
            }
            _ => return Ok(false),
        };
        self.size = number;
        Ok(true)
    }

    fn add_write(&mut self, text: &str) -> Result<bool, AllocError> {
        self.writes.push(String::from_str(self.alloc, text)?)?;
        Ok(true)
    }

    fn answer(&self) -> Result<String, AllocError> {
        let text = self.builder.text.as_slice();
        match (self.medium, self.writes.is_empty()) {
            (Medium::Memory, true) => {
                self.read_from(&mut SureSource::new(text.to_vec(self.alloc)?))
            }
            (Medium::Standard, true) => self.read_from(&mut StdSource::new(text)),
            (Medium::Failing, true) => self.read_failing(text),
            (Medium::FailingStandard, true) => self.read_failing_standard(text),
            (Medium::Memory, false) => self.write_memory(),
            (Medium::Standard, false) => self.write_standard(),
            (Medium::Failing, false) => self.write_failing(),
            (Medium::FailingStandard, false) => self.write_failing_standard(),
        }
    }

    /// What each read gives.
    fn read_from<S: Source>(&self, source: &mut S) -> Result<String, AllocError> {
        let mut words = String::new(self.alloc);
        for limit in &self.reads {
            let word = read_word(self.alloc, read_all(self.alloc, source, *limit))?;
            push_word(&mut words, ", ", word.as_str())?;
        }
        Ok(words)
    }

    /// The number of the call that fails.
    fn failing(&self) -> Result<Vec<u64>, AllocError> {
        Ok(vec![in self.alloc; u64::from(self.size) + 1]?)
    }

    fn read_failing(&self, text: &[u8]) -> Result<String, AllocError> {
        let mut source = MemSource::new(text.to_vec(self.alloc)?, self.failing()?);
        let words = self.read_from(&mut source)?;
        format!(in self.alloc; "{words}, {} faults", source.faults())
    }

    fn read_failing_standard(&self, text: &[u8]) -> Result<String, AllocError> {
        self.read_from(&mut StdSource::new(FailingReader {
            bytes: text,
            before: Some(self.size),
        }))
    }

    /// Whether each write succeeds.
    fn write_to<O: Sink>(&self, sink: &mut O) -> Result<String, AllocError> {
        let mut words = String::new(self.alloc);
        for piece in &self.writes {
            let word = match write_all(sink, piece.as_bytes()) {
                Ok(()) => "written",
                Err(_) => "failed",
            };
            push_word(&mut words, ", ", word)?;
        }
        Ok(words)
    }

    fn write_memory(&self) -> Result<String, AllocError> {
        let Ok(mut sink) = SureSink::with_room(self.alloc, self.size as usize) else {
            return Err(AllocError);
        };
        let words = self.write_to(&mut sink)?;
        let whole = if sink.is_whole() { "whole" } else { "cut" };
        let held = String::from_utf8_lossy(self.alloc, sink.content())?;
        format!(in self.alloc; "{words}, {whole} \"{held}\"")
    }

    fn write_standard(&self) -> Result<String, AllocError> {
        let mut room = vec![in self.alloc; 0u8; self.size as usize]?;
        let words = self.write_to(&mut StdSink::new(room.as_mut_slice()))?;
        let held = String::from_utf8_lossy(self.alloc, room.as_slice())?;
        format!(in self.alloc; "{words}, \"{held}\"")
    }

    fn write_failing_standard(&self) -> Result<String, AllocError> {
        let mut room = vec![in self.alloc; 0u8; SINK_ROOM]?;
        let words = self.write_to(&mut StdSink::new(FailingWriter {
            inner: room.as_mut_slice(),
            before: Some(self.size),
        }))?;
        let all = String::from_utf8_lossy(self.alloc, room.as_slice())?;
        let held = all.trim_end_matches('\0');
        format!(in self.alloc; "{words}, \"{held}\"")
    }

    fn write_failing(&self) -> Result<String, AllocError> {
        let Ok(inner) = MemSink::new(self.alloc, SINK_ROOM, self.failing()?) else {
            return Err(AllocError);
        };
        let mut sink = OneByteSink { inner };
        let words = self.write_to(&mut sink)?;
        let held = String::from_utf8_lossy(self.alloc, sink.inner.content())?;
        format!(in self.alloc; "{words}, \"{held}\", {} faults", sink.inner.faults())
    }
}

impl Subject for Streams {
    fn take(&mut self, key: &str, text: &str) -> Result<bool, AllocError> {
        match (key, text.parse::<u32>()) {
            ("text", _) => self.builder.begin(text),
            ("write", _) => self.add_write(text),
            (_, Ok(number)) => Ok(self.set(key, number)? || self.builder.take(key, text)?),
            _ => self.builder.take(key, text),
        }
    }

    fn end(&mut self, wanted: &str) -> Result<Option<String>, AllocError> {
        let answer = self.answer()?;
        self.reads.clear();
        self.writes.clear();
        Ok(unless_same(answer, wanted))
    }
}

/// What a read gives.
fn read_word(alloc: Global, read: Result<Vec<u8>, ReadStop>) -> Result<String, AllocError> {
    match read {
        Ok(bytes) => {
            let text = String::from_utf8_lossy(alloc, bytes.as_slice())?;
            format!(in alloc; "\"{text}\"")
        }
        Err(stop) => format!(in alloc; "{stop}"),
    }
}
