// What a command answers, over streams in memory.
use pgo_base::word::Word;
use pgo_front::pgo;
use pgo_io::errors::NoMemory;
use pgo_io::sure_sink::SureSink;
use pgo_io::sure_source::SureSource;
use pgo_threads::gate::Gate;
use std::alloc::{AllocError, Global};
use std::sync::Wait;
use std::thread::Threads;

/// The room of an output.
const ROOM: usize = 65_536;

/// The status of a command, and its output.
#[derive(Drop)]
pub struct Answer {
    pub status: u8,
    pub out: String,
}

impl Answer {
    /// What the command of these words answers on this text, with this gate.
    pub fn of<T: Threads + Wait + Sync, G: Gate + Sync>(
        rt: &T,
        alloc: Global,
        words: &[&str],
        text: &str,
        gate: &G,
    ) -> Result<Answer, AllocError> {
        let words = words_of(alloc, words)?;
        let mut input = SureSource::new(Vec::from_slice(alloc, text.as_bytes())?);
        let mut out = sink(alloc)?;
        let mut err = sink(alloc)?;
        let status = pgo(
            rt,
            alloc,
            words.as_slice(),
            &mut input,
            &mut out,
            &mut err,
            gate,
        );
        let out = String::from_utf8_lossy(alloc, out.content())?;
        Ok(Answer {
            status: status.number(),
            out,
        })
    }
}

fn words_of(alloc: Global, texts: &[&str]) -> Result<Vec<Word>, AllocError> {
    let mut words = Vec::new(alloc);
    for text in texts {
        words.push(Word::new(String::from_str(alloc, text)?))?;
    }
    Ok(words)
}

fn sink(alloc: Global) -> Result<SureSink, AllocError> {
    match SureSink::with_room(alloc, ROOM) {
        Ok(sink) => Ok(sink),
        Err(NoMemory) => Err(AllocError),
    }
}
