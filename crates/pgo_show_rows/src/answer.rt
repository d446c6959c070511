// What an explanation answers.
use pgo_base::word::Word;
use pgo_io::errors::NoMemory;
use pgo_io::sure_sink::SureSink;
use pgo_io::sure_source::SureSource;
use pgo_show::{Status, show};
use std::alloc::{AllocError, Global};

/// The room of an output.
const ROOM: usize = 65_536;

/// What an explanation answers: its status with the line on the error output, and the text.
#[derive(Drop)]
pub struct Answer {
    pub said: String,
    pub out: String,
}

impl Answer {
    /// What is answered to these words and this text.
    pub fn of(alloc: Global, words: &[Word], text: Vec<u8>) -> Result<Answer, AllocError> {
        let mut input = SureSource::new(text);
        let mut out = sink(alloc)?;
        let mut err = sink(alloc)?;
        let status = show(alloc, words, &mut input, &mut out, &mut err);
        Answer::made(alloc, status, &out, &err)
    }

    fn made(
        alloc: Global,
        status: Status,
        out: &SureSink,
        err: &SureSink,
    ) -> Result<Answer, AllocError> {
        let line = String::from_utf8_lossy(alloc, err.content())?;
        let blank = if line.is_empty() { "" } else { " " };
        let said = format!(in alloc; "{}{blank}{}", status.number(), line.as_str().trim_end())?;
        let out = String::from_utf8_lossy(alloc, out.content())?;
        Ok(Answer { said, out })
    }
}

fn sink(alloc: Global) -> Result<SureSink, AllocError> {
    match SureSink::with_room(alloc, ROOM) {
        Ok(sink) => Ok(sink),
        Err(NoMemory) => Err(AllocError),
    }
}
