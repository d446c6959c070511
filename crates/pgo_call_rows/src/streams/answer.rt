// What a command answers, and the calls that it makes of its streams.
use crate::streams::calls::Calls;
use crate::streams::counted_sink::{CountedSink, SinkWriter};
use crate::streams::counted_source::CountedSource;
use crate::streams::limits::Limits;
use pgo_base::word::Word;
use pgo_front::{Status, pgo};
use pgo_io::errors::NoMemory;
use pgo_io::standard::StdSink;
use pgo_io::sure_sink::SureSink;
use pgo_io::sure_source::SureSource;
use pgo_threads::gate::OpenGate;
use std::alloc::{AllocError, Global};
use std::io::BufWriter;
use std::sync::Wait;
use std::thread::Threads;

/// The room of an output.
const ROOM: usize = 65_536;

/// What a command answers.
#[derive(Drop)]
pub struct Answer {
    /// its status, the line on the error output, and how many calls it made
    pub said: String,
    pub out: String,
}

impl Answer {
    /// What the command of these words answers on this text.
    pub fn of<T: Threads + Wait + Sync>(
        rt: &T,
        alloc: Global,
        words: &[Word],
        limits: &Limits,
        text: Vec<u8>,
    ) -> Result<Answer, AllocError> {
        let mut input = CountedSource {
            inner: SureSource::new(text),
            reads: Calls::failing_behind(limits.reads),
            faults: 0,
        };
        let mut out = sink(alloc, limits.writes, limits)?;
        let mut err = sink(alloc, limits.error_writes, limits)?;
        let status = run(
            rt,
            alloc,
            words,
            limits.buffer,
            &mut input,
            &mut out,
            &mut err,
        );
        Answer::made(alloc, status, &input, &out, &err)
    }

    fn made(
        alloc: Global,
        status: Status,
        input: &CountedSource,
        out: &CountedSink,
        err: &CountedSink,
    ) -> Result<Answer, AllocError> {
        let line = String::from_utf8_lossy(alloc, err.inner.content())?;
        let blank = if line.is_empty() { "" } else { " " };
        let said = format!(in alloc;
            "{}{blank}{}; reads {}, writes {}, flushes {}, bytes {}, error writes {}",
            status.number(),
            line.as_str().trim_end(),
            input.reads.made,
            out.writes.made,
            out.flushes.made,
            out.inner.content().len(),
            err.writes.made
        )?;
        let out = String::from_utf8_lossy(alloc, out.inner.content())?;
        Ok(Answer { said, out })
    }
}

/// Runs the command of these words, with a buffer of so many bytes before the output where there is one.
fn run<T: Threads + Wait + Sync>(
    rt: &T,
    alloc: Global,
    words: &[Word],
    buffer: Option<u64>,
    input: &mut CountedSource,
    out: &mut CountedSink,
    err: &mut CountedSink,
) -> Status {
    match buffer {
        None => pgo(rt, alloc, words, input, out, err, &OpenGate),
        Some(capacity) => {
            let writer = SinkWriter { sink: out };
            match BufWriter::with_capacity(alloc, capacity as usize, writer) {
                Ok(writer) => {
                    let mut buffered = StdSink::new(writer);
                    pgo(rt, alloc, words, input, &mut buffered, err, &OpenGate)
                }
                Err(_) => Status::NoMemory,
            }
        }
    }
}

/// A sink that takes so many writes.
fn sink(alloc: Global, writes: u64, limits: &Limits) -> Result<CountedSink, AllocError> {
    match SureSink::with_room(alloc, ROOM) {
        Ok(inner) => Ok(CountedSink {
            inner,
            most: limits.most as usize,
            writes: Calls::failing_behind(writes),
            flushes: Calls::failing_behind(limits.flushes),
            faults: 0,
        }),
        Err(NoMemory) => Err(AllocError),
    }
}
