// The program: the words of the command line and the standard streams, handed to `pgo`.
#![tactic(auto)]

ghost use Rattle.std.specs.Prelude.{◌≡◌, IfOk, IsOk, IsErr};
ghost use Rattle.std.specs.Process.{exit_status};
ghost use Rattle.pgo_io.specs.Faults.{Rose};
ghost use Rattle.pgo_front.specs.Answers.{SaysLine};
ghost use Rattle.pgo_front.specs.Statuses.{number_of};
ghost use Rattle.pgo_front.specs.Streams.{around};
ghost use Rattle.pgo_main.specs.Arguments.{words_behind_name, words_of, LacksMemory, LacksText};
ghost use Rattle.pgo_main.specs.Exits.{Exits};

use pgo_base::word::Word;
use pgo_front::{Status, pgo};
use pgo_io::sink::Sink;
use pgo_io::source::Source;
use pgo_io::standard::{StdSink, StdSource};
use pgo_io::write_all::write_all;
use pgo_threads::gate::OpenGate;
use std::alloc::{AllocError, Global};
use std::env::{self, Args};
use std::io;
use std::io::{BufWriter, ErrorKind};
use std::process::ExitCode;
use std::sync::Wait;
use std::thread::{Builder, Threads};

/// How many bytes of stack a command has. An expression of the text is at most 128 high and macros nest at most 127 deep, so with arguments
/// in place it is at most 127 * 127 + 128 = 16,257 high: this is eight kilobytes for each level.
const STACK: usize = 128 << 20;

/// Runs the command on a thread of its own, with so much stack.
fn main(rt: HostRuntime) -> ExitCode {
    match Builder::new()
        .stack_size(STACK)
        .spawn(&rt, move || on_streams(&rt, rt))
    {
        Ok(thread) => thread.join(&rt),
        Err(_) => exit_code(no_memory(&mut StdSink::new(rt.stderr()))),
    }
}

/// Runs the command over the standard streams of the runtime, which starts its threads too: that it may, `main` alone can say.
fn on_streams<T: Threads + Wait + Sync>(threads: &T, rt: HostRuntime) -> ExitCode {
    let alloc = rt.alloc();
    let mut err = StdSink::new(rt.stderr());
    match BufWriter::new(alloc, rt.stdout()) {
        Ok(out) => run(
            threads,
            alloc,
            env::args(&rt),
            &mut StdSource::new(rt.stdin()),
            &mut StdSink::new(out),
            &mut err,
        ),
        Err(_) => exit_code(no_memory(&mut err)),
    }
}

/// Runs the command that the arguments ask for, and answers the code that the process ends with. No turn of an instance is held up.
fn run<T: Threads + Wait + Sync, S: Source, O: Sink, E: Sink>(
    rt: &T,
    alloc: Global,
    arguments: io::Result<Args>,
    input: &mut S,
    out: &mut O,
    err: &mut E,
) -> ExitCode
    ensures exits { Exits (words_of arguments) (around S.left S.faults input.old input.new) (around O.held O.faults out.old out.new)
        (around E.held E.faults err.old err.new) (exit_status result) }
    ensures no_memory { LacksMemory arguments → exit_status result ≡ number_of Status.NoMemory }
{
    match words(alloc, arguments) {
        Ok(words) => exit_code(pgo(rt, alloc, words.as_slice(), input, out, err, &OpenGate)),
        Err(_) => exit_code(no_memory(err)),
    }
}

/// The code that the process ends with.
fn exit_code(status: Status) -> ExitCode
    ensures { exit_status result ≡ number_of status }
{
    ExitCode::from(status.number())
}

/// The words of the command line. Where some argument is no text there are none, so that nothing is asked for.
fn words(alloc: Global, arguments: io::Result<Args>) -> Result<Vec<Word>, AllocError>
    ensures words { IfOk result (λ ws. ws.items ≡ words_of arguments) }
    ensures no_memory { LacksMemory arguments → IsErr result }
    ensures no_text { LacksText arguments → IsOk result }
{
    match arguments {
        Ok(arguments) => words_from(alloc, arguments),
        Err(error) => match error.kind() {
            ErrorKind::OutOfMemory => Err(AllocError),
            _ => Ok(Vec::new(alloc)),
        },
    }
}

/// The arguments behind the first, which is the program's name.
fn words_from(alloc: Global, mut arguments: Args) -> Result<Vec<Word>, AllocError>
    ensures { IfOk result (λ ws. ws.items ≡ words_behind_name arguments) }
{
    let _name = arguments.next();
    let mut words = Vec::new(alloc);
    for argument in arguments {
        words.push(Word::new(argument))?;
    }
    Ok(words)
}

/// Says on the error output that there is no memory, for the thread, for the words or for the buffer before the output.
fn no_memory<E: Sink>(err: &mut E) -> Status
    ensures status { result ≡ Status.NoMemory }
    ensures says { ¬ Rose (E.faults err.old) (E.faults err.new) →
        SaysLine Status.NoMemory (E.held err.old) (E.held err.new) }
{
    if let Some(line) = Status::NoMemory.line() {
        let _ = write_all(err, line);
    }
    Status::NoMemory
}
