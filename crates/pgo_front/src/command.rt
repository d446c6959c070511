// The top call: words and bytes in, bytes and a status out.
ghost use Rattle.std.specs.Prelude.{◌≡◌, ◌≤◌, ◌<◌, ◌⊎◌, length, take, None, IfSome, IfOk, IfErr, OnOk, OnErr};
ghost use Rattle.pgo_io.specs.Faults.{Rose};
ghost use Rattle.pgo_io.specs.Sink.{Grows, GrowsByPrefix};
ghost use Rattle.pgo_model.specs.ModuleText.{flatten};
ghost use Rattle.pgo_front.specs.Statuses.{line_of};
ghost use Rattle.pgo_front.specs.Answers.{AsksSomeLoad, ReadsNothing, RefusesSpec, Stops, IsRefusal, ReadsAll, IsAtEnd, SaysLine};
ghost use Rattle.pgo_front.specs.Makes.{MakesAsked, HasOwnLine, EndsAs, bytes_of};
ghost use Rattle.pgo_front.specs.Headline.{Headline};
ghost use Rattle.pgo_front.specs.Streams.{around};

use crate::check::make_check;
use crate::ended::Ended;
use crate::execution::make_execution;
use crate::load::make_load;
use crate::migration::make_migration;
use crate::output::{Output, Written};
use crate::status::Status;
use crate::task::{Task, read_task};
use crate::translate::make_translation;
use pgo_base::word::Word;
use pgo_io::errors::Failed;
use pgo_io::sink::Sink;
use pgo_io::source::Source;
use pgo_io::write_all::write_all;
use pgo_lines::line::Lines;
use pgo_threads::gate::Gate;
use pgo_words::errors::WordStop;
use pgo_written_runs::read_values_are_canonical;
use std::alloc::Global;
use std::sync::Wait;
use std::thread::Threads;

/// Runs the command that the words ask for:
///
/// - `step`, its options with `--turns LIST` among them, and constants, `NAME=value` each; or `run`, its options, and constants. A
///   specification is the input, and the bundle of its run the output, with the settings that the options `--seed`, `--attempts`
///   and `--steps` give. `step` runs it on one thread under these turns. `run` runs each instance in a thread of its own until it has
///   ended, where the system gives one, so an output of more than one instance hangs on the schedule. The gate is called before each
///   turn of an instance of such a run, and once more when it has ended.
/// - `check`: a bundle is the input, and the verdict on its log the output, one line, `run steps` or `bad at why`.
/// - `migrate`: a bundle of version 1 is the input, and the bundle of version 2 of the same module, constants and log the output.
/// - `expand` or `compile`, and constants: a specification is the input, and its translation the output: the text of its expansion,
///   or that of its module.
/// - `load N`: the output is one line, `load N: instances I, steps S, verdict run S`, of the run of the specification that is made
///   from N, with I instances and S entries, whose bundle is judged a run. No input is read.
///
/// The words come first, then the input is read to its end, then the text is read, then the run, the check, the migration or the
/// translation is made, and only then is the output written, line by line, and then flushed. A refusal puts its one line on `err`,
/// whose faults change no status.
/// The specification of a load may be refused as one of the input may: with `SpecRefused` and its line. The statuses are those of
/// `Status`. This project's choice.
pub fn pgo<T: Threads + Wait + Sync, S: Source, O: Sink, E: Sink, G: Gate + Sync>(
    rt: &T,
    alloc: Global,
    words: &[Word],
    input: &mut S,
    out: &mut O,
    err: &mut E,
    gate: &G,
) -> Status
    ensures { Headline words.now (around S.left S.faults input.old input.new) (around O.held O.faults out.old out.new)
        (around E.held E.faults err.old err.new) result }
{
    let made = make(rt, alloc, words, input, gate);
    let ended = write_end(made, out);
    say(err, &ended);
    ended.status
}

/// Puts the line of a refusal on the error output.
fn say<E: Sink>(err: &mut E, ended: &Ended)
    ensures says { ¬ Rose (E.faults err.old) (E.faults err.new) → SaysLine ended.now.status (E.held err.old) (E.held err.new) }
    ensures says_refusal { line_of ended.now.status ≡ None → ¬ Rose (E.faults err.old) (E.faults err.new) →
        IfSome ended.now.line (λ l. Grows (E.held err.old) (E.held err.new) l) }
    ensures silent { line_of ended.now.status ≡ None → ended.now.line ≡ None → err.new ≡ err.old }
{
    match ended.status.line() {
        Some(line) => {
            let _ = write_all(err, line);
        }
        None => {
            if let Some(line) = &ended.line {
                let _ = write_all(err, line.as_bytes());
            }
        }
    }
}

/// Writes what was made, and says how the command ended.
fn write_end<O: Sink>(made: Result<Output, Ended>, out: &mut O) -> Ended
    ensures { EndsAs made (around O.held O.faults out.old out.new) result }
{
    match made {
        Ok(output) => match write_made(out, &output.written) {
            Ok(()) => Ended::as_status(output.status),
            Err(_) => Ended::as_status(Status::WriteFault),
        },
        Err(ended) => ended,
    }
}

/// Writes lines or a text, and hands on what the output has kept back of them.
fn write_made<O: Sink>(out: &mut O, written: &Written) -> Result<(), Failed>
    ensures all { OnOk result (Grows (O.held out.old) (O.held out.new) (bytes_of written.now)) }
    ensures prefix { OnErr result (GrowsByPrefix (O.held out.old) (O.held out.new) (bytes_of written.now)) }
    ensures cause { OnErr result (Rose (O.faults out.old) (O.faults out.new)) }
    ensures steady { OnOk result (O.faults out.new ≡ O.faults out.old) }
{
    write_pieces(out, written)?;
    out.flush()
}

/// Writes lines or a text, one piece a line.
fn write_pieces<O: Sink>(out: &mut O, written: &Written) -> Result<(), Failed>
    ensures all { OnOk result (Grows (O.held out.old) (O.held out.new) (bytes_of written.now)) }
    ensures prefix { OnErr result (GrowsByPrefix (O.held out.old) (O.held out.new) (bytes_of written.now)) }
    ensures cause { OnErr result (Rose (O.faults out.old) (O.faults out.new)) }
    ensures steady { OnOk result (O.faults out.new ≡ O.faults out.old) }
{
    match written {
        Written::Lines(lines) => write_lines(out, lines),
        Written::Text(text) => write_text(out, text.as_bytes()),
    }
}

/// Writes the lines, one piece a line.
fn write_lines<O: Sink>(out: &mut O, lines: &Lines) -> Result<(), Failed>
    ensures all { OnOk result (Grows (O.held out.old) (O.held out.new) (flatten lines.now)) }
    ensures prefix { OnErr result (GrowsByPrefix (O.held out.old) (O.held out.new) (flatten lines.now)) }
    ensures cause { OnErr result (Rose (O.faults out.old) (O.faults out.new)) }
    ensures steady { OnOk result (O.faults out.new ≡ O.faults out.old) }
{
    for line in lines.as_slice() {
        write_all(out, line.as_bytes())?;
    }
    Ok(())
}

/// The bytes of a text up to its first newline, with it; all where there is none.
fn first_line(text: &[u8]) -> &[u8]
    requires { 0 < length text.now }
    ensures some { 0 < length result.now }
    ensures within { length result.now ≤ length text.now }
    ensures front { result.now ≡ take (length result.now) text.now }
{
    match text.iter().position(|b| *b == b'\n') {
        Some(i) => &text[..=i],
        None => text,
    }
}

/// Writes a text, one piece a line.
fn write_text<O: Sink>(out: &mut O, text: &[u8]) -> Result<(), Failed>
    ensures all { OnOk result (Grows (O.held out.old) (O.held out.new) text.now) }
    ensures prefix { OnErr result (GrowsByPrefix (O.held out.old) (O.held out.new) text.now) }
    ensures cause { OnErr result (Rose (O.faults out.old) (O.faults out.new)) }
    ensures steady { OnOk result (O.faults out.new ≡ O.faults out.old) }
{
    let mut done = 0;
    while done < text.len() {
        let line = first_line(&text[done..]);
        write_all(out, line)?;
        done += line.len();
    }
    Ok(())
}

/// Makes the output that the words ask for, from all of the input, or from a load's number.
fn make<T: Threads + Wait + Sync, S: Source, G: Gate + Sync>(
    rt: &T,
    alloc: Global,
    words: &[Word],
    input: &mut S,
    gate: &G,
) -> Result<Output, Ended>
    ensures ok { IfOk result (MakesAsked words.now (S.left input.old)) }
    ensures err { IfErr result (λ e. Stops words.now (S.left input.old) (S.faults input.old) (S.faults input.new) e.status) }
    ensures line { IfErr result (λ e. HasOwnLine words.now (S.left input.old) (RefusesSpec words.now (S.left input.old)) e.status e.line) }
    ensures refusal { IfErr result (λ e. IsRefusal e.status) }
    ensures unread { ReadsNothing words.now → input.new ≡ input.old }
    ensures ended { ¬ AsksSomeLoad words.now → OnOk result (IsAtEnd (S.left input.old) (S.left input.new)) }
    ensures steady { OnOk result (S.faults input.new ≡ S.faults input.old) }
    ensures failed { IfErr result (λ e. (e.status ≡ Status.ReadFault) ⊎ (S.faults input.new ≡ S.faults input.old)) }
    ensures ended_refused { ¬ AsksSomeLoad words.now → IfErr result (λ e. ReadsAll e.status → IsAtEnd (S.left input.old) (S.left input.new)) }
{
    match read_task(alloc, words) {
        Ok(Task::Execute(mode, consts, settings)) => {
            read_values_are_canonical();
            make_execution(rt, alloc, &mode, &consts, &settings, input, gate)
        }
        Ok(Task::Check) => make_check(rt, alloc, input),
        Ok(Task::Migrate) => make_migration(alloc, input),
        Ok(Task::Translate(target, consts)) => make_translation(alloc, target, &consts, input),
        Ok(Task::Load(size)) => make_load(rt, alloc, size),
        Err(WordStop::Usage) => Err(Ended::as_status(Status::Usage)),
        Err(WordStop::NoMemory) => Err(Ended::as_status(Status::NoMemory)),
    }
}
