// The top call: words and bytes in, bytes and a status out.
ghost use Rattle.std.specs.Prelude.{◌≡◌, ◌⊎◌, None, IfSome, IfOk, IfErr, OnOk, OnErr};
ghost use Rattle.pgo_io.specs.Faults.{Rose};
ghost use Rattle.pgo_io.specs.Sink.{Grows, GrowsByPrefix};
ghost use Rattle.pgo_show.specs.Makes.{EndsAs, HasLine, IsAtEnd, MadeAsked, ReadsAll, SaysLine, StopsAsked};
ghost use Rattle.pgo_show.specs.Wishes.{asked, component_asked};
ghost use Rattle.pgo_show.specs.Promise.{Promise};
ghost use Rattle.pgo_show.specs.Statuses.{line_of};
ghost use Rattle.pgo_show.specs.Streams.{around};

use crate::ended::Ended;
use crate::explain::make_text;
use crate::status::Status;
use crate::wish::request_of;
use pgo_base::word::Word;
use pgo_io::errors::Failed;
use pgo_io::sink::Sink;
use pgo_io::source::Source;
use pgo_io::write_all::write_all;
use std::alloc::Global;

/// Explains a bundle, which is the input. Without words the output is a text for a person: a line on the whole, and some lines of each
/// instance (`shown` of `pgo_show_text`). With `--svg` it is a picture (`picture` of `pgo_show_picture`), and with `--changes` and a
/// component the values of that component, entry by entry (`changes` of `pgo_show_changes`).
///
/// The input is read to its end, then the bundle is read, then the text is made, and only then is it written,
/// and then flushed. A refusal puts its one line on `err`, whose faults change no status. The statuses are those of `Status`.
/// This project's choice.
pub fn show<S: Source, O: Sink, E: Sink>(
    alloc: Global,
    words: &[Word],
    input: &mut S,
    out: &mut O,
    err: &mut E,
) -> Status
    ensures { Promise words.now (around S.left S.faults input.old input.new) (around O.held O.faults out.old out.new)
        (around E.held E.faults err.old err.new) result }
{
    let made = make(alloc, words, input);
    let ended = write_end(made, out);
    say(err, &ended);
    ended.status
}

/// Puts the line of a refusal on the error output.
fn say<E: Sink>(err: &mut E, ended: &Ended)
    ensures says { ¬ Rose (E.faults err.old) (E.faults err.new) → SaysLine ended.now.status (E.held err.old) (E.held err.new) }
    ensures says_own { line_of ended.now.status ≡ None → ¬ Rose (E.faults err.old) (E.faults err.new) →
        IfSome ended.now.line (λ l. Grows (E.held err.old) (E.held err.new) l) }
    ensures silent { line_of ended.now.status ≡ None → ended.now.line ≡ None → err.new ≡ err.old }
{
    match ended.status.line() {
        Some(line) => {
            let _ = write_all(err, line);
        }
        None => {
            if let Some(line) = &ended.line {
                let _ = write_all(err, line.as_bytes());
            }
        }
    }
}

/// Writes what was made, and says how it ended.
fn write_end<O: Sink>(made: Result<Vec<u8>, Ended>, out: &mut O) -> Ended
    ensures { EndsAs made (around O.held O.faults out.old out.new) result }
{
    match made {
        Ok(text) => match write_text(out, text.as_slice()) {
            Ok(()) => Ended::as_status(Status::Fine),
            Err(_) => Ended::as_status(Status::WriteFault),
        },
        Err(ended) => ended,
    }
}

/// Writes a text, and hands on what the output has kept back of it.
fn write_text<O: Sink>(out: &mut O, text: &[u8]) -> Result<(), Failed>
    ensures all { OnOk result (Grows (O.held out.old) (O.held out.new) text.now) }
    ensures prefix { OnErr result (GrowsByPrefix (O.held out.old) (O.held out.new) text.now) }
    ensures cause { OnErr result (Rose (O.faults out.old) (O.faults out.new)) }
    ensures steady { OnOk result (O.faults out.new ≡ O.faults out.old) }
{
    write_all(out, text)?;
    out.flush()
}

/// Makes what the words ask for, from all of the input.
fn make<S: Source>(alloc: Global, words: &[Word], input: &mut S) -> Result<Vec<u8>, Ended>
    ensures asks { OnOk result (asked words.now ≡ None → ⊥) }
    ensures ok { IfOk result (λ v. IfSome (S.left input.old) (λ text. MadeAsked (asked words.now) text v.items)) }
    ensures err { IfErr result (λ e. StopsAsked (asked words.now) (S.left input.old) (S.faults input.old) (S.faults input.new) e.status) }
    ensures line { IfErr result (λ e. HasLine (component_asked (asked words.now)) (S.left input.old) e.status e.line) }
    ensures unread { asked words.now ≡ None → input.new ≡ input.old }
    ensures ended { OnOk result (IsAtEnd (S.left input.old) (S.left input.new)) }
    ensures steady { OnOk result (S.faults input.new ≡ S.faults input.old) }
    ensures failed { IfErr result (λ e. (e.status ≡ Status.ReadFault) ⊎ (S.faults input.new ≡ S.faults input.old)) }
    ensures ended_refused { IfErr result (λ e. ReadsAll e.status → IsAtEnd (S.left input.old) (S.left input.new)) }
{
    match request_of(words) {
        Some(request) => make_text(alloc, request, input),
        None => Err(Ended::as_status(Status::Usage)),
    }
}
