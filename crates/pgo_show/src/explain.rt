// What is made of a bundle.
ghost use Rattle.std.specs.Prelude.{◌≡◌, ◌⊎◌, Some, option_map, IfOk, IfErr, IfSome, OnOk};
ghost use Rattle.pgo_model.specs.ModuleText.{flatten};
ghost use Rattle.pgo_show.specs.Makes.{Explains, lines_told, text_of_lines, text_told, ExplainsShort, HasLine, IsAtEnd, IsTextEnd, ReadsAll, Stops, StopsText};
ghost use Rattle.pgo_show.specs.Wishes.{component_of, wish_of};

use crate::ended::Ended;
use crate::input::read_input;
use crate::status::Status;
use crate::wish::{Request, component_of};
use pgo_base::module::Module;
use pgo_bundle::log::BundleLog;
use pgo_io::source::Source;
use pgo_lines::line::{Line, Lines};
use pgo_log_text::bundle_reader::read_bundle;
use pgo_log_text::errors::LogStop;
use pgo_show_changes::changes::changes;
use pgo_show_picture::picture::picture;
use pgo_show_text::shown::shown;
use std::alloc::{AllocError, Global};

/// The bytes of lines.
fn bytes_of(alloc: Global, lines: &[Line]) -> Result<Vec<u8>, AllocError>
    ensures { IfOk result (λ v. v.items ≡ flatten lines.now) }
{
    let mut bytes = Vec::new(alloc);
    for line in lines {
        bytes.extend_from_slice(line.as_bytes())?;
    }
    Ok(bytes)
}

/// What is asked for of a bundle; none, where its log has no such component.
fn lines_of(
    alloc: Global,
    request: Request<'_>,
    m: &Module,
    log: &BundleLog,
) -> Result<Option<Lines>, AllocError>
    ensures { IfOk result (λ o. o ≡ lines_told (wish_of request.entry) m.now log.now) }
{
    match request {
        Request::Explanation => Ok(Some(shown(alloc, m, log)?)),
        Request::Picture => Ok(Some(picture(alloc, log)?)),
        Request::Changes(component) => changes(alloc, component.as_str().as_bytes(), log),
    }
}

/// The bytes of these lines, where there are some.
fn text_of_lines(alloc: Global, lines: &Option<Lines>) -> Result<Option<Vec<u8>>, AllocError>
    ensures { IfOk result (λ o. option_map (λ v. v.items) o ≡ text_of_lines lines.now) }
{
    match lines {
        Some(lines) => Ok(Some(bytes_of(alloc, lines.as_slice())?)),
        None => Ok(None),
    }
}

/// The text that is asked for of a bundle; none, where its log has no such component.
fn text_of(
    alloc: Global,
    request: Request<'_>,
    m: &Module,
    log: &BundleLog,
) -> Result<Option<Vec<u8>>, AllocError>
    ensures { IfOk result (λ o. option_map (λ v. v.items) o ≡ text_told (wish_of request.entry) m.now log.now) }
{
    let lines = lines_of(alloc, request, m, log)?;
    text_of_lines(alloc, &lines)
}

/// The same, or the status that says that there was none, or no memory.
fn text_or_status(
    alloc: Global,
    request: Request<'_>,
    m: &Module,
    log: &BundleLog,
) -> Result<Vec<u8>, Ended>
    ensures ok { IfOk result (λ v. text_told (wish_of request.entry) m.now log.now ≡ Some v.items) }
    ensures err { IfErr result (λ e. IsTextEnd (text_told (wish_of request.entry) m.now log.now) (component_of (wish_of request.entry)) e.status e.line) }
{
    match text_of(alloc, request, m, log) {
        Ok(Some(text)) => Ok(text),
        Ok(None) => Err(Ended::as_no_component(alloc, component_of(request))),
        Err(_) => Err(Ended::as_status(Status::NoMemory)),
    }
}

/// What is asked for of the bundle that this text is.
fn explain(alloc: Global, request: Request<'_>, text: &[u8]) -> Result<Vec<u8>, Ended>
    ensures ok { IfOk result (λ v. Explains (wish_of request.entry) text.now v.items) }
    ensures err { IfErr result (λ e. StopsText (wish_of request.entry) text.now e.status) }
    ensures line { IfErr result (λ e. HasLine (component_of (wish_of request.entry)) (Some text.now) e.status e.line) }
{
    match read_bundle(alloc, text) {
        Ok((module, _consts, log)) => text_or_status(alloc, request, &module, &log),
        Err(LogStop::BadLog { line }) => Err(Ended::as_no_bundle(alloc, line)),
        Err(LogStop::NoMemory) => Err(Ended::as_status(Status::NoMemory)),
    }
}

/// What is asked for of the bundle that the input is.
pub fn make_text<S: Source>(
    alloc: Global,
    request: Request<'_>,
    input: &mut S,
) -> Result<Vec<u8>, Ended>
    ensures ok { IfOk result (λ v. IfSome (S.left input.old) (λ text. ExplainsShort (wish_of request.entry) text v.items)) }
    ensures err { IfErr result (λ e. Stops (wish_of request.entry) (S.left input.old) (S.faults input.old) (S.faults input.new) e.status) }
    ensures line { IfErr result (λ e. HasLine (component_of (wish_of request.entry)) (S.left input.old) e.status e.line) }
    ensures ended { OnOk result (IsAtEnd (S.left input.old) (S.left input.new)) }
    ensures steady { OnOk result (S.faults input.new ≡ S.faults input.old) }
    ensures failed { IfErr result (λ e. (e.status ≡ Status.ReadFault) ⊎ (S.faults input.new ≡ S.faults input.old)) }
    ensures ended_refused { IfErr result (λ e. ReadsAll e.status → IsAtEnd (S.left input.old) (S.left input.new)) }
{
    match read_input(alloc, input) {
        Ok(text) => explain(alloc, request, text.as_slice()),
        Err(status) => Err(Ended::as_status(status)),
    }
}
