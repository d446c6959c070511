// The commands `expand` and `compile`: a specification is translated.
ghost use Rattle.std.specs.Prelude.{◌≡◌, ◌≤◌, ◌⊎◌, length, None, IfOk, IfErr, IfSome, OnOk};
ghost use Rattle.pgo_accept.specs.Refusals.{RefusedWith};
ghost use Rattle.pgo_expr_read.specs.Texts.{most_tokens};
ghost use Rattle.pgo_pluscal.specs.Text.{pluscal_text};
ghost use Rattle.pgo_translate.specs.ModuleOf.{module_with};
ghost use Rattle.pgo_front.specs.Answers.{IsAtEnd, ReadsAll};
ghost use Rattle.pgo_front.specs.Makes.{HasLine, MakesTranslation, RefusesInput, StopsSpec, StopsSpecInput, bytes_of};
ghost use Rattle.pgo_front.specs.Spells.{most_bytes};
ghost use Rattle.pgo_front.specs.Translations.{IsModuleText, IsTextOf};

use crate::ended::Ended;
use crate::input::{MOST_BYTES, read_input};
use crate::output::{Output, Written};
use crate::status::Status;
use crate::target::Target;
use pgo_accept::accept::expansion;
use pgo_agrees::{expansions_agree, modules_agree};
use pgo_base::consts::Consts;
use pgo_base::text::Text;
use pgo_expr_write::errors::NoMemory;
use pgo_io::source::Source;
use pgo_module_write::write::write_module;
use pgo_pluscal::pluscal::PlusCal;
use pgo_pluscal::write::write_pluscal;
use pgo_translate::translate::translate;
use pgo_written::modules_are_read_back;
use std::alloc::Global;

/// The most tokens that a text may have that is read.
const MOST_TOKENS: usize = 4_294_967_295;

/// Makes the translation, with these constants, of the specification that the input spells.
pub fn make_translation<S: Source>(
    alloc: Global,
    target: Target,
    consts: &Consts,
    input: &mut S,
) -> Result<Output, Ended>
    ensures ok { IfOk result (λ m. IfSome (S.left input.old) (λ text. (length text ≤ most_bytes) × MakesTranslation target text consts.now m)) }
    ensures fine { IfOk result (λ m. m.status ≡ Status.Fine) }
    ensures err { IfErr result (λ e. StopsSpecInput consts.now (S.left input.old) (S.faults input.old) (S.faults input.new) e.status) }
    ensures line { IfErr result (λ e. HasLine (RefusesInput consts.now (S.left input.old)) e.status e.line) }
    ensures ended { OnOk result (IsAtEnd (S.left input.old) (S.left input.new)) }
    ensures steady { OnOk result (S.faults input.new ≡ S.faults input.old) }
    ensures failed { IfErr result (λ e. (e.status ≡ Status.ReadFault) ⊎ (S.faults input.new ≡ S.faults input.old)) }
    ensures ended_refused { IfErr result (λ e. ReadsAll e.status → IsAtEnd (S.left input.old) (S.left input.new)) }
{
    match read_input(alloc, input, MOST_BYTES) {
        Ok(text) => translate_text(alloc, target, consts, text.as_slice()),
        Err(status) => Err(Ended::as_status(status)),
    }
}

/// Makes the translation of the specification that the text spells.
fn translate_text(
    alloc: Global,
    target: Target,
    consts: &Consts,
    text: &[u8],
) -> Result<Output, Ended>
    ensures ok { IfOk result (MakesTranslation target text.now consts.now) }
    ensures fine { IfOk result (λ m. m.status ≡ Status.Fine) }
    ensures err { IfErr result (λ e. StopsSpec text.now consts.now e.status) }
    ensures line { IfErr result (λ e. HasLine (RefusedWith text.now consts.now) e.status e.line) }
{
    expansions_agree();
    modules_agree();
    modules_are_read_back();
    match expansion(alloc, text, consts) {
        Ok(expanded) => output_of(alloc, target, &expanded),
        Err(rejection) => Err(Ended::as_rejected(alloc, &rejection)),
    }
}

/// The translation of an expanded specification, as what is written.
fn output_of(alloc: Global, target: Target, expanded: &PlusCal) -> Result<Output, Ended>
    ensures ok { IfOk result (λ m. IsTextOf target expanded.now (bytes_of m.written)) }
    ensures fine { IfOk result (λ m. m.status ≡ Status.Fine) }
    ensures err { IfErr result (λ e. e.status ≡ Status.NoMemory) }
    ensures line { IfErr result (λ e. e.line ≡ None) }
{
    let made = match target {
        Target::Expansion => write_pluscal(alloc, expanded),
        Target::Module => module_text(alloc, expanded),
    };
    match made {
        Ok(text) => Ok(Output {
            written: Written::Text(text),
            status: Status::Fine,
        }),
        Err(_) => Err(Ended::as_status(Status::NoMemory)),
    }
}

/// The text, where it is no longer than a text that is read may have tokens.
fn within_tokens(text: Text) -> Result<Text, NoMemory>
    ensures same { IfOk result (λ t. t ≡ text) }
    ensures short { IfOk result (λ t. length t ≤ most_tokens) }
{
    if text.as_bytes().len() <= MOST_TOKENS {
        Ok(text)
    } else {
        Err(NoMemory)
    }
}

/// The text of the module of an expanded specification.
fn module_text(alloc: Global, expanded: &PlusCal) -> Result<Text, NoMemory>
    ensures { IfOk result (IsModuleText (module_with expanded.now)) }
{
    let made = translate(alloc, expanded)?;
    let text = write_module(alloc, &made)?;
    within_tokens(text)
}
