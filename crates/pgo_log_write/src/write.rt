// The bundle of a run.
ghost use Rattle.std.specs.Prelude.{◌≡◌, ◌≤◌, ◌∷◌, ◌++◌, codes, decimal, length, map, IfOk};
ghost use Rattle.pgo_meaning.specs.System.{system_of};
ghost use Rattle.pgo_bundle.specs.BundleLog.{Two};
ghost use Rattle.pgo_bundle.specs.Lines.{BundleText, all_logged_lines, head_lines, note_line};
ghost use Rattle.pgo_bundle.specs.Noted.{place_of};
ghost use Rattle.pgo_bundle.specs.RunLog.{run_log};
ghost use Rattle.pgo_log_write.specs.JournalRows.{notes_of};
ghost use Rattle.pgo_log_write.specs.RunRows.{run_entries};
ghost use Rattle.pgo_model.specs.Bundle.{value_line};
ghost use Rattle.pgo_model.specs.Core.{Settings};
ghost use Rattle.pgo_model.specs.Log.{Effect};
ghost use Rattle.pgo_model.specs.Machine as machine;
ghost use Rattle.pgo_model.specs.ModuleText as text;
ghost use Rattle.pgo_model.specs.ModuleText.{flatten};
ghost use Rattle.pgo_model.specs.ModuleView.{module_view};
ghost use Rattle.pgo_log_write.specs.IsFinished.{IsFinished};

use crate::accounts::push_accounts;
use crate::entries::{push_notes, push_values};
use crate::line::Field::{Number, Word};
use crate::line::push_line;
use crate::run::push_run;
use pgo_base::consts::Consts;
use pgo_base::module::Module;
use pgo_base::scope::State;
use pgo_base::text::Text;
use pgo_bundle::positions::{by_position, place_at};
use pgo_journal::finished::Finished;
use pgo_journal::journal::Journal;
use pgo_module_write::write::write_module;
use pgo_syntax::bound::Bound;
use std::alloc::{AllocError, Global};

/// The most bytes of a module in a bundle.
const MOST_MODULE_BYTES: usize = 4_294_967_295;

/// The text, where it is no longer than the number of its bytes may be in a bundle.
fn within_count(written: Text) -> Result<Text, AllocError>
    ensures same { IfOk result (λ t. t ≡ written) }
    ensures short { IfOk result (λ t. length t ≤ 4294967295) }
{
    if written.as_bytes().len() <= MOST_MODULE_BYTES {
        Ok(written)
    } else {
        Err(AllocError)
    }
}

/// The text of a module, which is no longer than that.
fn module_text(alloc: Global, m: &Module) -> Result<Text, AllocError>
    ensures text { IfOk result (λ t. t ≡ text.Text (module_view m.now)) }
    ensures short { IfOk result (λ t. length t ≤ 4294967295) }
{
    match write_module(alloc, m) {
        Ok(written) => within_count(written),
        Err(_) => Err(AllocError),
    }
}

/// Adds the line of the length of a module's text, and this text.
fn push_module(bytes: &mut Vec<u8>, alloc: Global, m: &Module) -> Result<(), AllocError>
    ensures bytes { IfOk result (λ _. bytes.new.items ≡ bytes.old.items
        ++ text.line (codes "module " ++ decimal (length (text.Text (module_view m.now)))) ++ text.Text (module_view m.now)) }
    ensures short { IfOk result (λ _. length (text.Text (module_view m.now)) ≤ 4294967295) }
{
    let written = module_text(alloc, m)?;
    let size = written.as_bytes().len() as u64;
    push_line(bytes, &[Word(b"module"), Number(size)])?;
    bytes.extend_from_slice(written.as_bytes())?;
    Ok(())
}

/// Adds the lines before the log: the version, the constants and the module.
pub fn push_head(
    bytes: &mut Vec<u8>,
    alloc: Global,
    m: &Module,
    consts: &Consts,
) -> Result<(), AllocError>
    ensures bytes { IfOk result (λ _. bytes.new.items ≡ bytes.old.items ++ (flatten (head_lines Two consts.now (length (text.Text (module_view m.now)))) ++ text.Text (module_view m.now))) }
    ensures short { IfOk result (λ _. length (text.Text (module_view m.now)) ≤ 4294967295) }
{
    push_line(bytes, &[Word(b"pgo 2")])?;
    push_values(bytes, alloc, b"consts", consts.as_slice())?;
    push_module(bytes, alloc, m)
}

/// Adds the last line: how many entries there are, and the status.
pub fn push_end(bytes: &mut Vec<u8>, entries: u64, status: u64) -> Result<(), AllocError>
    ensures { IfOk result (λ _. bytes.new.items ≡ bytes.old.items ++ text.line (codes "end " ++ decimal entries ++ codes " " ++ decimal status)) }
{
    push_line(bytes, &[Word(b"end"), Number(entries), Number(status)])
}

/// Adds the starting state, the notes and the entries of a run.
fn push_journal(
    bytes: &mut Vec<u8>,
    alloc: Global,
    start: &State,
    journal: &Journal,
) -> Result<(), AllocError>
    ensures { IfOk result (λ _. bytes.new.items ≡ bytes.old.items
        ++ flatten (text.line (codes "init " ++ decimal (length start.now)) ∷ map value_line start.now
        ++ map note_line (place_of 0 (notes_of journal.now)) ++ all_logged_lines 1 (run_entries 1 (notes_of journal.now) journal.now.entries))) }
{
    let places = by_position(alloc, journal.notes(), journal.len())?;
    push_values(bytes, alloc, b"init", start.as_slice())?;
    push_notes(bytes, place_at(places.as_slice(), 0))?;
    push_run(bytes, alloc, journal, places.as_slice())
}

/// The text of the bundle of a run: the module with these constants, and what the run of this specification left, with
/// this status.
///
/// `AllocError` comes where there is no memory, and where the module's text has 2^32 bytes or more.
///
/// Source: this project's choice.
pub fn write_bundle(
    alloc: Global,
    m: &Module,
    consts: &Consts,
    bound: &Bound,
    f: &Finished,
    status: u8,
) -> Result<Text, AllocError>
    ensures text { IfOk result (λ t. (settings : Settings) (g : machine.Finished Effect) → IsFinished (system_of bound.now) settings g f.now
        → t ≡ BundleText (module_view m.now) consts.now (run_log (system_of bound.now) settings g status)) }
    ensures short { IfOk result (λ _. length (text.Text (module_view m.now)) ≤ 4294967295) }
{
    let mut bytes = Vec::new(alloc);
    push_head(&mut bytes, alloc, m, consts)?;
    push_journal(&mut bytes, alloc, &bound.start, &f.journal)?;
    push_accounts(
        &mut bytes,
        alloc,
        bound.resources.as_slice(),
        bound.instances.as_slice(),
        f.accounts.as_slice(),
    )?;
    push_end(&mut bytes, f.journal.len() as u64, status as u64)?;
    Ok(Text::from_bytes(bytes)?)
}
