// The reader of modules.
ghost use Rattle.std.specs.Prelude.{◌≡◌, ℕ, List, IfOk, IfErr, length};
ghost use Rattle.pgo_expr_read.specs.Stops.{IsWithin};
ghost use Rattle.pgo_model.specs.Module as model;
ghost use Rattle.pgo_model.specs.ModuleView.{module_view};
ghost use Rattle.pgo_expr_read.specs.Steps.{Makes};
ghost use Rattle.pgo_module_spells.specs.Spells.{SpellsModule, IsOrNoMemory};
ghost use Rattle.pgo_module_spells.specs.Written.{IsWritten};
ghost use Rattle.pgo_module_read.specs.Building as spec;

use crate::build::module_of;
use crate::cut::cut;
use crate::lines::all_lines;
use crate::refusal::refusal;
use pgo_base::module::Module;
use pgo_lexer::errors::TextStop;
use std::alloc::Global;

/// The module of a text, as the functions on lists give it.
fn module_in(alloc: Global, text: &[u8]) -> Result<Module, TextStop>
    ensures { Makes (spec.module_from_text text.now) result }
{
    let marked = cut(alloc, text)?;
    let lines = all_lines(alloc, marked.as_slice(), text.len() as u64)?;
    module_of(alloc, lines)
}

/// The module that a text spells.
fn read_text(alloc: Global, text: &[u8]) -> Result<Module, TextStop>
    ensures found { IfOk result (λ m. SpellsModule text.now (module_view m)) }
    ensures only { (m : model.Module) → SpellsModule text.now m → IsOrNoMemory result m }
{
    module_in(alloc, text)
}

/// The one module that a text spells: what a translation writes, in any layout (the language is that of "Specifying Systems",
/// the lines those of the translation of A PlusCal User's Manual; which modules are read, and the limits, are this project's
/// choice).
///
/// Expressions have at most height 512, and a text has at most 4294967295 tokens. `Syntax` comes exactly where the text
/// spells no module. Its offset counts bytes from 0: it is that of the first token or byte that can't follow those before it in
/// any text of a module, or the text's length (`refusal`). A text of more than 2^60 bytes, which no memory holds, or with a
/// token of a name at 4 GiB or behind it is answered `NoMemory`.
pub fn read_module(alloc: Global, text: &[u8]) -> Result<Module, TextStop>
    ensures found { IfOk result (λ m. SpellsModule text.now (module_view m)) }
    // What the text spells is answered, unless memory runs out. So `Syntax` comes only where it spells nothing.
    ensures only { (m : model.Module) → SpellsModule text.now m → IsOrNoMemory result m }
    ensures within { IfErr result (IsWithin (length text.now)) }
{
    match read_text(alloc, text) {
        Ok(m) => Ok(m),
        Err(TextStop::Syntax { .. }) => Err(refusal(alloc, text, None)),
        Err(TextStop::NoMemory) => Err(TextStop::NoMemory),
    }
}

/// A text spells at most one module.
pub fn one_module()
    ensures { (text : List ℕ) (m n : model.Module) → SpellsModule text m → SpellsModule text n → m ≡ n }
{}

/// What a text spells has a text of its own: its names are identifiers, and its expressions are well formed and no higher than
/// 512.
pub fn spelled_modules_are_written()
    ensures { (text : List ℕ) (m : model.Module) → SpellsModule text m → IsWritten m }
{}
