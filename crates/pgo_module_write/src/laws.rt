// What the canonical text of a module spells.
ghost use Rattle.std.specs.Prelude.{◌≤◌, length};
ghost use Rattle.pgo_model.specs.Module.{Module};
ghost use Rattle.pgo_model.specs.ModuleText.{Text};
ghost use Rattle.pgo_expr_read.specs.Texts.{most_tokens};
ghost use Rattle.pgo_module_spells.specs.Spells.{SpellsModule};
ghost use Rattle.pgo_module_spells.specs.Written.{IsWritten};

use pgo_lexer::laws::signs_end;

/// The canonical text of a module that has one spells it, where it is no longer than a text may have tokens.
pub fn canonical_modules_are_spelled()
    ensures { (m : Module) → IsWritten m → length (Text m) ≤ most_tokens → SpellsModule (Text m) m }
{
    signs_end();
}
