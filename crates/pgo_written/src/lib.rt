// The module of an accepted specification has a text, which spells it alone.
#![tactic(auto)]

ghost use Rattle.std.specs.Prelude.{◌≤◌, ℕ, List, length};
ghost use Rattle.pgo_base.specs.Data.{Data};
ghost use Rattle.pgo_base.specs.Lookup.{Name};
ghost use Rattle.pgo_syntax.specs.declared.spec.Spec.{Spec};
ghost use Rattle.pgo_mpcal_read.specs.Texts.{SpellsSpec};
ghost use Rattle.pgo_accept.specs.Answers.{NothingRefuses};
ghost use Rattle.pgo_model.specs.ModuleText.{Text};
ghost use Rattle.pgo_expr_read.specs.Texts.{most_tokens};
ghost use Rattle.pgo_translate.specs.ModuleOf.{module_of};
ghost use Rattle.pgo_module_spells.specs.Written.{IsWritten};
ghost use Rattle.pgo_written.specs.Alone.{SpellsAlone};

use pgo_module_read::read::one_module;
use pgo_module_write::laws::canonical_modules_are_spelled;

/// The law of written modules: of a specification that a text spells, where nothing refuses it with these constants, neither the rules
/// of names, of labels and of binding nor the limits of its expansion, the module is one that some text spells (`IsWritten` of
/// `pgo_module_spells`): its names are identifiers of at most 512 bytes, its expressions are well formed and no higher than 512, and
/// it has a process or more, each with its label actions.
///
/// Source: this project's choice.
pub fn modules_are_written()
    ensures { (text : List ℕ) (s : Spec) (consts : List (Name × Data)) → SpellsSpec text s → NothingRefuses s consts → IsWritten (module_of s) }
{}

/// The canonical text of the module of such a specification spells that module and no other, where it is no longer than a text may have
/// tokens. So what is written of the module is read back as it was.
///
/// Source: this project's choice.
pub fn modules_are_read_back()
    ensures { (text : List ℕ) (s : Spec) (consts : List (Name × Data)) → SpellsSpec text s → NothingRefuses s consts → length (Text (module_of s)) ≤ most_tokens → SpellsAlone (Text (module_of s)) (module_of s) }
{
    modules_are_written();
    canonical_modules_are_spelled();
    one_module();
}
