// What has the form of a bundle, and what is read of a bundle that was brought over.
ghost use Rattle.std.specs.Prelude.{◌≡◌, ◌≤◌, ℕ, List, None, length};
ghost use Rattle.pgo_base.specs.Lookup.{Vars};
ghost use Rattle.pgo_bundle.specs.BundleLog.{BundleLog};
ghost use Rattle.pgo_bundle.specs.Lines.{BundleText};
ghost use Rattle.pgo_bundle.specs.Migrated.{migrated};
ghost use Rattle.pgo_bundle.specs.Untied.{untied_at};
ghost use Rattle.pgo_log_text.specs.IsBundle.{HasForm};
ghost use Rattle.pgo_log_text.specs.ReadBundle.{HasOnlyForm, IsReadBundle};
ghost use Rattle.pgo_model.specs.Module.{Module};
ghost use Rattle.pgo_model.specs.ModuleText.{Text};

use pgo_module_read::read::{one_module, spelled_modules_are_written};
use pgo_module_write::laws::canonical_modules_are_spelled;

/// A text has the form of the bundle of at most one module, one list of constants and one log.
pub fn forms_are_of_one()
    ensures { (text : List ℕ) (m : Module) (consts : Vars) (l : BundleLog) → HasForm text m consts l → HasOnlyForm text m consts l }
{
    one_module();
}

/// Where a bundle's records are tied, the bundle of version 2 of its log (`migrated`) is the bundle of the same module, the same
/// constants and that log, unless the module's text has 2^32 bytes or more.
pub fn migrations_are_read()
    ensures { (text : List ℕ) (m : Module) (consts : Vars) (l : BundleLog) → IsReadBundle text m consts l → untied_at (migrated l) ≡ None → length (Text m) ≤ 4294967295
        → IsReadBundle (BundleText m consts (migrated l)) m consts (migrated l) }
{
    spelled_modules_are_written();
    canonical_modules_are_spelled();
}
