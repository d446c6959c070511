// The names that the code gives to the labels of a process.
ghost use Rattle.std.specs.Prelude.{◌≡◌, IfOk};
ghost use Rattle.pgo_effects.specs.SettingView.{setting_view};
ghost use Rattle.pgo_meaning.specs.Statements.{label_of};

use crate::setting::Setting;
use pgo_base::text::Text;
use pgo_syntax::name::written_name;
use std::alloc::{AllocError, Global};

/// The written name of a label in the setting; `Done` stays as it is.
///
/// Err where there is no memory.
pub fn written_label(alloc: Global, setting: Setting<'_, '_>, x: &Text) -> Result<Text, AllocError>
    ensures { IfOk result (λ t. t ≡ label_of (setting_view setting.entry).process x.now) }
{
    let done = Text::from_slice(alloc, b"Done")?;
    if x.is(&done) {
        Ok(done)
    } else {
        written_name(alloc, setting.process(), x)
    }
}
