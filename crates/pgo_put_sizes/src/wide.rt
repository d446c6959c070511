// Whether a level of code has more nodes than are left, with the arguments of macros in place.
ghost use Rattle.std.specs.Prelude.{◌≡◌, ◌<◌, true, IfOk};
ghost use Rattle.pgo_effects.specs.SettingView.{setting_view};
ghost use Rattle.pgo_effects.specs.Todos.{code_of};
ghost use Rattle.pgo_put_sizes.specs.Least.{least};

use crate::blocks::all_yield;
use crate::counted::take_todo;
use pgo_effects::setting::Setting;
use pgo_effects::todo::Todo;
use std::alloc::{AllocError, Global};

/// Whether the expressions of one level of the code have more nodes than are left, with the arguments of the macros around them in
/// place. None of them is made.
///
/// False where they have not, of code that evaluates no expression, and where some mapping macro's read has no path to a `yield`: what
/// stands behind such a read isn't in the expansion. Err only where there is no memory.
pub fn is_wide<'a>(
    alloc: Global,
    setting: Setting<'a, '_>,
    todo: &Todo<'a>,
    left: u64,
) -> Result<bool, AllocError>
    ensures { IfOk result (λ b. b ≡ true → left < least (code_of (setting_view setting.entry) todo.now)) }
{
    let rest = take_todo(alloc, todo, left)?;
    match rest {
        Some(_) => Ok(false),
        None => Ok(all_yield(setting.bindings())),
    }
}
