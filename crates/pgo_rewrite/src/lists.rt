// Lists that grow at their end.
ghost use Rattle.std.specs.Prelude.{◌≡◌, [], ◌∷◌, ◌++◌, IfOk};

use std::alloc::AllocError;

/// One item more.
///
/// It is generic, so that no caller has to say how an item of each form is dropped.
pub(crate) fn push_item<T: Drop>(list: &mut Vec<T>, item: T) -> Result<(), AllocError>
    ensures { IfOk result (λ _. list.new.items ≡ list.old.items ++ item ∷ []) }
{
    list.push(item)?;
    Ok(())
}
