// Values that get made names.
ghost use Rattle.std.specs.Prelude.{◌≡◌, ◌∷◌, [], suc, option_map, IfOk};
ghost use Rattle.pgo_model.specs.Written.{made};
ghost use Rattle.pgo_sections.specs.Expand.{content_now, value_handed};

use crate::made::{Made, make_name};
use pgo_base::text::Text;
use pgo_rewrite::shared::Shared;
use std::alloc::{AllocError, Global};
use std::mem::replace;

/// One more. Err where it doesn't fit.
fn after(n: u64) -> Result<u64, AllocError>
    ensures { IfOk result (λ m. m ≡ suc n) }
{
    match n.checked_add(1) {
        Some(m) => Ok(m),
        None => Err(AllocError),
    }
}

/// The name of the next value on the path, which is then bound.
///
/// Err where there is no memory, or more than 2^64 - 1 names are bound.
pub fn bind(alloc: Global, bound: &mut u64, base: &[u8]) -> Result<Text, AllocError>
    ensures name { IfOk result (λ y. y ≡ made base.now (suc bound.old)) }
    ensures bound { IfOk result (λ _. bound.new ≡ suc bound.old) }
{
    let n = after(*bound)?;
    let name = make_name(alloc, base, n)?;
    *bound = n;
    Ok(name)
}

/// From here on the made name stands for x.
pub fn rename(alloc: Global, names: &mut Made, x: &Text, made: &Text) -> Result<(), AllocError>
    ensures { IfOk result (λ _. names.new ≡ (x.now, made.now) ∷ names.old) }
{
    let x = x.copy(alloc)?;
    let made = made.copy(alloc)?;
    names.push(x, made)
}

/// What stands for names, where this is all that does.
fn one_renamed(alloc: Global, x: &[u8], made: &Text) -> Result<Made, AllocError>
    ensures { IfOk result (λ names. names ≡ (x.now, made.now) ∷ []) }
{
    let x = Text::from_slice(alloc, x)?;
    let mut names = Shared::new(alloc);
    rename(alloc, &mut names, &x, made)?;
    Ok(names)
}

/// Enters a block whose content is at first under this made name. Gives the current values before it.
pub fn enter(alloc: Global, current: &mut Made, old: &Text) -> Result<Made, AllocError>
    ensures before { IfOk result (λ before. before ≡ current.old) }
    ensures content { IfOk result (λ _. current.new ≡ content_now old.now) }
{
    let content = one_renamed(alloc, b"$variable", old)?;
    Ok(replace(current, content))
}

/// What stands for names in a block that writes what w stands for, if anything does.
pub fn handed(alloc: Global, value: Option<&Text>) -> Result<Made, AllocError>
    ensures { IfOk result (λ names. names ≡ value_handed (option_map (λ y. y.now) value.entry)) }
{
    match value {
        None => Ok(Shared::new(alloc)),
        Some(made) => one_renamed(alloc, b"$value", made),
    }
}
