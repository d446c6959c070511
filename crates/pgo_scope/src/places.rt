// Sets of macros, by their places among all macros.
ghost use Rattle.std.specs.Prelude.{◌≡◌, ◌||◌, ℕ, nat_eq, IfOk};
ghost use Rattle.pgo_base.specs.Lookup.{Name};
ghost use Rattle.pgo_scope.specs.Binders.{binds, some_binds, some_set_binds};
ghost use Rattle.pgo_scope.specs.Targets.{has_number};
ghost use Rattle.pgo_scope.specs.declared.binders.Binders.{Binders};

use std::alloc::{AllocError, Global};
use std::collections::BTreeSet;

/// Adds this place.
pub fn add_place(place: usize, places: &mut BTreeSet<usize>) -> Result<(), AllocError>
    ensures numbers { IfOk result (λ _. (n : ℕ) → has_number places.new n ≡ has_number places.old n || nat_eq place n) }
    ensures bound { IfOk result (λ _. (b : Binders) (x : Name) → some_binds b places.new x ≡ binds b place x || some_binds b places.old x) }
{
    places.insert(place)?;
    Ok(())
}

/// Adds these places.
fn add_places(more: &BTreeSet<usize>, places: &mut BTreeSet<usize>) -> Result<(), AllocError>
    ensures { IfOk result (λ _. (b : Binders) (x : Name) → some_binds b places.new x ≡ some_binds b more.now x || some_binds b places.old x) }
{
    for place in more.iter() {
        add_place(*place, places)?;
    }
    Ok(())
}

/// The places in these sets and in this one.
pub fn all_places(
    alloc: Global,
    list: &[&BTreeSet<usize>],
    own: &BTreeSet<usize>,
) -> Result<BTreeSet<usize>, AllocError>
    ensures { IfOk result (λ s. (b : Binders) (x : Name) → some_binds b s x ≡ some_set_binds (some_binds b own.now x) b list.now x) }
{
    let mut places = BTreeSet::new(alloc);
    add_places(own, &mut places)?;
    for more in list {
        add_places(more, &mut places)?;
    }
    Ok(places)
}
