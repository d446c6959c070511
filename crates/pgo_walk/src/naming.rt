// Expressions in written names: what the names of a part of the text stand for now.
ghost use Rattle.std.specs.Prelude.{◌≡◌, Some, option_map, IfOk};
ghost use Rattle.pgo_base.specs.ExprView.{tree};
ghost use Rattle.pgo_base.specs.Lookup.{find};
ghost use Rattle.pgo_effects.specs.PlaceView.{place_view};
ghost use Rattle.pgo_model.specs.Options.{on};
ghost use Rattle.pgo_base.specs.Tree.{name};
ghost use Rattle.pgo_sections.specs.Expand as spec;
ghost use Rattle.pgo_walk.specs.SettingPlaces.{places_in};

use crate::contents::{own_now, whole_now};
use crate::made::{Made, made_for};
use pgo_base::expr::{Expr, Sub};
use pgo_base::text::Text;
use pgo_effects::place::{Place, place_named};
use pgo_effects::setting::Setting;
use pgo_rewrite::rewrite::substitute;
use pgo_rewrite::substitution::Substitution;
use std::alloc::{AllocError, Global};

/// What names stand for: first those that the code binds, then the variables.
#[derive(Drop)]
struct Naming<'text, 'place, 'now> {
    setting: Setting<'text, 'place>,
    renames: &'now Made,
    current: &'now Made,
}

/// A place as it is now.
fn place_now(alloc: Global, current: &Made, p: &Place) -> Result<Sub, AllocError>
    ensures { IfOk result (λ s. s ≡ spec.current current.now (place_view p.now)) }
{
    match p {
        Place::Whole(x) => whole_now(alloc, current, x),
        Place::Own(x) => own_now(alloc, current, x),
    }
}

/// The variable of a name as it is now, if it is a variable's.
fn variable_now(
    alloc: Global,
    setting: Setting<'_, '_>,
    current: &Made,
    x: &Text,
) -> Result<Option<Expr>, AllocError>
    ensures { IfOk result (λ o. option_map tree o ≡ option_map (spec.current current.now) (find x.now (places_in setting.entry))) }
{
    let found = place_named(alloc, setting, x)?;
    match found {
        None => Ok(None),
        Some(p) => Ok(Some(place_now(alloc, current, &p)?.into_expr())),
    }
}

impl<'text, 'place, 'now> Substitution for Naming<'text, 'place, 'now> {
    ghost stands = { λ n x. on (option_map (spec.current n.current.now) (find x (places_in n.setting))) (find x n.renames.now) (λ y. Some (name y)) };

    fn tree_for(&self, alloc: Global, x: &Text) -> Result<Option<Expr>, AllocError> {
        match made_for(x, self.renames) {
            Some(made) => Ok(Some(Expr::Name(made.copy(alloc)?))),
            None => variable_now(alloc, self.setting, self.current, x),
        }
    }
}

/// An expression in written names.
pub fn expr_now(
    alloc: Global,
    setting: Setting<'_, '_>,
    renames: &Made,
    current: &Made,
    e: &Expr,
) -> Result<Sub, AllocError>
    ensures { IfOk result (λ r. r ≡ spec.current_tree (places_in setting.entry) renames.now current.now (tree e.now)) }
{
    let names = Naming {
        setting,
        renames,
        current,
    };
    Sub::new(alloc, substitute(alloc, &names, e)?)
}
