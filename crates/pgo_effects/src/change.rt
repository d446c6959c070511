// What an assignment does when all its expressions have been evaluated.
ghost use Rattle.std.specs.Prelude.{◌≡◌, IfOk};
ghost use Rattle.pgo_base.specs.ExprView.{tree};
ghost use Rattle.pgo_effects.specs.PlaceView.{place_view};
ghost use Rattle.pgo_effects.specs.Todos.{change_code};
ghost use Rattle.pgo_sections.specs.Code.{Set};

use crate::place::Place;
use pgo_base::expr::Expr;
use pgo_base::results::both;
use pgo_base::text::Text;
use pgo_rewrite::mapped::Mapped;
use std::alloc::{AllocError, Global};

/// What an assignment does when all its expressions have been evaluated.
#[derive(Drop)]
pub enum Change<'a> {
    /// nothing: no variable has the name
    Nothing,
    /// the place becomes what the name stands for
    Become(Place, Text),
    /// the place becomes the value of the expression; the first is the base of the name that the value gets
    Set(Text, Place, Expr),
    /// the mapped parameter, or its element at what the first name stands for, is written: what the second name stands for
    Write(Mapped<'a>, Option<Text>, Text),
}

/// The name once more, if there is one.
fn copy_name(alloc: Global, x: &Option<Text>) -> Result<Option<Text>, AllocError>
    ensures { IfOk result (λ y. y ≡ x.now) }
{
    match x {
        None => Ok(None),
        Some(x) => Ok(Some(x.copy(alloc)?)),
    }
}

/// The assignment of an expression once more.
fn copy_set<'a>(alloc: Global, base: &Text, p: &Place, e: &Expr) -> Result<Change<'a>, AllocError>
    ensures { IfOk result (λ c. change_code c ≡ Set base.now (place_view p.now) (tree e.now)) }
{
    let names = both(base.copy(alloc), p.copy(alloc));
    let ((base, p), e) = both(names, e.copy(alloc))?;
    Ok(Change::Set(base, p, e))
}

impl<'a> Change<'a> {
    /// The same once more.
    pub fn copy(&self, alloc: Global) -> Result<Change<'a>, AllocError>
        ensures { IfOk result (λ c. change_code c ≡ change_code self.now) }
    {
        match self {
            Change::Nothing => Ok(Change::Nothing),
            Change::Become(p, w) => {
                let (p, w) = both(p.copy(alloc), w.copy(alloc))?;
                Ok(Change::Become(p, w))
            }
            Change::Set(base, p, e) => copy_set(alloc, base, p, e),
            Change::Write(m, i, w) => {
                let (i, w) = both(copy_name(alloc, i), w.copy(alloc))?;
                Ok(Change::Write(*m, i, w))
            }
        }
    }
}
