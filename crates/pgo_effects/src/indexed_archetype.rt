// An archetype whose locals are found by name.
ghost use Rattle.std.specs.Prelude.{◌≡◌, IfOk};
ghost use Rattle.pgo_uses.specs.Names.{has_row};
ghost use Rattle.pgo_uses.specs.Tables.{variable_rows};

use pgo_base::text::Text;
use pgo_syntax::archetype::Archetype;
use pgo_syntax::declaration::Declaration;
use pgo_uses::names::Names;
use std::alloc::{AllocError, Global};
use std::marker::Model;

/// An archetype. A local of it is found without going over its locals.
#[derive(Drop)]
pub struct IndexedArchetype<'a> {
    archetype: &'a Archetype,
    names: Names,
}

impl<'a> Model for IndexedArchetype<'a> {
    ghost use Rattle.std.specs.Prelude.{◌≡◌};
    ghost use Rattle.std.specs.Coded.{codes};
    ghost use Rattle.pgo_base.specs.Lookup.{Name};
    ghost use Rattle.pgo_base.specs.TreeCode.{coded_tree};
    ghost use Rattle.pgo_syntax.specs.StatementCode.{coded_statement};
    ghost use Rattle.pgo_syntax.specs.declared.archetype.Archetype.{Archetype};
    ghost use Rattle.pgo_uses.specs.Names.{has_row};
    ghost use Rattle.pgo_uses.specs.Tables.{variable_rows};

    ghost Value = { Archetype };

    ghost coded = { Prim.hlevel (codes, coded_tree, coded_statement) };

    ghost view = { λ a. a.archetype.now };

    ghost invariant = { λ a. (x : Name) → has_row x a.names ≡ has_row x (variable_rows a.archetype.now.locals) };
}

impl<'a> IndexedArchetype<'a> {
    /// This archetype.
    pub fn new(alloc: Global, archetype: &'a Archetype) -> Result<IndexedArchetype<'a>, AllocError>
        ensures { IfOk result (λ a. a ≡ archetype.now) }
    {
        let names = local_names(alloc, archetype.locals.as_slice())?;
        Ok(IndexedArchetype { archetype, names })
    }

    /// The archetype.
    pub fn archetype(&self) -> &'a Archetype
        ensures { result.now ≡ self.now }
    {
        self.archetype
    }

    /// Whether this is the name of a local.
    pub fn has_local(&self, name: &Text) -> bool
        ensures { result ≡ has_row name.now (variable_rows self.now.locals) }
    {
        self.names.has(name)
    }
}

/// The names of locals.
fn local_names(alloc: Global, locals: &[Declaration]) -> Result<Names, AllocError>
    ensures { IfOk result (λ names. names ≡ variable_rows locals.now) }
{
    let mut names = Names::new(alloc);
    for d in locals {
        names.push(alloc, &d.name.name, 0)?;
    }
    Ok(names)
}
