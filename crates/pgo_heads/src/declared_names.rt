// The names that are declared.
ghost use Rattle.std.specs.Prelude.{◌≡◌, map, IfOk};
ghost use Rattle.pgo_base.specs.Lookup.{Name};
ghost use Rattle.pgo_model.specs.Names.{is_among};
ghost use Rattle.pgo_heads.specs.NameMaps.{has_name};

use pgo_base::name_map::NameMap;
use pgo_base::text::Text;
use pgo_syntax::name::PlacedName;
use std::alloc::{AllocError, Global};
use std::marker::Model;

/// Names that are declared. One is found without going over the list.
#[derive(Drop)]
pub struct DeclaredNames<'a> {
    list: &'a [PlacedName],
    names: NameMap<()>,
}

impl<'a> Model for DeclaredNames<'a> {
    ghost use Rattle.std.specs.Prelude.{◌≡◌, List, map};
    ghost use Rattle.pgo_base.specs.Lookup.{Name};
    ghost use Rattle.pgo_model.specs.Names.{is_among};
    ghost use Rattle.pgo_syntax.specs.declared.name.PlacedName.{PlacedName};
    ghost use Rattle.pgo_syntax.specs.NameCode.{coded_placed_names};
    ghost use Rattle.pgo_heads.specs.NameMaps.{has_name};

    ghost Value = { List PlacedName };

    ghost coded = { coded_placed_names };

    ghost view = { λ s. s.list.now };

    ghost invariant = { λ s. (n : Name) → has_name s.names n ≡ is_among n (map (λ d. d.name) s.list.now) };
}

impl<'a> DeclaredNames<'a> {
    /// These names.
    pub fn new(alloc: Global, list: &'a [PlacedName]) -> Result<DeclaredNames<'a>, AllocError>
        ensures { IfOk result (λ d. d ≡ list.now) }
    {
        let names = names_in(alloc, list)?;
        Ok(DeclaredNames { list, names })
    }

    /// Whether this is one of them.
    pub fn has(&self, name: &Text) -> bool
        ensures { result ≡ is_among name.now (map (λ d. d.name) self.now) }
    {
        self.names.contains(name)
    }
}

/// Their names.
fn names_in(alloc: Global, list: &[PlacedName]) -> Result<NameMap<()>, AllocError>
    ensures { IfOk result (λ m. (n : Name) → has_name m n ≡ is_among n (map (λ d. d.name) list.now)) }
{
    let mut names = NameMap::new(alloc);
    for c in list {
        names.set(alloc, &c.name, ())?;
    }
    Ok(names)
}
