// A specification whose archetypes and mapping macros are found by name.
ghost use Rattle.std.specs.Prelude.{◌≡◌, option_map, IfOk};
ghost use Rattle.pgo_bound.specs.Runs as specs;

use pgo_base::last_place::first_of_each;
use pgo_base::name_map::NameMap;
use pgo_base::text::Text;
use pgo_syntax::archetype::Archetype;
use pgo_syntax::macros::MappingMacro;
use pgo_syntax::spec::Spec;
use std::alloc::{AllocError, Global};
use std::marker::Model;

/// A specification. An archetype and a mapping macro are found without going over all of them; of several of one name the first counts.
#[derive(Drop)]
pub struct IndexedSpec<'a> {
    spec: &'a Spec,
    archetypes: NameMap<&'a Archetype>,
    mappings: NameMap<&'a MappingMacro>,
}

impl<'a> Model for IndexedSpec<'a> {
    ghost use Rattle.std.specs.Prelude.{◌≡◌};
    ghost use Rattle.std.specs.Coded.{codes};
    ghost use Rattle.pgo_base.specs.Code.{coded_data};
    ghost use Rattle.pgo_base.specs.TreeCode.{coded_tree};
    ghost use Rattle.pgo_base.specs.Lookup.{Name};
    ghost use Rattle.pgo_syntax.specs.StatementCode.{coded_statement};
    ghost use Rattle.pgo_syntax.specs.declared.spec.Spec.{Spec};
    ghost use Rattle.pgo_bound.specs.Runs.{archetype_named, mapping_named};
    ghost use Rattle.pgo_heads.specs.NameMaps.{archetype_in, mapping_in};

    ghost Value = { Spec };

    ghost coded = { Prim.hlevel (codes, coded_data, coded_tree, coded_statement) };

    ghost view = { λ s. s.spec.now };

    ghost invariant = { λ s. ((n : Name) → archetype_in s.archetypes n ≡ archetype_named n s.spec.now.archetypes) × ((n : Name) → mapping_in s.mappings n ≡ mapping_named n s.spec.now.mappings) };
}

impl<'a> IndexedSpec<'a> {
    /// This specification.
    pub fn new(alloc: Global, spec: &'a Spec) -> Result<IndexedSpec<'a>, AllocError>
        ensures { IfOk result (λ s. s ≡ spec.now) }
    {
        let archetypes = first_of_each(alloc, spec.archetypes.as_slice())?;
        let mappings = first_of_each(alloc, spec.mappings.as_slice())?;
        Ok(IndexedSpec {
            spec,
            archetypes,
            mappings,
        })
    }

    /// The specification.
    pub fn spec(&self) -> &'a Spec
        ensures { result.now ≡ self.now }
    {
        self.spec
    }

    /// The first archetype of the name.
    pub fn archetype_named(&self, name: &Text) -> Option<&'a Archetype>
        ensures { option_map (λ r. r.now) result ≡ specs.archetype_named name.now self.now.archetypes }
    {
        self.archetypes.get(name).copied()
    }

    /// The first mapping macro of the name.
    pub fn mapping_named(&self, name: &Text) -> Option<&'a MappingMacro>
        ensures { option_map (λ r. r.now) result ≡ specs.mapping_named name.now self.now.mappings }
    {
        self.mappings.get(name).copied()
    }
}
