// The trees of a process, and the process whose labels are expanded.
ghost use Rattle.std.specs.Prelude.{◌≡◌, map, IfOk};
ghost use Rattle.pgo_bound.specs.State.{variables_of};
ghost use Rattle.pgo_section_list.specs.Sections.{section_view};
ghost use Rattle.pgo_effects.specs.SettingView.{setting_view};
ghost use Rattle.pgo_expand.specs.Module.{own_in};
ghost use Rattle.pgo_meaning.specs.Expansions.{expansions_of, process_bindings, process_expansions};
ghost use Rattle.pgo_meaning.specs.LabelSections.{AreUnlabelled};
ghost use Rattle.pgo_pluscal.specs.PlusCalOf.{process_of};
ghost use Rattle.pgo_sections.specs.Expand.{expansion};
ghost use Rattle.pgo_walk.specs.SettingPlaces.{places_in};

use crate::labels::bindings;
use crate::start::start;
use pgo_base::items::Items;
use pgo_base::results::both;
use pgo_base::text::Text;
use pgo_effects::indexed_archetype::IndexedArchetype;
use pgo_effects::indexed_macros::IndexedMacros;
use pgo_effects::setting::Setting;
use pgo_heads::indexed_spec::IndexedSpec;
use pgo_pluscal::part::Part;
use pgo_pluscal::pluscal::{ExpandedProcess, Trees, set_of_ids};
use pgo_rewrite::indexed_bindings::IndexedBindings;
use pgo_section_list::sections::{Section, sections};
use pgo_syntax::archetype::Archetype;
use pgo_syntax::declaration::Declarations;
use pgo_syntax::process::Process;
use pgo_walk::make::make;
use std::alloc::{AllocError, Global};

/// The tree of a section, by its label.
fn section_tree<'a, 'i>(
    alloc: Global,
    variables: &[Text],
    setting: Setting<'a, 'i>,
    section: &Section<'a>,
) -> Result<(Text, Part), AllocError>
    ensures label { IfOk result (λ p. p.0 ≡ (section_view (setting_view setting.entry) section.now).0) }
    ensures tree { IfOk result (λ p. p.1 ≡ expansion variables.now (places_in setting.entry) (section_view (setting_view setting.entry) section.now).1) }
{
    let state = start(alloc, setting, section)?;
    let part = make(alloc, variables, state);
    both(section.label.copy(alloc), part)
}

/// The trees of sections by their labels.
fn trees_of<'a, 'i>(
    alloc: Global,
    variables: &[Text],
    setting: Setting<'a, 'i>,
    sections: &[Section<'a>],
) -> Result<Vec<(Text, Part)>, AllocError>
    ensures { IfOk result (λ v. v.items ≡ map (λ c. (c.0, expansion variables.now (places_in setting.entry) c.1)) (map (section_view (setting_view setting.entry)) sections.now)) }
{
    let mut list = Vec::with_capacity(alloc, sections.len())?;
    for section in sections {
        list.push(section_tree(alloc, variables, setting, section)?)?;
    }
    Ok(list)
}

/// The trees of a process that runs an archetype.
fn archetype_trees<'a>(
    alloc: Global,
    spec: &IndexedSpec<'a>,
    macros: &IndexedMacros<'_>,
    variables: &[Text],
    process: &'a Process,
    archetype: &'a Archetype,
) -> Result<Trees, AllocError>
    requires unlabelled { AreUnlabelled spec.now.macros }
    requires macros { macros.now ≡ spec.now.macros }
    ensures { IfOk result (λ ts. ts ≡ expansions_of variables.now spec.now.macros process.now.name.name archetype.now (process_bindings spec.now process.now archetype.now)) }
{
    let list = bindings(alloc, spec, process, archetype)?;
    let name = &process.name.name;
    let macros = macros.within()?;
    let indexed = IndexedArchetype::new(alloc, archetype)?;
    let bindings = IndexedBindings::new(alloc, list.as_slice())?;
    let setting = Setting::Process {
        name,
        archetype: &indexed,
        bindings: &bindings,
    };
    let found = sections(alloc, &macros, name, &indexed, &bindings)?;
    Ok(Items::from_vec(trees_of(alloc, variables, setting, found.as_slice())?))
}

/// The trees of a process; none where it hasn't its archetype.
fn process_trees<'a>(
    alloc: Global,
    spec: &IndexedSpec<'a>,
    macros: &IndexedMacros<'_>,
    variables: &[Text],
    process: &'a Process,
) -> Result<Trees, AllocError>
    requires unlabelled { AreUnlabelled spec.now.macros }
    requires macros { macros.now ≡ spec.now.macros }
    requires variables { variables.now ≡ variables_of spec.now }
    ensures { IfOk result (λ ts. ts ≡ process_expansions spec.now process.now) }
{
    match spec.archetype_named(&process.archetype.name) {
        None => Ok(Items::new(alloc)),
        Some(archetype) => archetype_trees(alloc, spec, macros, variables, process, archetype),
    }
}

/// A process whose labels are expanded; `own` are its value parameters and its locals.
pub fn expanded<'a>(
    alloc: Global,
    spec: &IndexedSpec<'a>,
    macros: &IndexedMacros<'_>,
    variables: &[Text],
    process: &'a Process,
    own: Declarations,
) -> Result<ExpandedProcess, AllocError>
    requires unlabelled { AreUnlabelled spec.now.macros }
    requires macros { macros.now ≡ spec.now.macros }
    requires variables { variables.now ≡ variables_of spec.now }
    requires own { own ≡ own_in spec.now.archetypes process.now }
    ensures { IfOk result (λ p. p ≡ process_of spec.now process.now) }
{
    let trees = process_trees(alloc, spec, macros, variables, process)?;
    let ids = set_of_ids(alloc, &process.ids)?;
    let name = process.name.name.copy(alloc)?;
    Ok(ExpandedProcess {
        name,
        ids,
        variables: own,
        trees,
    })
}
