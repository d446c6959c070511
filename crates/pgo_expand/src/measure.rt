// How many nodes the trees of a specification have, and how high its module is, without making them.
ghost use Rattle.std.specs.Prelude.{◌≡◌, map, max, option_map, replicate, IfOk};
ghost use Rattle.pgo_bound.specs.State.{variables_of};
ghost use Rattle.pgo_section_list.specs.Sections.{section_view};
ghost use Rattle.pgo_effects.specs.SettingView.{setting_view};
ghost use Rattle.pgo_expand.specs.Measures.{left_view, measured_labels, measured_processes, measured_trees};
ghost use Rattle.pgo_expand.specs.Module.{call_height, globals_of, joined as all_joined};
ghost use Rattle.pgo_meaning.specs.Expansions.{expansions_of, process_bindings, process_expansions};
ghost use Rattle.pgo_meaning.specs.LabelSections.{AreUnlabelled};
ghost use Rattle.pgo_sections.specs.Expand.{expansion};
ghost use Rattle.pgo_measure.specs.Heights.{capped};
ghost use Rattle.pgo_walk.specs.SettingPlaces.{places_in};

use crate::heads::joined_all;
use crate::labels::bindings;
use crate::start::start;
use pgo_base::text::Text;
use pgo_effects::indexed_archetype::IndexedArchetype;
use pgo_effects::indexed_macros::IndexedMacros;
use pgo_effects::setting::Setting;
use pgo_heads::indexed_spec::IndexedSpec;
use pgo_measure::heights::joined;
use pgo_measure::measure::{Size, measure};
use pgo_rewrite::indexed_bindings::IndexedBindings;
use pgo_section_list::sections::{Section, sections};
use pgo_syntax::archetype::Archetype;
use pgo_syntax::process::Process;
use pgo_syntax::spec::Spec;
use std::alloc::{AllocError, Global};

/// The variables and the globals among them, by their written names and in their order.
#[derive(Drop)]
pub struct Names {
    pub variables: Vec<Text>,
    pub globals: Vec<Text>,
}

/// What is left of a limit on nodes, and how high all is so far, up to the most that is told apart.
#[derive(Clone, Copy)]
pub struct Left {
    pub nodes: u64,
    pub height: u64,
}

/// What is left, and how high all is, behind a tree of this size.
fn behind(now: Left, size: Size) -> Left
    ensures nodes { result.nodes ≡ size.left }
    ensures height { result.height ≡ capped (max now.height size.height) }
{
    Left {
        nodes: size.left,
        height: joined(None, now.height.max(size.height)),
    }
}

/// The same, with the height up to the most that is told apart.
fn told_apart(now: Left) -> Left
    ensures nodes { result.nodes ≡ now.nodes }
    ensures height { result.height ≡ capped now.height }
{
    Left {
        nodes: now.nodes,
        height: joined(None, now.height),
    }
}

/// What is left behind the trees of sections; nothing where they have more nodes.
fn behind_sections<'a, 'i>(
    alloc: Global,
    names: &Names,
    setting: Setting<'a, 'i>,
    sections: &[Section<'a>],
    left: Left,
) -> Result<Option<Left>, AllocError>
    ensures { IfOk result (λ o. option_map left_view o ≡ measured_trees names.now.variables.items names.now.globals.items left.nodes left.height (map (λ c. (c.0, expansion names.now.variables.items (places_in setting.entry) c.1)) (map (section_view (setting_view setting.entry)) sections.now))) }
{
    let mut now = left;
    for section in sections {
        let state = start(alloc, setting, section)?;
        let variables = names.variables.as_slice();
        let globals = names.globals.as_slice();
        match measure(alloc, variables, globals, state, now.nodes)? {
            None => return Ok(None),
            Some(size) => now = behind(now, size),
        }
    }
    Ok(Some(told_apart(now)))
}

/// What is left behind the trees of sections, where the calls of their actions count besides.
fn behind_labels<'a, 'i>(
    alloc: Global,
    names: &Names,
    setting: Setting<'a, 'i>,
    sections: &[Section<'a>],
    left: Left,
) -> Result<Option<Left>, AllocError>
    ensures { IfOk result (λ o. option_map left_view o ≡ measured_labels names.now.variables.items names.now.globals.items left.nodes left.height (map (λ c. (c.0, expansion names.now.variables.items (places_in setting.entry) c.1)) (map (section_view (setting_view setting.entry)) sections.now))) }
{
    let calls = calls_height(alloc, sections.len())?;
    let all = Left {
        nodes: left.nodes,
        height: left.height.max(calls),
    };
    behind_sections(alloc, names, setting, sections, all)
}

/// What is left behind the trees of a process that runs an archetype.
fn behind_archetype<'a>(
    alloc: Global,
    spec: &IndexedSpec<'a>,
    macros: &IndexedMacros<'_>,
    names: &Names,
    process: &'a Process,
    archetype: &'a Archetype,
    left: Left,
) -> Result<Option<Left>, AllocError>
    requires unlabelled { AreUnlabelled spec.now.macros }
    requires macros { macros.now ≡ spec.now.macros }
    ensures { IfOk result (λ o. option_map left_view o ≡ measured_labels names.now.variables.items names.now.globals.items left.nodes left.height (expansions_of names.now.variables.items spec.now.macros process.now.name.name archetype.now (process_bindings spec.now process.now archetype.now))) }
{
    let list = bindings(alloc, spec, process, archetype)?;
    let name = &process.name.name;
    let macros = macros.within()?;
    let indexed = IndexedArchetype::new(alloc, archetype)?;
    let bindings = IndexedBindings::new(alloc, list.as_slice())?;
    let setting = Setting::Process {
        name,
        archetype: &indexed,
        bindings: &bindings,
    };
    let found = sections(alloc, &macros, name, &indexed, &bindings)?;
    behind_labels(alloc, names, setting, found.as_slice(), left)
}

/// The height of the calls of so many labels' actions, joined from the left.
fn calls_height(alloc: Global, count: usize) -> Result<u64, AllocError>
    ensures { IfOk result (λ h. h ≡ capped (all_joined (replicate count call_height))) }
{
    let mut calls = Vec::with_capacity(alloc, count)?;
    for k in 0..count {
        let _k = k;
        calls.push(2)?;
    }
    Ok(joined_all(calls.as_slice()))
}

/// What is left behind the trees of a process; it has none where it hasn't its archetype.
fn behind_process<'a>(
    alloc: Global,
    spec: &IndexedSpec<'a>,
    macros: &IndexedMacros<'_>,
    names: &Names,
    process: &'a Process,
    left: Left,
) -> Result<Option<Left>, AllocError>
    requires unlabelled { AreUnlabelled spec.now.macros }
    requires macros { macros.now ≡ spec.now.macros }
    requires variables { names.now.variables.items ≡ variables_of spec.now }
    requires globals { names.now.globals.items ≡ globals_of spec.now }
    ensures { IfOk result (λ o. option_map left_view o ≡ measured_labels (variables_of spec.now) (globals_of spec.now) left.nodes left.height (process_expansions spec.now process.now)) }
{
    match spec.archetype_named(&process.archetype.name) {
        None => Ok(Some(told_apart(left))),
        Some(archetype) => behind_archetype(alloc, spec, macros, names, process, archetype, left),
    }
}

/// What is left behind the trees of all processes.
pub fn behind_all(
    alloc: Global,
    spec: &Spec,
    names: &Names,
    left: Left,
) -> Result<Option<Left>, AllocError>
    requires unlabelled { AreUnlabelled spec.now.macros }
    requires variables { names.now.variables.items ≡ variables_of spec.now }
    requires globals { names.now.globals.items ≡ globals_of spec.now }
    ensures { IfOk result (λ o. option_map left_view o ≡ measured_processes spec.now left.nodes left.height spec.now.processes) }
{
    let indexed = IndexedSpec::new(alloc, spec)?;
    let macros = IndexedMacros::new(alloc, spec.macros.as_slice())?;
    let mut now = left;
    for process in spec.processes.as_slice() {
        match behind_process(alloc, &indexed, &macros, names, process, now)? {
            None => return Ok(None),
            Some(behind) => now = behind,
        }
    }
    Ok(Some(told_apart(now)))
}
