// The sections of all instances of a bound specification.
ghost use Rattle.std.specs.Prelude.{◌≡◌, map, IfOk};
ghost use Rattle.pgo_meaning.specs.LabelSections.{AreUnlabelled};
ghost use Rattle.pgo_definitions.specs.Meant.{meant};
ghost use Rattle.pgo_effects.specs.SettingView.{setting_view};
ghost use Rattle.pgo_lower.specs.Agree.{AreLowered, IsLowered, bare_section, lowered_section};
ghost use Rattle.pgo_lower.specs.Globals.{tables_in, targets_in};
ghost use Rattle.pgo_meaning.specs.Sections.{sections_of};
ghost use Rattle.pgo_lower.specs.Slots.{slot_views, tables_of};
ghost use Rattle.pgo_section_list.specs.Sections.{section_view as section_code};

use crate::globals::Globals;
use crate::indexed_slots::IndexedSlots;
use crate::names::Names;
use crate::slots::{slots_of, variables};
use crate::turns::instructions;
use pgo_base::module::Defs;
use pgo_base::results::both;
use pgo_code::elements::elements_in;
use pgo_code::program::{Code, Program, Section};
use pgo_effects::indexed_archetype::IndexedArchetype;
use pgo_effects::indexed_macros::IndexedMacros;
use pgo_effects::setting::Setting;
use pgo_rewrite::indexed_bindings::IndexedBindings;
use pgo_section_list::sections::{Section as Listed, sections};
use pgo_syntax::bound::{Bound, Instance};
use std::alloc::{AllocError, Global};

/// How many tasks there may be for one program. Where nothing refuses the specification, it takes fewer than 2^30: each node of
/// its expansion, of which there are at most 2^20, stands for at most ten, in each of at most 64 instances.
const MOST_TASKS: u64 = 4_294_967_296;

/// The section of a label.
fn section<'a>(
    alloc: Global,
    names: &Names<'_, '_, 'a>,
    listed: Listed<'a>,
    left: &mut u64,
) -> Result<Section<'a>, AllocError>
    ensures { IfOk result (λ s. bare_section s ≡ lowered_section (tables_of names.now) (section_code (setting_view names.now.setting) listed.entry)) }
{
    let Listed { label, todos, end } = listed;
    let made = instructions(alloc, names, todos, end, left);
    let (label, instructions) = both(Ok(label), made)?;
    Ok(Section {
        label,
        instructions,
    })
}

/// The sections of these labels.
fn all_sections<'a>(
    alloc: Global,
    names: &Names<'_, '_, 'a>,
    listed: Vec<Listed<'a>>,
    left: &mut u64,
) -> Result<Vec<Section<'a>>, AllocError>
    ensures { IfOk result (λ v. map bare_section v.items ≡ map (lowered_section (tables_of names.now)) (map (section_code (setting_view names.now.setting)) listed.entry.items)) }
{
    let mut list = Vec::new(alloc);
    for one in listed {
        list.push(section(alloc, names, one, left)?)?;
    }
    Ok(list)
}

/// The sections of an instance, of which the names stand for these.
fn sections_with<'a, 't>(
    alloc: Global,
    globals: &'t Globals<'a>,
    macros: &IndexedMacros<'a>,
    i: &'a Instance,
    slots: &'t IndexedSlots,
    left: &mut u64,
) -> Result<Vec<Section<'a>>, AllocError>
    requires unlabelled { AreUnlabelled globals.now.bound.now.spec.macros }
    requires macros { macros.now ≡ globals.now.bound.now.spec.macros }
    requires slots { slot_views slots.now ≡ targets_in globals.now.bound.now i.now }
    ensures { IfOk result (λ v. map bare_section v.items ≡ map (lowered_section (tables_in globals.now.bound.now i.entry.now)) (sections_of globals.now.bound.now.spec.macros i.entry.now.process i.entry.now.archetype i.entry.now.bindings)) }
{
    let indexed = IndexedArchetype::new(alloc, &i.archetype)?;
    let bindings = IndexedBindings::new(alloc, i.bindings.as_slice())?;
    let setting = Setting::Process {
        name: &i.process,
        archetype: &indexed,
        bindings: &bindings,
    };
    let names = Names {
        setting,
        slots,
        globals,
    };
    let listed = sections(alloc, macros, &i.process, &indexed, &bindings)?;
    all_sections(alloc, &names, listed, left)
}

/// What an instance runs.
fn code<'a>(
    alloc: Global,
    globals: &Globals<'a>,
    macros: &IndexedMacros<'a>,
    i: &'a Instance,
    left: &mut u64,
) -> Result<Code<'a>, AllocError>
    requires unlabelled { AreUnlabelled globals.now.bound.now.spec.macros }
    requires macros { macros.now ≡ globals.now.bound.now.spec.macros }
    ensures { IfOk result (λ c. IsLowered globals.now.bound.now i.entry.now c) }
{
    let slots = IndexedSlots::new(alloc, slots_of(alloc, globals, i)?)?;
    let sections = sections_with(alloc, globals, macros, i, &slots, left);
    let (variables, sections) = both(variables(alloc, slots.as_slice()), sections)?;
    Ok(Code {
        variables,
        sections,
    })
}

/// The sections of all instances as instructions, to be run with these definitions, which mean the same as those of what is bound.
///
/// Err where there is no memory, and where a program would take more than 2^32 tasks: two for each level of code (a statement, where
/// a macro's body stands in the place of its call; the rest of a row; further branches of an `if`), two more for an `if`, one more
/// for each arm of an `either`, and one for each section; again in each section that has it, of each instance. (This project's
/// choice.)
pub fn lower<'a>(
    alloc: Global,
    bound: &'a Bound,
    definitions: Defs,
) -> Result<Program<'a>, AllocError>
    requires unlabelled { AreUnlabelled bound.now.spec.macros }
    requires same { meant definitions ≡ meant bound.now.defs }
    ensures bound { IfOk result (λ p. p.bound ≡ bound.entry) }
    ensures definitions { IfOk result (λ p. p.definitions ≡ definitions) }
    ensures codes { IfOk result (λ p. AreLowered bound.entry.now bound.entry.now.instances p.codes.items) }
{
    let globals = Globals::new(alloc, bound)?;
    let macros = IndexedMacros::new(alloc, bound.spec.macros.as_slice())?;
    let elements = elements_in(alloc, bound)?;
    let mut left = MOST_TASKS;
    let mut codes = Vec::new(alloc);
    for i in bound.instances.as_slice() {
        codes.push(code(alloc, &globals, &macros, i, &mut left)?)?;
    }
    Ok(Program {
        bound,
        definitions,
        elements,
        codes,
    })
}
