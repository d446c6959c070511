// The expansion of a specification.
ghost use Rattle.std.specs.Prelude.{◌≡◌, map, option_map, IfOk};
ghost use Rattle.pgo_bound.specs.State.{variables_of};
ghost use Rattle.pgo_expand.specs.Limits.{Answers, expand_refusal, most_nodes, nodes_in};
ghost use Rattle.pgo_expand.specs.Module.{globals_of, module_height, own_in};
ghost use Rattle.pgo_meaning.specs.Expansions.{trees_of};
ghost use Rattle.pgo_meaning.specs.LabelSections.{AreUnlabelled};
ghost use Rattle.pgo_pluscal.specs.PlusCalOf.{header_of, pluscal_of, process_of};
ghost use Rattle.pgo_sizes.specs.Left.{left_after};
ghost use Rattle.pgo_measure.specs.Heights.{capped};

use crate::errors::ExpandStop;
use crate::heads::heads_height;
use crate::least::is_wide;
use crate::measure::{Left, Names, behind_all};
use crate::names::{globals, variables};
use crate::own::own_of;
use crate::trees::expanded;
use pgo_base::items::{Copied, Items};
use pgo_base::results::both;
use pgo_effects::indexed_macros::IndexedMacros;
use pgo_heads::indexed_spec::IndexedSpec;
use pgo_pluscal::pluscal::{ExpandedProcess, Header, PlusCal};
use pgo_syntax::declaration::{Declarations, Definitions};
use pgo_syntax::spec::Spec;
use std::alloc::{AllocError, Global};

/// The value parameters and the locals of each process.
fn all_own(alloc: Global, spec: &Spec) -> Result<Vec<Declarations>, AllocError>
    ensures { IfOk result (λ v. v.items ≡ map (own_in spec.now.archetypes) spec.now.processes) }
{
    let indexed = IndexedSpec::new(alloc, spec)?;
    let mut list = Vec::new(alloc);
    for process in spec.processes.as_slice() {
        list.push(own_of(alloc, process, &indexed)?)?;
    }
    Ok(list)
}

/// The variables and the globals of a specification.
fn names_of(alloc: Global, spec: &Spec, own: &[Declarations]) -> Result<Names, AllocError>
    requires { own.now ≡ map (own_in spec.now.archetypes) spec.now.processes }
    ensures variables { IfOk result (λ n. n.variables.items ≡ variables_of spec.now) }
    ensures globals { IfOk result (λ n. n.globals.items ≡ globals_of spec.now) }
{
    let variables = variables(alloc, spec, own)?;
    let globals = globals(alloc, spec)?;
    Ok(Names { variables, globals })
}

/// How high the module of a specification is, up to 513; nothing where its trees have more than 1,048,576 nodes.
fn height_within(
    alloc: Global,
    spec: &Spec,
    own: &[Declarations],
    names: &Names,
) -> Result<Option<u64>, AllocError>
    requires unlabelled { AreUnlabelled spec.now.macros }
    requires own { own.now ≡ map (own_in spec.now.archetypes) spec.now.processes }
    requires variables { names.now.variables.items ≡ variables_of spec.now }
    requires globals { names.now.globals.items ≡ globals_of spec.now }
    ensures { IfOk result (λ o. o ≡ option_map (λ m. capped (module_height spec.now)) (left_after most_nodes (nodes_in (trees_of spec.now)))) }
{
    if is_wide(alloc, spec)? {
        return Ok(None);
    }
    let height = heads_height(alloc, spec, own)?;
    let left = Left {
        nodes: 1_048_576,
        height,
    };
    match behind_all(alloc, spec, names, left)? {
        None => Ok(None),
        Some(behind) => Ok(Some(behind.height)),
    }
}

/// The processes of a specification, whose labels are expanded.
fn processes(alloc: Global, spec: &Spec, names: &Names) -> Result<Vec<ExpandedProcess>, AllocError>
    requires unlabelled { AreUnlabelled spec.now.macros }
    requires variables { names.now.variables.items ≡ variables_of spec.now }
    ensures { IfOk result (λ v. v.items ≡ map (process_of spec.now) spec.now.processes) }
{
    let indexed = IndexedSpec::new(alloc, spec)?;
    let macros = IndexedMacros::new(alloc, spec.macros.as_slice())?;
    let mut list = Vec::new(alloc);
    for process in spec.processes.as_slice() {
        let own = own_of(alloc, process, &indexed)?;
        list.push(expanded(
            alloc,
            &indexed,
            &macros,
            names.variables.as_slice(),
            process,
            own,
        )?)?;
    }
    Ok(list)
}

/// The definitions of `define` once more, where it stands there.
fn copy_define(
    alloc: Global,
    define: &Option<Definitions>,
) -> Result<Option<Definitions>, AllocError>
    ensures { IfOk result (λ d. d ≡ define.now) }
{
    match define {
        None => Ok(None),
        Some(definitions) => Ok(Some(definitions.copy(alloc)?)),
    }
}

/// What stands before the algorithm.
fn header(alloc: Global, spec: &Spec) -> Result<Header, AllocError>
    ensures { IfOk result (λ h. h ≡ header_of spec.now) }
{
    let name = spec.name.name.copy(alloc)?;
    let (constants, definitions) = both(spec.constants.copy(alloc), spec.definitions.copy(alloc))?;
    Ok(Header {
        name,
        constants,
        definitions,
    })
}

/// The specification whose labels are expanded.
fn expansion(alloc: Global, spec: &Spec, names: &Names) -> Result<PlusCal, AllocError>
    requires unlabelled { AreUnlabelled spec.now.macros }
    requires variables { names.now.variables.items ≡ variables_of spec.now }
    ensures { IfOk result (λ p. p ≡ pluscal_of spec.now) }
{
    let processes = Items::from_vec(processes(alloc, spec, names)?);
    let (header, name) = both(header(alloc, spec), spec.algorithm.name.copy(alloc))?;
    let globals = spec.globals.copy(alloc)?;
    let define = copy_define(alloc, &spec.define)?;
    Ok(PlusCal {
        header,
        name,
        globals,
        define,
        processes,
    })
}

/// The specification whose labels are expanded, where its height and its nodes are within the limits.
fn expansion_within(
    alloc: Global,
    spec: &Spec,
    names: &Names,
    height: Option<u64>,
) -> Result<PlusCal, ExpandStop>
    requires unlabelled { AreUnlabelled spec.now.macros }
    requires variables { names.now.variables.items ≡ variables_of spec.now }
    requires height { height ≡ option_map (λ m. capped (module_height spec.now)) (left_after most_nodes (nodes_in (trees_of spec.now))) }
    ensures { Answers (expand_refusal spec.now) (pluscal_of spec.now) result }
{
    let Some(height) = height else {
        return Err(ExpandStop::Wide { nodes: 1_048_577 });
    };
    if height > 512 {
        return Err(ExpandStop::Deep { height: 513 });
    }
    match expansion(alloc, spec, names) {
        Ok(expanded) => Ok(expanded),
        Err(_) => Err(ExpandStop::NoMemory),
    }
}

/// What the limits ask of a specification: its names, and its height within the limit on nodes.
#[derive(Drop)]
struct Measured {
    names: Names,
    height: Option<u64>,
}

/// The names of a specification, and its height within the limit on nodes.
fn measured_spec(alloc: Global, spec: &Spec) -> Result<Measured, AllocError>
    requires { AreUnlabelled spec.now.macros }
    ensures variables { IfOk result (λ m. m.names.variables.items ≡ variables_of spec.now) }
    ensures height { IfOk result (λ m. m.height ≡ option_map (λ n. capped (module_height spec.now)) (left_after most_nodes (nodes_in (trees_of spec.now)))) }
{
    let own = all_own(alloc, spec)?;
    let names = names_of(alloc, spec, own.as_slice())?;
    let height = height_within(alloc, spec, own.as_slice(), &names)?;
    Ok(Measured { names, height })
}

/// The expansion of a specification: its heads, and for each label of each process one tree.
///
/// Its condition is that no label stands in a macro, which the rules on labels see to. `Wide` comes exactly where the trees have more
/// than 1,048,576 nodes, and shows 1,048,577; `Deep` exactly where they have not, and an expression of the module is higher than 512,
/// and shows 513. No tree is made before both are known. `NoMemory` may come at any time.
///
/// Source: this project's choice.
pub fn expand(alloc: Global, spec: &Spec) -> Result<PlusCal, ExpandStop>
    requires { AreUnlabelled spec.now.macros }
    ensures { Answers (expand_refusal spec.now) (pluscal_of spec.now) result }
{
    match measured_spec(alloc, spec) {
        Ok(measured) => expansion_within(alloc, spec, &measured.names, measured.height),
        Err(_) => Err(ExpandStop::NoMemory),
    }
}
