// The module of an expanded specification.
ghost use Rattle.std.specs.Prelude.{◌≡◌, ◌++◌, map, IfOk};
ghost use Rattle.std.specs.List.{flat_map};
ghost use Rattle.pgo_bound.specs.Values.{define_of, meant};
ghost use Rattle.pgo_model.specs.ModuleView.{module_view, process_view};
ghost use Rattle.pgo_syntax.specs.PlacedNames.{names_of};
ghost use Rattle.pgo_translate.specs.ModuleOf as spec;

use crate::init::init;
use crate::labels::actions;
use pgo_base::expr::Names;
use pgo_base::items::{Copied, Items};
use pgo_base::module::{Defined, Defs, Module, Processes, WrittenProcess};
use pgo_base::text::Text;
use pgo_pluscal::pluscal::{ExpandedProcess, PlusCal};
use pgo_syntax::declaration::{Declaration, Definition, Definitions};
use pgo_syntax::name::PlacedName;
use std::alloc::{AllocError, Global};

/// Adds the names of variables.
fn push_declared(
    alloc: Global,
    names: &mut Vec<Text>,
    declarations: &[Declaration],
) -> Result<(), AllocError>
    ensures { IfOk result (λ _. names.new.items ≡ names.old.items ++ spec.declared declarations.now) }
{
    for d in declarations {
        names.push(d.name.name.copy(alloc)?)?;
    }
    Ok(())
}

/// Adds the names of the own variables of each process.
fn push_own(
    alloc: Global,
    names: &mut Vec<Text>,
    processes: &[ExpandedProcess],
) -> Result<(), AllocError>
    ensures { IfOk result (λ _. names.new.items ≡ names.old.items ++ flat_map (λ q. spec.declared q.variables) processes.now) }
{
    for process in processes {
        push_declared(alloc, names, process.variables.as_slice())?;
    }
    Ok(())
}

/// The names of the globals.
fn globals_of(alloc: Global, p: &PlusCal) -> Result<Vec<Text>, AllocError>
    ensures { IfOk result (λ v. v.items ≡ spec.declared p.now.globals) }
{
    let mut names = Vec::new(alloc);
    push_declared(alloc, &mut names, p.globals.as_slice())?;
    Ok(names)
}

/// The names of all variables.
fn variables_in(alloc: Global, p: &PlusCal) -> Result<Vec<Text>, AllocError>
    ensures { IfOk result (λ v. v.items ≡ spec.variables_in p.now) }
{
    let mut names = globals_of(alloc, p)?;
    names.push(Text::from_slice(alloc, b"pc")?)?;
    push_own(alloc, &mut names, p.processes.as_slice())?;
    Ok(names)
}

/// The names without their places.
fn bare_names(alloc: Global, placed: &[PlacedName]) -> Result<Names, AllocError>
    ensures { IfOk result (λ list. list ≡ names_of placed.now) }
{
    let mut list = Names::new(alloc);
    for one in placed {
        list.push(one.name.copy(alloc)?)?;
    }
    Ok(list)
}

/// A definition as the module has it.
fn meant_of(alloc: Global, d: &Definition) -> Result<Defined, AllocError>
    ensures { IfOk result (λ m. m ≡ meant d.now) }
{
    Ok(Defined::Means {
        name: d.name.name.copy(alloc)?,
        params: bare_names(alloc, d.params.as_slice())?,
        body: d.body.copy(alloc)?,
    })
}

/// Adds definitions.
fn push_definitions(
    alloc: Global,
    list: &mut Defs,
    definitions: &[Definition],
) -> Result<(), AllocError>
    ensures { IfOk result (λ _. list.new ≡ list.old ++ map meant definitions.now) }
{
    for d in definitions {
        list.push(meant_of(alloc, d)?)?;
    }
    Ok(())
}

/// Adds the definitions of `define`, where it stands there.
fn push_define(
    alloc: Global,
    list: &mut Defs,
    define: &Option<Definitions>,
) -> Result<(), AllocError>
    ensures { IfOk result (λ _. list.new ≡ list.old ++ map meant (define_of define.now)) }
{
    match define {
        Some(definitions) => push_definitions(alloc, list, definitions.as_slice()),
        None => Ok(()),
    }
}

/// The definitions of the module.
fn definitions(alloc: Global, p: &PlusCal) -> Result<Defs, AllocError>
    ensures { IfOk result (λ list. list ≡ map meant p.now.header.definitions ++ map meant (define_of p.now.define)) }
{
    let mut list = Defs::new(alloc);
    push_definitions(alloc, &mut list, p.header.definitions.as_slice())?;
    push_define(alloc, &mut list, &p.define)?;
    Ok(list)
}

/// A process of the module.
fn process(
    alloc: Global,
    variables: &[Text],
    globals: &[Text],
    q: &ExpandedProcess,
) -> Result<WrittenProcess, AllocError>
    ensures { IfOk result (λ w. process_view w ≡ spec.written_process variables.now globals.now q.now) }
{
    Ok(WrittenProcess {
        name: q.name.copy(alloc)?,
        ids: q.ids.copy(alloc)?,
        actions: actions(alloc, variables, globals, q.trees.as_slice())?,
    })
}

/// The processes of the module.
fn processes(
    alloc: Global,
    variables: &[Text],
    globals: &[Text],
    list: &[ExpandedProcess],
) -> Result<Processes, AllocError>
    ensures { IfOk result (λ ws. map process_view ws ≡ map (spec.written_process variables.now globals.now) list.now) }
{
    let mut written = Processes::new(alloc);
    for q in list {
        written.push(process(alloc, variables, globals, q)?)?;
    }
    Ok(written)
}

/// The processes of a specification's module; variables: all of them.
fn processes_of(alloc: Global, variables: &[Text], p: &PlusCal) -> Result<Processes, AllocError>
    ensures { IfOk result (λ ws. map process_view ws ≡ map (spec.written_process variables.now (spec.declared p.now.globals)) p.now.processes) }
{
    let globals = globals_of(alloc, p)?;
    processes(alloc, variables, globals.as_slice(), p.processes.as_slice())
}

/// The module that an expanded specification means: what stands before its algorithm, the definitions of `define`, its variables
/// with `pc`, Init, and the action of each label of each process.
///
/// `AllocError` comes where there is no memory. Calls go down to the depth of the branch points of a label's tree.
///
/// Source: the translation of A PlusCal User's Manual; that values of a section are bound to made names is this project's choice.
pub fn translate(alloc: Global, p: &PlusCal) -> Result<Module, AllocError>
    ensures { IfOk result (λ m. module_view m ≡ spec.module_with p.now) }
{
    let name = p.header.name.copy(alloc)?;
    let constants = bare_names(alloc, p.header.constants.as_slice())?;
    let definitions = definitions(alloc, p)?;
    let variables = variables_in(alloc, p)?;
    let init = init(alloc, p)?;
    let processes = processes_of(alloc, variables.as_slice(), p)?;
    Ok(Module {
        name,
        constants,
        definitions,
        variables: Items::from_vec(variables),
        init,
        processes,
    })
}
