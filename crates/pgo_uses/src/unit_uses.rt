// The names that stand in the units of a specification.
ghost use Rattle.std.specs.Prelude.{◌≡◌, [], ◌∷◌, ◌++◌, if◌then◌else◌, IfOk};
ghost use Rattle.pgo_syntax.specs.Statement.{labeled};
ghost use Rattle.pgo_uses.specs.declared.uses.Form.TheVariants as forms;
ghost use Rattle.pgo_uses.specs.Scopes.{in_scope, row_names};
ghost use Rattle.pgo_uses.specs.StatementUses.{uses_of_block, label_uses};
ghost use Rattle.pgo_uses.specs.AllUses as spec;
ghost use Rattle.pgo_uses.specs.Tables.{variable_name, value_name};

use crate::names::Names;
use crate::scopes::Scope;
use crate::statement_pieces::origin_of;
use crate::statement_walk::{add_placed, add_statement};
use crate::uses::{Around, Form, Home, Use};
use crate::walk::{add_uses, add_uses_in};
use pgo_syntax::archetype::{Archetype, Parameter};
use pgo_syntax::binding::Origin;
use pgo_syntax::declaration::{Declaration, Definition};
use pgo_syntax::macros::{Macro, MappingMacro};
use pgo_syntax::name::PlacedName;
use pgo_syntax::process::{Argument, Process};
use pgo_syntax::statement::Block;
use std::alloc::{AllocError, Global};

/// What is known at the beginning of something of this home.
fn start(home: Home, place: u32) -> Around
    ensures { result ≡ spec.start home place }
{
    Around {
        home,
        place,
        hidden: false,
        indexed: false,
        passed: false,
    }
}

/// The form of a name that is declared in a head.
fn head_form(named: bool) -> Form
    ensures { result ≡ (if named then forms.Named else forms.Bound) }
{
    if named { Form::Named } else { Form::Bound }
}

/// Adds names that are declared one after another, each in the scope of those before it.
fn add_heads(
    alloc: Global,
    named: bool,
    names: &mut Names,
    around: Around,
    list: &[PlacedName],
    out: &mut Vec<Use>,
) -> Result<(), AllocError>
    ensures uses { IfOk result (λ _. out.new.items ≡ out.old.items ++ spec.heads (if named then forms.Named else forms.Bound) (row_names names.old) around list.now) }
    ensures names { IfOk result (λ _. row_names names.new ≡ row_names names.old ++ spec.names_of list.now) }
{
    for x in list {
        add_placed(alloc, &Scope::of(names), around, x, head_form(named), out)?;
        names.push(alloc, &x.name, 0)?;
    }
    Ok(())
}

/// The place of the last of these, or the other.
fn last_place(place: u32, list: &[PlacedName]) -> u32
    ensures { result ≡ spec.last_place place list.now }
{
    let mut last = place;
    for x in list {
        last = x.place;
    }
    last
}

/// Adds the names in a block.
fn add_block_uses(
    alloc: Global,
    scope: &Scope<'_>,
    around: Around,
    block: &Block,
    out: &mut Vec<Use>,
) -> Result<(), AllocError>
    ensures { IfOk result (λ _. out.new.items ≡ out.old.items ++ uses_of_block (in_scope scope.now) around (labeled block.now)) }
{
    for s in block.as_slice() {
        add_label_use(alloc, scope, around, &s.label, out)?;
        add_statement(alloc, scope, around, &s.statement, out)?;
    }
    Ok(())
}

fn add_label_use(
    alloc: Global,
    scope: &Scope<'_>,
    around: Around,
    label: &Option<PlacedName>,
    out: &mut Vec<Use>,
) -> Result<(), AllocError>
    ensures { IfOk result (λ _. out.new.items ≡ out.old.items ++ label_uses (in_scope scope.now) around label.now) }
{
    match label {
        Some(l) => add_placed(alloc, scope, around, l, Form::Label, out),
        None => Ok(()),
    }
}

/// Adds the names in a definition of this number.
pub(crate) fn add_definition(
    alloc: Global,
    number: usize,
    d: &Definition,
    out: &mut Vec<Use>,
) -> Result<(), AllocError>
    ensures { IfOk result (λ _. out.new.items ≡ out.old.items ++ spec.definition_uses number d.now) }
{
    let params = d.params.as_slice();
    let around = start(Home::Definition(number), last_place(d.name.place, params));
    let mut names = Names::new(alloc);
    add_heads(alloc, false, &mut names, around, params, out)?;
    add_uses_in(alloc, &Scope::of(&names), around, d.body.get(), out)
}

/// Adds the names in the initial value of a global of this number.
pub(crate) fn add_global(
    alloc: Global,
    number: usize,
    d: &Declaration,
    out: &mut Vec<Use>,
) -> Result<(), AllocError>
    ensures { IfOk result (λ _. out.new.items ≡ out.old.items ++ spec.global_uses number d.now) }
{
    match &d.initial {
        Some(origin) => {
            let around = start(Home::Global(number), d.name.place);
            add_uses(alloc, around, origin_of(origin).get(), out)
        }
        None => Ok(()),
    }
}

/// Adds the names in a macro of this number.
pub fn add_macro(
    alloc: Global,
    number: usize,
    m: &Macro,
    out: &mut Vec<Use>,
) -> Result<(), AllocError>
    ensures { IfOk result (λ _. out.new.items ≡ out.old.items ++ spec.macro_uses number m.now) }
{
    let around = start(Home::Macro(number), m.name.place);
    let mut names = Names::new(alloc);
    add_heads(alloc, true, &mut names, around, m.params.as_slice(), out)?;
    add_block_uses(alloc, &Scope::of(&names), around, &m.body, out)
}

/// Adds the names in a mapping macro, whose content and value have these names.
pub(crate) fn add_mapping(
    alloc: Global,
    scope: &Scope<'_>,
    m: &MappingMacro,
    out: &mut Vec<Use>,
) -> Result<(), AllocError>
    requires { in_scope scope.now ≡ variable_name ∷ value_name ∷ [] }
    ensures { IfOk result (λ _. out.new.items ≡ out.old.items ++ spec.mapping_uses m.now) }
{
    let around = start(Home::Mapping, m.name.place);
    add_block_uses(alloc, scope, around, &m.read, out)?;
    add_block_uses(alloc, scope, around, &m.write, out)
}

/// Adds the parameters of an archetype.
fn add_parameters(
    alloc: Global,
    names: &mut Names,
    around: Around,
    list: &[Parameter],
    out: &mut Vec<Use>,
) -> Result<(), AllocError>
    ensures uses { IfOk result (λ _. out.new.items ≡ out.old.items ++ spec.parameter_uses (row_names names.old) around list.now) }
    ensures names { IfOk result (λ _. row_names names.new ≡ row_names names.old ++ spec.parameter_names list.now) }
{
    for p in list {
        add_placed(alloc, &Scope::of(names), around, &p.name, Form::Named, out)?;
        names.push(alloc, &p.name.name, 0)?;
    }
    Ok(())
}

/// Where the initial value of a local variable stands.
fn initial_home(archetype: usize, origin: &Origin) -> Home
    ensures { result ≡ spec.initial_home archetype origin.now }
{
    match origin {
        Origin::Equals(_) => Home::Initial(archetype),
        Origin::In(_) => Home::InitialSet(archetype),
    }
}

fn add_initial(
    alloc: Global,
    archetype: usize,
    d: &Declaration,
    out: &mut Vec<Use>,
) -> Result<(), AllocError>
    ensures { IfOk result (λ _. out.new.items ≡ out.old.items ++ spec.initial_uses archetype d.now) }
{
    match &d.initial {
        Some(origin) => {
            let around = start(initial_home(archetype, origin), d.name.place);
            add_uses(alloc, around, origin_of(origin).get(), out)
        }
        None => Ok(()),
    }
}

/// Adds the local variables of an archetype, and the names in their initial values.
fn add_locals(
    alloc: Global,
    archetype: usize,
    names: &mut Names,
    around: Around,
    list: &[Declaration],
    out: &mut Vec<Use>,
) -> Result<(), AllocError>
    ensures uses { IfOk result (λ _. out.new.items ≡ out.old.items ++ spec.local_uses archetype (row_names names.old) around list.now) }
    ensures names { IfOk result (λ _. row_names names.new ≡ row_names names.old ++ spec.variable_names list.now) }
{
    for d in list {
        add_placed(alloc, &Scope::of(names), around, &d.name, Form::Named, out)?;
        add_initial(alloc, archetype, d, out)?;
        names.push(alloc, &d.name.name, 0)?;
    }
    Ok(())
}

/// Adds the names in an archetype of this number.
pub fn add_archetype(
    alloc: Global,
    number: usize,
    r: &Archetype,
    out: &mut Vec<Use>,
) -> Result<(), AllocError>
    ensures { IfOk result (λ _. out.new.items ≡ out.old.items ++ spec.archetype_uses number r.now) }
{
    let around = start(Home::Body(number), r.name.place);
    let mut names = Names::new(alloc);
    add_parameters(alloc, &mut names, around, r.params.as_slice(), out)?;
    add_locals(alloc, number, &mut names, around, r.locals.as_slice(), out)?;
    add_block_uses(alloc, &Scope::of(&names), around, &r.body, out)
}

fn add_argument(alloc: Global, argument: &Argument, out: &mut Vec<Use>) -> Result<(), AllocError>
    ensures { IfOk result (λ _. out.new.items ≡ out.old.items ++ spec.value_uses (argument.now ∷ [])) }
{
    match argument {
        Argument::Value(place, e) => {
            let around = start(Home::Argument, *place);
            add_uses(alloc, around, e.get(), out)
        }
        Argument::Ref(_, _) => Ok(()),
    }
}

/// Adds the names in the identifiers and the value arguments of a process.
pub(crate) fn add_process(alloc: Global, p: &Process, out: &mut Vec<Use>) -> Result<(), AllocError>
    ensures { IfOk result (λ _. out.new.items ≡ out.old.items ++ spec.process_uses p.now) }
{
    let around = start(Home::Process, p.name.place);
    add_uses(alloc, around, origin_of(&p.ids).get(), out)?;
    for argument in p.arguments.as_slice() {
        add_argument(alloc, argument, out)?;
    }
    Ok(())
}
