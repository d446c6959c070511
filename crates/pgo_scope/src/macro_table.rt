// Macros, with the usage of their parameters.
ghost use Rattle.std.specs.Prelude.{◌≡◌, [], ◌++◌, map, option_map, IfOk};
ghost use Rattle.pgo_base.specs.ExprView.{tree};
ghost use Rattle.pgo_base.specs.Lookup.{Name};
ghost use Rattle.pgo_uses.specs.Uses.{inside};
ghost use Rattle.pgo_uses.specs.AllUses.{names_of};
ghost use Rattle.pgo_scope.specs.MacroTableView.{see_table, see_parameters, see_usage};
ghost use Rattle.pgo_scope.specs.NameUsage.{usage_of};
ghost use Rattle.pgo_scope.specs.Usage as spec;

use crate::name_usage::NameUsage;
use crate::usage::{Usage, join, left_base, left_shape, only, read_usage, write_usage};
use pgo_base::expr::Expr;
use pgo_base::text::Text;
use pgo_syntax::macros::Macro;
use pgo_syntax::name::PlacedName;
use pgo_uses::names::Names;
use pgo_uses::unit_uses::add_macro;
use pgo_uses::uses::{Around, Form, Shape, Use};
use pgo_uses::walk::add_uses;
use std::alloc::{AllocError, Global};

/// A parameter with its usage.
#[derive(Drop)]
pub struct ParameterUsage {
    pub name: Text,
    pub usage: Usage,
}

/// The parameters of a macro.
#[derive(Drop)]
pub struct Parameters {
    pub list: Vec<ParameterUsage>,
}

/// The names of all macros, and the parameters of the first of them.
#[derive(Clone, Copy)]
pub struct MacroTable<'a> {
    pub names: &'a Names,
    pub list: &'a [Parameters],
}

/// Adds the names in the path of a left side.
pub fn add_left_uses(
    alloc: Global,
    around: Around,
    e: &Expr,
    out: &mut Vec<Use>,
) -> Result<(), AllocError>
    ensures { IfOk result (λ _. out.new.items ≡ out.old.items ++ spec.left_uses [] around (tree e.now)) }
{
    match e {
        Expr::Index(f, list) => match only(list) {
            Some(i) => {
                add_left_uses(alloc, around, f.get(), out)?;
                add_uses(alloc, plainly(around), i, out)
            }
            None => Ok(()),
        },
        Expr::Field(r, _) => add_left_uses(alloc, around, r.get(), out),
        _ => Ok(()),
    }
}

/// What is known in an operand.
pub fn plainly(around: Around) -> Around
    ensures { result ≡ inside around }
{
    let mut there = around;
    there.indexed = false;
    there
}

/// What is known where a parameter is read so.
pub fn read_around(around: Around, hidden: bool, indexed: bool) -> Around
    ensures { result ≡ record around { hidden = hidden; indexed = indexed } }
{
    let mut there = around;
    there.hidden = hidden;
    there.indexed = indexed;
    there
}

/// Adds the usage of names, where an expression is put where a parameter is read so, if it is.
#[tactic(auto, using(crate::proofs::Gathering::not_used, crate::proofs::Gathering::reads_after))]
fn add_read_if(
    alloc: Global,
    is: bool,
    hidden: bool,
    indexed: bool,
    around: Around,
    e: &Expr,
    found: &mut NameUsage,
) -> Result<(), AllocError>
    ensures { IfOk result (λ _. (p : Name) → usage_of found.new p ≡ spec.either_usage (usage_of found.old p) (spec.usage_if is (spec.reads_at hidden indexed around p (tree e.now)))) }
{
    if !is {
        return Ok(());
    }
    let mut uses = Vec::new(alloc);
    add_uses(alloc, read_around(around, hidden, indexed), e, &mut uses)?;
    found.add_reads(alloc, uses.as_slice())?;
    Ok(())
}

/// Adds the variable of a left side, which is assigned so.
#[tactic(auto, using(crate::proofs::Gathering::not_used))]
fn add_base(
    alloc: Global,
    base: Option<&Text>,
    shape: Shape,
    found: &mut NameUsage,
) -> Result<(), AllocError>
    ensures { IfOk result (λ _. (p : Name) → usage_of found.new p ≡ spec.either_usage (usage_of found.old p) (spec.base_usage p (option_map (λ x. x.now) base.entry) shape)) }
{
    match base {
        Some(x) => found.add(alloc, x, write_usage(shape)),
        None => Ok(()),
    }
}

/// Adds the usage of names, where an expression is put where a parameter is assigned and this follows, if it is.
fn add_write_if(
    alloc: Global,
    is: bool,
    shape: Shape,
    around: Around,
    e: &Expr,
    found: &mut NameUsage,
) -> Result<(), AllocError>
    ensures { IfOk result (λ _. (p : Name) → usage_of found.new p ≡ spec.either_usage (usage_of found.old p) (spec.usage_if is (spec.writes_at shape around p (tree e.now)))) }
{
    if !is {
        return Ok(());
    }
    add_base(alloc, left_base(e), join(left_shape(e), shape), found)?;
    let mut uses = Vec::new(alloc);
    add_left_uses(alloc, plainly(around), e, &mut uses)?;
    found.add_reads(alloc, uses.as_slice())?;
    Ok(())
}

/// Adds the usage of names, where an expression is put for a parameter of this usage.
fn add_passed(
    alloc: Global,
    w: Usage,
    around: Around,
    e: &Expr,
    found: &mut NameUsage,
) -> Result<(), AllocError>
    ensures { IfOk result (λ _. (p : Name) → usage_of found.new p ≡ spec.either_usage (usage_of found.old p) (spec.passed_usage w around p (tree e.now))) }
{
    add_read_if(alloc, w.plain, false, false, around, e, found)?;
    add_read_if(alloc, w.indexed, false, true, around, e, found)?;
    add_read_if(alloc, w.hidden, true, false, around, e, found)?;
    add_read_if(alloc, w.hidden_indexed, true, true, around, e, found)?;
    add_write_if(alloc, w.bare, Shape::Bare, around, e, found)?;
    add_write_if(alloc, w.one_index, Shape::OneIndex, around, e, found)?;
    add_write_if(alloc, w.further, Shape::Further, around, e, found)?;
    Ok(())
}

/// Adds the usage of names in the arguments of a call of a macro with these parameters.
fn add_call(
    alloc: Global,
    params: &[ParameterUsage],
    around: Around,
    args: &[Expr],
    found: &mut NameUsage,
) -> Result<(), AllocError>
    ensures { IfOk result (λ _. (p : Name) → usage_of found.new p ≡ spec.call_usage_from (usage_of found.old p) (map see_usage params.now) around p (map tree args.now)) }
{
    for (i, q) in params.iter().enumerate() {
        let Some(e) = args.get(i) else {
            return Ok(());
        };
        add_passed(alloc, q.usage, around, e, found)?;
    }
    Ok(())
}

/// The parameters of the macro of this name; none where it is not among the first ones.
pub fn parameters_of<'a>(table: &MacroTable<'a>, name: &Text) -> &'a [ParameterUsage]
    ensures { map see_usage result.now ≡ spec.parameters_of (see_table table.now) name.now }
{
    let Some(i) = table.names.position(name) else {
        return &[];
    };
    match table.list.get(i) {
        Some(k) => k.list.as_slice(),
        None => &[],
    }
}

/// Adds the usage of names by this use: of its own name, and of those in its arguments.
#[tactic(auto, using(crate::proofs::Gathering::not_used, crate::proofs::Gathering::call_after))]
fn add_use(
    alloc: Global,
    table: &MacroTable<'_>,
    u: &Use,
    found: &mut NameUsage,
) -> Result<(), AllocError>
    ensures { IfOk result (λ _. (p : Name) → usage_of found.new p ≡ spec.either_usage (usage_of found.old p) (spec.usage_by (see_table table.now) p u.now u.now.form)) }
{
    match &u.form {
        Form::Alone => {
            if u.around.passed {
                return Ok(());
            }
            let usage = read_usage(u.around.hidden, u.around.indexed);
            found.add(alloc, &u.name, usage)
        }
        Form::Assigned(shape) => found.add(alloc, &u.name, write_usage(*shape)),
        Form::Called(list) => {
            let params = parameters_of(table, &u.name);
            add_call(alloc, params, u.around, list.as_slice(), found)?;
            Ok(())
        }
        _ => Ok(()),
    }
}

/// The usage of names by all of these.
fn usage_in(alloc: Global, table: &MacroTable<'_>, uses: &[Use]) -> Result<NameUsage, AllocError>
    ensures { IfOk result (λ found. (p : Name) → usage_of found p ≡ spec.usage_in (see_table table.now) p uses.now) }
{
    let mut found = NameUsage::new(alloc);
    for u in uses {
        add_use(alloc, table, u, &mut found)?;
    }
    Ok(found)
}

/// Each of these parameters with its usage.
fn each_parameter(
    alloc: Global,
    table: &MacroTable<'_>,
    uses: &[Use],
    names: &[PlacedName],
) -> Result<Parameters, AllocError>
    ensures { IfOk result (λ v. see_parameters v ≡ spec.each_parameter (see_table table.now) uses.now (names_of names.now)) }
{
    let found = usage_in(alloc, table, uses)?;
    let mut list = Vec::new(alloc);
    for x in names {
        let usage = found.of(&x.name);
        let name = x.name.copy(alloc)?;
        list.push(ParameterUsage { name, usage })?;
    }
    Ok(Parameters { list })
}

/// The parameters of each of these macros, with their usage, by the macros before it.
pub fn all_parameters(
    alloc: Global,
    macros: &Names,
    list: &[Macro],
) -> Result<Vec<Parameters>, AllocError>
    ensures { IfOk result (λ v. (macros.now, map see_parameters v.items) ≡ spec.macro_table_by macros.now list.now) }
{
    let mut made: Vec<Parameters> = Vec::new(alloc);
    for (i, m) in list.iter().enumerate() {
        let mut uses = Vec::new(alloc);
        add_macro(alloc, i, m, &mut uses)?;
        let table = MacroTable {
            names: macros,
            list: made.as_slice(),
        };
        let params = each_parameter(alloc, &table, uses.as_slice(), m.params.as_slice())?;
        made.push(params)?;
    }
    Ok(made)
}
