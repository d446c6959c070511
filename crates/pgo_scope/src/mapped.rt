// Rule 6: a mapped parameter is read or assigned in a form in which it may not be.
ghost use Rattle.std.specs.Prelude.{◌≡◌, ◌++◌, map, option_map, IfOk, flat_map};
ghost use Rattle.pgo_base.specs.ExprView.{tree};
ghost use Rattle.pgo_scope.specs.Findings.{found_where};
ghost use Rattle.pgo_scope.specs.MacroTableView.{see_table, see_usage};
ghost use Rattle.pgo_scope.specs.Mapped as spec;

use crate::finding::{Cause, Finding, add_if};
use crate::macro_table::{
    MacroTable, ParameterUsage, add_left_uses, parameters_of, plainly, read_around,
};
use crate::units::UnitNames;
use crate::usage::{Usage, join, left_base, left_shape};
use pgo_base::expr::Expr;
use pgo_base::text::Text;
use pgo_syntax::archetype::{Extent, ParameterKind};
use pgo_uses::uses::{Around, Form, Home, Shape, Use};
use pgo_uses::walk::add_uses;
use std::alloc::{AllocError, Global};

/// What a name of an archetype is to this rule: a parameter that is mapped as a whole or one element at a time, or
/// neither.
#[derive(Clone, Copy)]
pub enum Mapped {
    Unmapped,
    AsWhole,
    ByElement,
}

pub fn mapped_kind(named: bool, kind: ParameterKind) -> Mapped
    ensures { result ≡ spec.mapped_kind named kind }
{
    match kind {
        ParameterKind::Value => Mapped::Unmapped,
        ParameterKind::Ref(Extent::Element) => Mapped::ByElement,
        ParameterKind::Ref(Extent::Whole) => {
            if named {
                Mapped::AsWhole
            } else {
                Mapped::Unmapped
            }
        }
    }
}

/// What the name is there.
fn mapped_in(units: &UnitNames<'_>, home: Home, x: &Text) -> Mapped
    ensures { result ≡ spec.mapped_in units.now.spec.now home x.now }
{
    match home {
        Home::Body(j) => units.mapped(j, x),
        _ => Mapped::Unmapped,
    }
}

fn wrong_read(around: Around, mapped: Mapped) -> bool
    ensures { result ≡ spec.wrong_read around mapped }
{
    match mapped {
        Mapped::Unmapped => false,
        Mapped::AsWhole => around.hidden,
        Mapped::ByElement => around.hidden || !around.indexed,
    }
}

fn wrong_write(shape: Shape, mapped: Mapped) -> bool
    ensures { result ≡ spec.wrong_write shape mapped }
{
    match (mapped, shape) {
        (Mapped::Unmapped, _) => false,
        (Mapped::AsWhole, Shape::Bare) => false,
        (Mapped::AsWhole, _) => true,
        (Mapped::ByElement, Shape::OneIndex) => false,
        (Mapped::ByElement, _) => true,
    }
}

fn add_mapped_read(
    alloc: Global,
    units: &UnitNames<'_>,
    u: &Use,
    out: &mut Vec<Finding>,
) -> Result<(), AllocError>
    ensures { IfOk result (λ _. out.new.items ≡ out.old.items ++ spec.mapped_read units.now.spec.now u.now) }
{
    let wrong = wrong_read(u.around, mapped_in(units, u.around.home, &u.name));
    let cause = Cause::MappedReadHere;
    add_if(alloc, wrong, cause, u.around.place, &u.name, out)
}

fn add_mapped_write(
    alloc: Global,
    units: &UnitNames<'_>,
    around: Around,
    x: &Text,
    shape: Shape,
    out: &mut Vec<Finding>,
) -> Result<(), AllocError>
    ensures { IfOk result (λ _. out.new.items ≡ out.old.items ++ spec.mapped_write units.now.spec.now around x.now shape) }
{
    let wrong = wrong_write(shape, mapped_in(units, around.home, x));
    add_if(alloc, wrong, Cause::MappedReadHere, around.place, x, out)
}

/// Adds what is wrong with the names that are read among these.
fn add_read_uses(
    alloc: Global,
    units: &UnitNames<'_>,
    uses: &[Use],
    out: &mut Vec<Finding>,
) -> Result<(), AllocError>
    ensures { IfOk result (λ _. out.new.items ≡ out.old.items ++ flat_map (spec.read_use units.now.spec.now) uses.now) }
{
    for u in uses {
        let Form::Alone = &u.form else {
            continue;
        };
        add_mapped_read(alloc, units, u, out)?;
    }
    Ok(())
}

/// Adds what is wrong with an argument where its parameter is read so, if it is.
fn add_argument_read(
    alloc: Global,
    units: &UnitNames<'_>,
    is: bool,
    around: Around,
    e: &Expr,
    out: &mut Vec<Finding>,
) -> Result<(), AllocError>
    ensures { IfOk result (λ _. out.new.items ≡ out.old.items ++ found_where is (spec.argument_read units.now.spec.now around around.hidden around.indexed (tree e.now))) }
{
    if !is {
        return Ok(());
    }
    let mut uses = Vec::new(alloc);
    add_uses(alloc, around, e, &mut uses)?;
    add_read_uses(alloc, units, uses.as_slice(), out)
}

fn add_base_written(
    alloc: Global,
    units: &UnitNames<'_>,
    around: Around,
    base: Option<&Text>,
    shape: Shape,
    out: &mut Vec<Finding>,
) -> Result<(), AllocError>
    ensures { IfOk result (λ _. out.new.items ≡ out.old.items ++ spec.base_written units.now.spec.now around (option_map (λ x. x.now) base.entry) shape) }
{
    match base {
        Some(x) => add_mapped_write(alloc, units, around, x, shape, out),
        None => Ok(()),
    }
}

/// Adds what is wrong with an argument where its parameter is assigned and this follows, if it is.
fn add_argument_written(
    alloc: Global,
    units: &UnitNames<'_>,
    is: bool,
    around: Around,
    shape: Shape,
    e: &Expr,
    out: &mut Vec<Finding>,
) -> Result<(), AllocError>
    ensures { IfOk result (λ _. out.new.items ≡ out.old.items ++ found_where is (spec.argument_written units.now.spec.now around shape (tree e.now))) }
{
    if !is {
        return Ok(());
    }
    let whole = join(left_shape(e), shape);
    add_base_written(alloc, units, around, left_base(e), whole, out)?;
    let mut uses = Vec::new(alloc);
    add_left_uses(alloc, plainly(around), e, &mut uses)?;
    add_read_uses(alloc, units, uses.as_slice(), out)
}

/// Adds what is wrong with an argument as its parameter is read.
fn add_argument_reads(
    alloc: Global,
    units: &UnitNames<'_>,
    around: Around,
    w: Usage,
    e: &Expr,
    out: &mut Vec<Finding>,
) -> Result<(), AllocError>
    ensures { IfOk result (λ _. out.new.items ≡ out.old.items ++ spec.argument_reads units.now.spec.now around w (tree e.now)) }
{
    let plain = read_around(around, false, false);
    let indexed = read_around(around, false, true);
    let hidden = read_around(around, true, false);
    let both = read_around(around, true, true);
    add_argument_read(alloc, units, w.plain, plain, e, out)?;
    add_argument_read(alloc, units, w.indexed, indexed, e, out)?;
    add_argument_read(alloc, units, w.hidden, hidden, e, out)?;
    add_argument_read(alloc, units, w.hidden_indexed, both, e, out)
}

/// Adds what is wrong with an argument as its parameter is used.
fn add_argument(
    alloc: Global,
    units: &UnitNames<'_>,
    around: Around,
    w: Usage,
    e: &Expr,
    out: &mut Vec<Finding>,
) -> Result<(), AllocError>
    ensures { IfOk result (λ _. out.new.items ≡ out.old.items ++ spec.argument_findings units.now.spec.now around w (tree e.now)) }
{
    add_argument_reads(alloc, units, around, w, e, out)?;
    add_argument_written(alloc, units, w.bare, around, Shape::Bare, e, out)?;
    add_argument_written(alloc, units, w.one_index, around, Shape::OneIndex, e, out)?;
    add_argument_written(alloc, units, w.further, around, Shape::Further, e, out)
}

/// Adds what is wrong with the arguments of a call of a macro with these parameters.
fn add_arguments(
    alloc: Global,
    units: &UnitNames<'_>,
    around: Around,
    params: &[ParameterUsage],
    args: &[Expr],
    out: &mut Vec<Finding>,
) -> Result<(), AllocError>
    ensures { IfOk result (λ _. out.new.items ≡ out.old.items ++ spec.arguments_findings units.now.spec.now around (map see_usage params.now) (map tree args.now)) }
{
    for (i, q) in params.iter().enumerate() {
        let Some(e) = args.get(i) else {
            return Ok(());
        };
        add_argument(alloc, units, around, q.usage, e, out)?;
    }
    Ok(())
}

/// Adds the name where it is a mapped parameter that stands as it may not, or an argument of its macro is.
pub fn add_mapped_use(
    alloc: Global,
    units: &UnitNames<'_>,
    table: &MacroTable<'_>,
    u: &Use,
    out: &mut Vec<Finding>,
) -> Result<(), AllocError>
    ensures { IfOk result (λ _. out.new.items ≡ out.old.items ++ spec.mapped_use units.now.spec.now (see_table table.now) u.now) }
{
    match &u.form {
        Form::Alone => {
            if u.around.passed {
                return Ok(());
            }
            add_mapped_read(alloc, units, u, out)
        }
        Form::Assigned(shape) => add_mapped_write(alloc, units, u.around, &u.name, *shape, out),
        Form::Called(list) => {
            let params = parameters_of(table, &u.name);
            add_arguments(alloc, units, u.around, params, list.as_slice(), out)
        }
        _ => Ok(()),
    }
}
