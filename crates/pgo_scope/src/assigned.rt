// Rule 5: what may not be assigned is assigned.
ghost use Rattle.std.specs.Prelude.{◌≡◌, ◌++◌, map, option_map, IfOk};
ghost use Rattle.pgo_base.specs.ExprView.{tree};
ghost use Rattle.pgo_scope.specs.MacroTableView.{see_table, see_usage};
ghost use Rattle.pgo_scope.specs.Assigned as spec;

use crate::finding::{Cause, Finding, add_if};
use crate::macro_table::{MacroTable, ParameterUsage, parameters_of};
use crate::units::UnitNames;
use crate::usage::left_base;
use crate::words::is_word;
use pgo_base::expr::Expr;
use pgo_base::text::Text;
use pgo_uses::uses::{Form, Home, Use};
use std::alloc::{AllocError, Global};

/// Whether the name may be assigned there.
fn may_assign(units: &UnitNames<'_>, home: Home, x: &Text) -> bool
    ensures { result ≡ spec.may_assign units.now.spec.now home x.now }
{
    match home {
        Home::Body(j) => units.is_assignable(j, x),
        Home::Macro(i) => units.is_parameter(i, x),
        Home::Mapping => is_word(x, b"$variable"),
        _ => false,
    }
}

/// Adds what is wrong with an argument for the parameter p, which the macro assigns.
fn add_argument(
    alloc: Global,
    units: &UnitNames<'_>,
    u: &Use,
    p: &Text,
    base: Option<&Text>,
    out: &mut Vec<Finding>,
) -> Result<(), AllocError>
    ensures { IfOk result (λ _. out.new.items ≡ out.old.items ++ spec.assigned_argument units.now.spec.now u.now p.now (option_map (λ x. x.now) base.entry)) }
{
    let (cause, place) = (Cause::AssignedNotRef, u.around.place);
    match base {
        Some(x) => {
            if is_word(x, b"$value") {
                return add_if(alloc, true, cause, place, p, out);
            }
            let wrong = !may_assign(units, u.around.home, x);
            add_if(alloc, wrong, cause, place, x, out)
        }
        None => add_if(alloc, true, cause, place, p, out),
    }
}

fn add_assigned_if(
    alloc: Global,
    units: &UnitNames<'_>,
    u: &Use,
    q: &ParameterUsage,
    e: &Expr,
    out: &mut Vec<Finding>,
) -> Result<(), AllocError>
    ensures { IfOk result (λ _. out.new.items ≡ out.old.items ++ spec.assigned_if units.now.spec.now u.now q.now.name q.now.usage (tree e.now)) }
{
    if !q.usage.is_assigned() {
        return Ok(());
    }
    add_argument(alloc, units, u, &q.name, left_base(e), out)
}

/// Adds what is wrong with the arguments of a call of a macro with these parameters.
fn add_arguments(
    alloc: Global,
    units: &UnitNames<'_>,
    u: &Use,
    params: &[ParameterUsage],
    args: &[Expr],
    out: &mut Vec<Finding>,
) -> Result<(), AllocError>
    ensures { IfOk result (λ _. out.new.items ≡ out.old.items ++ spec.assigned_arguments units.now.spec.now u.now (map see_usage params.now) (map tree args.now)) }
{
    for (i, q) in params.iter().enumerate() {
        let Some(e) = args.get(i) else {
            return Ok(());
        };
        add_assigned_if(alloc, units, u, q, e, out)?;
    }
    Ok(())
}

/// Adds the name where it is assigned and may not be, or an argument of its macro is.
pub fn add_assigned_use(
    alloc: Global,
    units: &UnitNames<'_>,
    table: &MacroTable<'_>,
    u: &Use,
    out: &mut Vec<Finding>,
) -> Result<(), AllocError>
    ensures { IfOk result (λ _. out.new.items ≡ out.old.items ++ spec.assigned_use units.now.spec.now (see_table table.now) u.now) }
{
    match &u.form {
        Form::Assigned(_) => {
            let wrong = !may_assign(units, u.around.home, &u.name);
            add_if(
                alloc,
                wrong,
                Cause::AssignedNotRef,
                u.around.place,
                &u.name,
                out,
            )
        }
        Form::Called(list) => {
            let params = parameters_of(table, &u.name);
            add_arguments(alloc, units, u, params, list.as_slice(), out)
        }
        _ => Ok(()),
    }
}
