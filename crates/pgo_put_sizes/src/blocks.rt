// Whether the statements of a mapping macro's read have a path to a `yield`.
ghost use Rattle.std.specs.Prelude.{◌≡◌, ℕ, true, false, ◌&&◌, List, map};
ghost use Rattle.pgo_meaning.specs.Parameters.{all_mapped, mapped_of, reads_by};
ghost use Rattle.pgo_put_sizes.specs.Leads as spec;
ghost use Rattle.pgo_put_sizes.specs.Least.{yields as has_yield};
ghost use Rattle.pgo_sections.specs.Access.{MappedNames};
ghost use Rattle.pgo_syntax.specs.Statement.{guarded, labeled, statements};
ghost use Rattle.pgo_syntax.specs.StatementView.{branch_parts, labeled_pair, statement};

use pgo_syntax::bound::{Binding, Mapping, Target};
use pgo_syntax::statement::{Branch, Labeled, Stmt};

/// Where the paths through statements lead: whether one comes to their end, and whether one comes to a `yield`.
#[derive(Clone, Copy)]
pub(crate) struct Paths {
    pub passes: bool,
    pub yields: bool,
}

/// It only goes on.
fn goes_on() -> Paths
    ensures { result ≡ spec.goes_on }
{
    Paths {
        passes: true,
        yields: false,
    }
}

/// It comes to neither.
fn nowhere() -> Paths
    ensures { result ≡ spec.nowhere }
{
    Paths {
        passes: false,
        yields: false,
    }
}

/// The one or the other.
fn either_way(a: Paths, b: Paths) -> Paths
    ensures { result ≡ spec.either_way a b }
{
    Paths {
        passes: a.passes || b.passes,
        yields: a.yields || b.yields,
    }
}

/// The one, and then the other.
fn then_way(a: Paths, b: Paths) -> Paths
    ensures { result ≡ spec.then_way a b }
{
    Paths {
        passes: a.passes && b.passes,
        yields: a.yields || (a.passes && b.yields),
    }
}

/// The same around a `while`, which may also be left at once.
fn around_loop(body: Paths) -> Paths
    ensures { result ≡ record { passes = true; yields = body.yields } }
{
    Paths {
        passes: true,
        yields: body.yields,
    }
}

/// It ends with a value.
fn ends() -> Paths
    ensures { result ≡ record { passes = false; yields = true } }
{
    Paths {
        passes: false,
        yields: true,
    }
}

/// Where a statement leads. It recurses to the nesting of statements.
#[cycle(leads)]
fn statement_leads(t: &Stmt) -> Paths
    ensures { result ≡ spec.leads (statement t.now) }
{
    match t {
        Stmt::If(_, list) => branches_lead(goes_on(), list.as_slice()),
        Stmt::IfElse(_, list, other) => branches_lead(
            statement_leads(other.get()),
            list.as_slice(),
        ),
        Stmt::While(_, _, body) => around_loop(statement_leads(body.get())),
        Stmt::Either(_, list) => any_lead(list.as_slice()),
        Stmt::With(_, _, body) => statement_leads(body.get()),
        Stmt::Goto(_, _) => nowhere(),
        Stmt::Yield(_, _) => ends(),
        Stmt::Block(_, list) => row_leads(list.as_slice()),
        _ => goes_on(),
    }
}

/// Where one of these statements leads.
#[cycle(leads)]
fn any_lead(list: &[Stmt]) -> Paths
    ensures { result ≡ spec.any_lead spec.nowhere (statements (map statement list.now)) }
{
    let mut all = nowhere();
    for t in list {
        all = either_way(all, statement_leads(t));
    }
    all
}

/// Where this way, or one of these branches, leads.
#[cycle(leads)]
fn branches_lead(other: Paths, list: &[Branch]) -> Paths
    ensures { result ≡ spec.branches_lead other (guarded (map branch_parts list.now)) }
{
    let mut all = other;
    for branch in list {
        all = either_way(all, statement_leads(&branch.statement));
    }
    all
}

/// Where these statements lead, one behind the other up to the first label.
#[cycle(leads)]
pub(crate) fn row_leads(list: &[Labeled]) -> Paths
    ensures { result ≡ spec.row_leads spec.goes_on (labeled (map labeled_pair list.now)) }
{
    let mut all = goes_on();
    for one in list {
        if one.label.is_some() {
            return then_way(all, nowhere());
        }
        all = then_way(all, statement_leads(&one.statement));
    }
    all
}

/// Whether what a read does has a path to a `yield`.
pub(crate) fn reads_yield(mapping: &Mapping) -> bool
    ensures { result ≡ has_yield (reads_by mapping.now) }
{
    match mapping {
        Mapping::Identity => true,
        Mapping::Macro(m) => row_leads(m.read.as_slice()).yields,
    }
}

/// Whether the read of a mapped parameter with this target has such a path, if it is one.
fn target_yields(target: &Target) -> bool
    ensures { (x : List ℕ) (rest : MappedNames) → spec.all_yield (mapped_of x target.now rest) ≡ (result && spec.all_yield rest) }
{
    match target {
        Target::Global {
            mapping: Some(mapping),
            ..
        } => reads_yield(mapping),
        _ => true,
    }
}

/// Whether the read of each mapped parameter has such a path.
pub(crate) fn all_yield(bindings: &[Binding]) -> bool
    ensures { result ≡ spec.all_yield (all_mapped bindings.now) }
{
    for binding in bindings {
        if !target_yields(&binding.target) {
            return false;
        }
    }
    true
}
