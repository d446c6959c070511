// The walk over an expression. Each call goes down to the height of the tree; operands are walked by a loop.
ghost use Rattle.std.specs.Prelude.{◌≡◌, ◌++◌, map, option_map, IfOk};
ghost use Rattle.pgo_base.specs.ExprView.{tree};
ghost use Rattle.pgo_base.specs.Tree.{trees};
ghost use Rattle.pgo_meaning.specs.Parameters.{all_mapped};
ghost use Rattle.pgo_operands.specs.Operands.{lent_trees};
ghost use Rattle.pgo_rewrite.specs.Parts as spec;
ghost use Rattle.pgo_rewrite.specs.Rewritten.{rewritten as walked, replacement};
ghost use Rattle.pgo_rewrite.specs.Scoped.{under_at};
ghost use Rattle.pgo_rewrite.specs.Scopes.{in_scope};
ghost use Rattle.pgo_rewrite.specs.Views.{mapped_view, read_views};
ghost use Rattle.pgo_sections.specs.Access.{if_whole, if_element, mapped_under, index_tree, name_alone as name_of};

use crate::bound_names::{count_at, names_by};
use crate::indexed_bindings::IndexedBindings;
use crate::indexed_names::IndexedNames;
use crate::lists::push_item;
use crate::mapped::Mapped;
use crate::parts::Parts;
use crate::reads::Reads;
use crate::rebuild::rebuilt;
use crate::scopes::Scope;
use crate::substitution::Substitution;
use pgo_base::expr::{Expr, Exprs};
use pgo_base::text::Text;
use pgo_operands::operands::operands;
use std::alloc::{AllocError, Global};

/// The mapped parameter that a name is, where these names are bound around it.
fn mapped_in<'a>(bindings: &IndexedBindings<'a>, scope: &Scope<'_>, x: &Text) -> Option<Mapped<'a>>
    ensures { option_map mapped_view result ≡ mapped_under (all_mapped bindings.now) (in_scope scope.now) x.now }
{
    if scope.has(x) {
        None
    } else {
        bindings.mapped_named(x)
    }
}

/// One that is by element.
fn if_by_element<'a>(found: Option<Mapped<'a>>) -> Option<Mapped<'a>>
    ensures { option_map mapped_view result ≡ if_element (option_map mapped_view found.entry) }
{
    match found {
        Some(m) if m.by_element => Some(m),
        _ => None,
    }
}

/// One that is read as a whole.
fn if_as_whole<'a>(found: Option<Mapped<'a>>) -> Option<Mapped<'a>>
    ensures { option_map mapped_view result ≡ if_whole (option_map mapped_view found.entry) }
{
    match found {
        Some(m) if !m.by_element => Some(m),
        _ => None,
    }
}

/// The mapped parameter whose element an expression itself reads.
fn element_by<'a>(bindings: &IndexedBindings<'a>, scope: &Scope<'_>, e: &Expr) -> Option<Mapped<'a>>
    ensures { option_map mapped_view result ≡ spec.element_by (all_mapped bindings.now) (in_scope scope.now) (tree e.now) }
{
    match e {
        Expr::Index(f, _) => match f.get() {
            Expr::Name(x) => if_by_element(mapped_in(bindings, scope, x)),
            _ => None,
        },
        _ => None,
    }
}

/// The one index, or the tuple of several.
fn index_of(list: Vec<Expr>) -> Expr
    ensures { tree result ≡ index_tree (trees (map tree list.items)) }
{
    let mut list = list;
    if list.len() != 1 {
        return Expr::Tuple(Exprs::from_vec(list));
    }
    match list.pop() {
        Some(e) => e,
        None => Expr::Tuple(Exprs::from_vec(list)),
    }
}

/// What stands for a name, where these names are bound around it.
fn standing_for<S: Substitution>(
    alloc: Global,
    names: &S,
    scope: &Scope<'_>,
    x: &Text,
) -> Result<Expr, AllocError>
    ensures { IfOk result (λ e. tree e ≡ replacement (S.stands names.now) (in_scope scope.now) x.now) }
{
    if scope.has(x) {
        return Ok(Expr::Name(x.copy(alloc)?));
    }
    match names.tree_for(alloc, x)? {
        Some(e) => Ok(e),
        None => Ok(Expr::Name(x.copy(alloc)?)),
    }
}

/// What a name becomes.
fn rewrite_name<'a, S: Substitution>(
    alloc: Global,
    names: &S,
    bindings: &IndexedBindings<'a>,
    scope: &Scope<'_>,
    x: &Text,
    reads: &mut Reads<'a>,
) -> Result<Expr, AllocError>
    ensures rest { IfOk result (λ e. tree e ≡ (spec.name_rewritten (S.stands names.now) (all_mapped bindings.now) (in_scope scope.now) x.now reads.old.used).rest) }
    ensures reads { IfOk result (λ _. read_views reads.new.list.items ≡ read_views reads.old.list.items ++ (spec.name_rewritten (S.stands names.now) (all_mapped bindings.now) (in_scope scope.now) x.now reads.old.used).reads) }
    ensures used { IfOk result (λ _. reads.new.used ≡ (spec.name_rewritten (S.stands names.now) (all_mapped bindings.now) (in_scope scope.now) x.now reads.old.used).used) }
{
    match if_as_whole(mapped_in(bindings, scope, x)) {
        Some(m) => reads.read_whole(alloc, m),
        None => standing_for(alloc, names, scope, x),
    }
}

/// The name that an expression is.
fn name_alone(e: &Expr) -> Option<&Text>
    ensures { option_map (λ x. x.now) result ≡ name_of (tree e.now) }
{
    match e {
        Expr::Name(x) => Some(x),
        _ => None,
    }
}

/// What an expression becomes whose operands became these.
fn finished<'a, S: Substitution>(
    alloc: Global,
    names: &S,
    bindings: &IndexedBindings<'a>,
    scope: &Scope<'_>,
    e: &Expr,
    list: Vec<Expr>,
    reads: &mut Reads<'a>,
) -> Result<Expr, AllocError>
    ensures rest { IfOk result (λ r. tree r ≡ (spec.finished (S.stands names.now) (all_mapped bindings.now) (in_scope scope.now) (tree e.now) (map tree list.items) reads.old.used).rest) }
    ensures reads { IfOk result (λ _. read_views reads.new.list.items ≡ read_views reads.old.list.items ++ (spec.finished (S.stands names.now) (all_mapped bindings.now) (in_scope scope.now) (tree e.now) (map tree list.items) reads.old.used).reads) }
    ensures used { IfOk result (λ _. reads.new.used ≡ (spec.finished (S.stands names.now) (all_mapped bindings.now) (in_scope scope.now) (tree e.now) (map tree list.items) reads.old.used).used) }
{
    match name_alone(e) {
        Some(x) => rewrite_name(alloc, names, bindings, scope, x, reads),
        None => rewrite_form(alloc, bindings, scope, e, list, reads),
    }
}

/// The same of an expression that is no name.
fn rewrite_form<'a>(
    alloc: Global,
    bindings: &IndexedBindings<'a>,
    scope: &Scope<'_>,
    e: &Expr,
    list: Vec<Expr>,
    reads: &mut Reads<'a>,
) -> Result<Expr, AllocError>
    ensures rest { IfOk result (λ r. tree r ≡ (spec.form_rewritten (all_mapped bindings.now) (in_scope scope.now) (tree e.now) (map tree list.items) reads.old.used).rest) }
    ensures reads { IfOk result (λ _. read_views reads.new.list.items ≡ read_views reads.old.list.items ++ (spec.form_rewritten (all_mapped bindings.now) (in_scope scope.now) (tree e.now) (map tree list.items) reads.old.used).reads) }
    ensures used { IfOk result (λ _. reads.new.used ≡ (spec.form_rewritten (all_mapped bindings.now) (in_scope scope.now) (tree e.now) (map tree list.items) reads.old.used).used) }
{
    let mut parts = Parts::from_vec(list);
    match element_by(bindings, scope, e) {
        Some(m) => {
            parts.skip();
            reads.read_element(alloc, m, index_of(parts.into_vec()))
        }
        None => rebuilt(alloc, e, parts),
    }
}

/// An expression with others in the place of its names, and its mapped reads hoisted out of it.
///
/// `scope` has the names that are bound around it. The reads come behind those that there are. Err only where there is no memory.
#[cycle(walk)]
pub(crate) fn rewritten<'a, S: Substitution>(
    alloc: Global,
    names: &S,
    bindings: &IndexedBindings<'a>,
    scope: &Scope<'_>,
    e: &Expr,
    reads: &mut Reads<'a>,
) -> Result<Expr, AllocError>
    ensures rest { IfOk result (λ r. tree r ≡ (walked (S.stands names.now) (all_mapped bindings.now) (in_scope scope.now) (tree e.now) reads.old.used).rest) }
    ensures reads { IfOk result (λ _. read_views reads.new.list.items ≡ read_views reads.old.list.items ++ (walked (S.stands names.now) (all_mapped bindings.now) (in_scope scope.now) (tree e.now) reads.old.used).reads) }
    ensures used { IfOk result (λ _. reads.new.used ≡ (walked (S.stands names.now) (all_mapped bindings.now) (in_scope scope.now) (tree e.now) reads.old.used).used) }
{
    let bound = names_by(alloc, e)?;
    let list = operands(alloc, e)?;
    let parts = rewrite_parts(
        alloc,
        names,
        bindings,
        scope,
        e,
        &bound,
        list.as_slice(),
        reads,
    )?;
    finished(alloc, names, bindings, scope, e, parts, reads)
}

/// The operands `list` of an expression `e` that binds the names `bound`.
#[cycle(walk)]
fn rewrite_parts<'a, S: Substitution>(
    alloc: Global,
    names: &S,
    bindings: &IndexedBindings<'a>,
    scope: &Scope<'_>,
    e: &Expr,
    bound: &IndexedNames,
    list: &[&Expr],
    reads: &mut Reads<'a>,
) -> Result<Vec<Expr>, AllocError>
    ensures rest { IfOk result (λ v. map tree v.items ≡ (spec.parts (S.stands names.now) (all_mapped bindings.now) (under_at (tree e.now) bound.now (in_scope scope.now)) 0 (lent_trees list.now) reads.old.used).rest) }
    ensures reads { IfOk result (λ _. read_views reads.new.list.items ≡ read_views reads.old.list.items ++ (spec.parts (S.stands names.now) (all_mapped bindings.now) (under_at (tree e.now) bound.now (in_scope scope.now)) 0 (lent_trees list.now) reads.old.used).reads) }
    ensures used { IfOk result (λ _. reads.new.used ≡ (spec.parts (S.stands names.now) (all_mapped bindings.now) (under_at (tree e.now) bound.now (in_scope scope.now)) 0 (lent_trees list.now) reads.old.used).used) }
{
    let mut all = Vec::new(alloc);
    for (i, part) in list.iter().enumerate() {
        let count = count_at(e, bound.as_slice().len(), i);
        let inner = Scope::within(&*scope, &*bound, count);
        let done = rewritten(alloc, names, bindings, &inner, part, reads)?;
        push_item(&mut all, done)?;
    }
    Ok(all)
}
