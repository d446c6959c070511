// One level of an assignment: all indices and right sides in the order of the text, and then the changes from left to right.
ghost use Rattle.std.specs.Prelude.{◌≡◌, ℕ, [], ◌∷◌, List, map, None, option_map, if◌then◌else◌, IfOk};
ghost use Rattle.pgo_base.specs.ExprView.{tree};
ghost use Rattle.pgo_base.specs.Lookup.{find};
ghost use Rattle.pgo_effects.specs.Around.{around_view};
ghost use Rattle.pgo_effects.specs.Assigned.{assignment_at, part_view, step_code};
ghost use Rattle.pgo_effects.specs.Pieces.{code_with, piece_code};
ghost use Rattle.pgo_effects.specs.PlaceView.{place_view};
ghost use Rattle.pgo_effects.specs.Puts.{puts_assignment};
ghost use Rattle.pgo_effects.specs.SettingView.{setting_view};
ghost use Rattle.pgo_effects.specs.Todos.{change_code, codes_of};
ghost use Rattle.pgo_meaning.specs.Statements as spec;
ghost use Rattle.pgo_model.specs.Options.{on};
ghost use Rattle.pgo_sections.specs.Access.{evaluated, place as place_name};
ghost use Rattle.pgo_sections.specs.Code.{Code, in_turn};
ghost use Rattle.pgo_sections.specs.Code as codes_spec;

use crate::around::Around;
use crate::change::Change;
use crate::evaluate::{evaluate_put, put_around};
use crate::lefts::left_under;
use crate::piece::{Effect, Last, Piece};
use crate::place::{Place, place_named};
use crate::setting::Setting;
use crate::simple::last_alone;
use crate::todo::Todo;
use pgo_base::expr::{Expr, Exprs, Sub, Update, Updates};
use pgo_base::results::both;
use pgo_base::text::Text;
use pgo_rewrite::reads::{next_place, place};
use pgo_syntax::assignment::{Assignment, Left, Step};
use std::alloc::{AllocError, Global};

/// A step of a path: an index that stands under this name, or a field.
#[derive(Drop)]
pub(crate) enum PathPart {
    Index(Text),
    Field(Text),
}

/// Adds the reads of an expression and a name for the value of what is left; gives the number of the name's place.
fn bind_place<'a>(
    alloc: Global,
    setting: Setting<'a, '_>,
    base: &[u8],
    e: &Expr,
    used: u64,
    effects: &mut Vec<Effect<'a>>,
) -> Result<u64, AllocError>
    ensures { IfOk result (λ k. (f : ℕ → Code) → code_with effects.new.items (f k) ≡ code_with effects.old.items (evaluated (setting_view setting.entry).mapped (tree e.now) used (λ e' k'. codes_spec.Let base.now (place_name k') e' (f k')))) }
{
    let (rest, k) = evaluate_put(alloc, setting, e, used, effects)?;
    let names = both(Text::from_slice(alloc, base), place(alloc, k));
    let (value, (base, name)) = both(Ok(rest), names)?;
    effects.push(Effect::Let { base, name, value })?;
    Ok(k)
}

/// Adds what comes before a step of a path.
fn add_step<'a>(
    alloc: Global,
    setting: Setting<'a, '_>,
    step: &Step,
    used: u64,
    effects: &mut Vec<Effect<'a>>,
) -> Result<(PathPart, u64), AllocError>
    ensures { IfOk result (λ r. (f : spec.Part → ℕ → Code) → code_with effects.new.items (f (part_view r.0) r.1) ≡ code_with effects.old.items (step_code (setting_view setting.entry) step.now used f)) }
{
    match step {
        Step::Field(x) => Ok((PathPart::Field(x.copy(alloc)?), used)),
        Step::Index(e) => {
            let k = bind_place(alloc, setting, b"at", e.get(), used, effects)?;
            let (name, next) = next_place(alloc, k)?;
            Ok((PathPart::Index(name), next))
        }
    }
}

/// Adds what comes before the steps of a path.
fn add_steps<'a>(
    alloc: Global,
    setting: Setting<'a, '_>,
    path: &[Step],
    used: u64,
    effects: &mut Vec<Effect<'a>>,
) -> Result<(Vec<PathPart>, u64), AllocError>
    ensures { IfOk result (λ r. (f : List spec.Part → ℕ → Code) → code_with effects.new.items (f (map part_view r.0.items) r.1) ≡ code_with effects.old.items (spec.steps (setting_view setting.entry) path.now used f)) }
{
    let mut parts = Vec::new(alloc);
    let mut k = used;
    for step in path {
        let (part, next) = add_step(alloc, setting, step, k, effects)?;
        parts.push(part)?;
        k = next;
    }
    Ok((parts, k))
}

/// The index of an element.
fn index_of(alloc: Global, path: &[PathPart]) -> Result<Option<Text>, AllocError>
    ensures { IfOk result (λ i. i ≡ spec.index_of (map part_view path.now)) }
{
    match path {
        [PathPart::Index(i)] => Ok(Some(i.copy(alloc)?)),
        _ => Ok(None),
    }
}

/// A step as an expression.
fn part_expr(alloc: Global, part: &PathPart) -> Result<Expr, AllocError>
    ensures { IfOk result (λ e. tree e ≡ spec.part_tree (part_view part.now)) }
{
    match part {
        PathPart::Index(i) => Ok(Expr::Name(i.copy(alloc)?)),
        PathPart::Field(x) => Ok(Expr::Text(x.copy(alloc)?)),
    }
}

/// The steps as expressions.
fn path_exprs(alloc: Global, path: &[PathPart]) -> Result<Exprs, AllocError>
    ensures { IfOk result (λ v. v ≡ map (λ p. spec.part_tree (part_view p)) path.now) }
{
    let mut list = Vec::new(alloc);
    for part in path {
        list.push(part_expr(alloc, part)?)?;
    }
    Ok(Exprs::from_vec(list))
}

/// [x EXCEPT !path = w]
fn changed(alloc: Global, x: &Text, path: &[PathPart], w: Text) -> Result<Expr, AllocError>
    ensures { IfOk result (λ e. tree e ≡ spec.changed x.now (map part_view path.now) w) }
{
    let function = Sub::new(alloc, Expr::Name(x.copy(alloc)?))?;
    let path = path_exprs(alloc, path)?;
    let mut list = Vec::new(alloc);
    list.push(Update {
        path,
        value: Expr::Name(w),
    })?;
    Ok(Expr::Except(function, Updates::from_vec(list)))
}

/// The base of the name of a variable's part that is changed.
fn base_of(alloc: Global, setting: Setting<'_, '_>, p: &Place) -> Result<Text, AllocError>
    ensures { IfOk result (λ b. b ≡ (if (setting_view setting.entry).is_block then codes_spec.old_base else codes_spec.variable_of (place_view p.now))) }
{
    if setting.is_block() {
        return Text::from_slice(alloc, b"old");
    }
    match p {
        Place::Whole(x) => x.copy(alloc),
        Place::Own(x) => x.copy(alloc),
    }
}

/// The place becomes what the name stands for.
fn to_whole<'a>(
    alloc: Global,
    setting: Setting<'a, '_>,
    w: Text,
    p: Place,
) -> Result<Change<'a>, AllocError>
    ensures { IfOk result (λ c. (x : List ℕ) → change_code c ≡ spec.to_variable (setting_view setting.entry) x [] w (place_view p)) }
{
    if setting.is_block() {
        let base = Text::from_slice(alloc, b"old")?;
        Ok(Change::Set(base, p, Expr::Name(w)))
    } else {
        Ok(Change::Become(p, w))
    }
}

/// The part of the place at the end of the path becomes what the name stands for.
fn to_variable<'a>(
    alloc: Global,
    setting: Setting<'a, '_>,
    x: &Text,
    path: &[PathPart],
    w: Text,
    p: Place,
) -> Result<Change<'a>, AllocError>
    ensures { IfOk result (λ c. change_code c ≡ spec.to_variable (setting_view setting.entry) x.now (map part_view path.now) w (place_view p)) }
{
    match path {
        [] => to_whole(alloc, setting, w, p),
        _ => {
            let parts = both(base_of(alloc, setting, &p), changed(alloc, x, path, w));
            let (p, (base, e)) = both(Ok(p), parts)?;
            Ok(Change::Set(base, p, e))
        }
    }
}

/// The variable becomes what the name stands for, where it is no mapped parameter.
fn assigned_place<'a>(
    alloc: Global,
    setting: Setting<'a, '_>,
    x: &Text,
    path: &[PathPart],
    w: Text,
) -> Result<Change<'a>, AllocError>
    ensures { IfOk result (λ c. change_code c ≡ on codes_spec.Empty (find x.now (setting_view setting.entry).places) (spec.to_variable (setting_view setting.entry) x.now (map part_view path.now) w)) }
{
    let found = place_named(alloc, setting, x)?;
    match found {
        None => Ok(Change::Nothing),
        Some(p) => to_variable(alloc, setting, x, path, w, p),
    }
}

/// The variable, or the part of it at the end of the path, becomes what the name stands for.
fn assigned<'a>(
    alloc: Global,
    setting: Setting<'a, '_>,
    x: &Text,
    path: &[PathPart],
    w: Text,
) -> Result<Change<'a>, AllocError>
    ensures { IfOk result (λ c. change_code c ≡ spec.assigned (setting_view setting.entry) x.now (map part_view path.now) w) }
{
    let found = setting.mapped_named(x);
    match found {
        None => assigned_place(alloc, setting, x, path, w),
        Some(m) => Ok(Change::Write(m, index_of(alloc, path)?, w)),
    }
}

/// Adds what comes before an assignment, in which each argument is in place, and gives what it does then.
fn add_put_assignment<'a>(
    alloc: Global,
    setting: Setting<'a, '_>,
    left: &Left,
    right: &Expr,
    used: u64,
    effects: &mut Vec<Effect<'a>>,
) -> Result<(Change<'a>, u64), AllocError>
    ensures { IfOk result (λ r. (f : Code → ℕ → Code) → code_with effects.new.items (f (change_code r.0) r.1) ≡ code_with effects.old.items (assignment_at (setting_view setting.entry) left.now (tree right.now) used f)) }
{
    let (path, k) = add_steps(alloc, setting, left.path.as_slice(), used, effects)?;
    let k = bind_place(alloc, setting, b"val", right, k, effects)?;
    let (name, next) = next_place(alloc, k)?;
    let change = assigned(alloc, setting, &left.name.name, path.as_slice(), name)?;
    Ok((change, next))
}

/// The same of an assignment of the text.
fn add_assignment<'a>(
    alloc: Global,
    setting: Setting<'a, '_>,
    around: &Around<'_>,
    a: &Assignment,
    used: u64,
    effects: &mut Vec<Effect<'a>>,
) -> Result<(Change<'a>, u64), AllocError>
    ensures { IfOk result (λ r. (f : Code → ℕ → Code) → code_with effects.new.items (f (change_code r.0) r.1) ≡ code_with effects.old.items (assignment_at (setting_view setting.entry) (puts_assignment (around_view around.now).layers a.now).left (puts_assignment (around_view around.now).layers a.now).right used f)) }
{
    let left = left_under(alloc, around, &a.left)?;
    let right = put_around(alloc, around, a.right.get())?;
    add_put_assignment(alloc, setting, &left, right.get(), used, effects)
}

/// Adds what comes before assignments, and gives what they do then.
fn add_assignments<'a>(
    alloc: Global,
    setting: Setting<'a, '_>,
    around: &Around<'_>,
    list: &[Assignment],
    effects: &mut Vec<Effect<'a>>,
) -> Result<Vec<Todo<'a>>, AllocError>
    ensures { IfOk result (λ v. code_with effects.new.items (in_turn (codes_of (setting_view setting.entry) v.items)) ≡ code_with effects.old.items (spec.assign_all (setting_view setting.entry) (map (puts_assignment (around_view around.now).layers) list.now) 0 [])) }
{
    let mut todos = Vec::new(alloc);
    let mut used = 0;
    for a in list {
        let (change, next) = add_assignment(alloc, setting, around, a, used, effects)?;
        todos.push(Todo::Change(change))?;
        used = next;
    }
    Ok(todos)
}

/// All assignments, one behind the other.
fn assign_all<'a>(
    alloc: Global,
    setting: Setting<'a, '_>,
    around: &Around<'_>,
    list: &[Assignment],
) -> Result<Piece<'a>, AllocError>
    ensures { IfOk result (λ p. piece_code (setting_view setting.entry) p ≡ spec.assign_all (setting_view setting.entry) (map (puts_assignment (around_view around.now).layers) list.now) 0 []) }
{
    let mut effects = Vec::new(alloc);
    let todos = add_assignments(alloc, setting, around, list, &mut effects)?;
    Ok(Piece {
        effects,
        last: Last::Row(todos),
    })
}

/// The right side of an assignment to a variable as a whole.
fn whole_right(
    alloc: Global,
    around: &Around<'_>,
    a: &Assignment,
) -> Result<Option<Expr>, AllocError>
    ensures { IfOk result (λ e. option_map tree e ≡ spec.alone (puts_assignment (around_view around.now).layers a.now ∷ [])) }
{
    let left = left_under(alloc, around, &a.left)?;
    match left.path.as_slice() {
        [] => Ok(Some(put_around(alloc, around, a.right.get())?.into_expr())),
        _ => Ok(None),
    }
}

/// The right side, where `x := e` is the one assignment.
fn alone(
    alloc: Global,
    around: &Around<'_>,
    list: &[Assignment],
) -> Result<Option<Expr>, AllocError>
    ensures { IfOk result (λ e. option_map tree e ≡ spec.alone (map (puts_assignment (around_view around.now).layers) list.now)) }
{
    match list {
        [a] => whole_right(alloc, around, a),
        _ => Ok(None),
    }
}

/// The right side, where `$variable := e` is the one assignment and the statements are a mapping macro's.
fn alone_in_block(
    alloc: Global,
    setting: Setting<'_, '_>,
    around: &Around<'_>,
    list: &[Assignment],
) -> Result<Option<Expr>, AllocError>
    ensures { IfOk result (λ e. option_map tree e ≡ (if (setting_view setting.entry).is_block then spec.alone (map (puts_assignment (around_view around.now).layers) list.now) else None)) }
{
    if setting.is_block() {
        alone(alloc, around, list)
    } else {
        Ok(None)
    }
}

/// The content becomes the value of the expression.
fn set_content<'a>(alloc: Global, e: Expr) -> Result<Piece<'a>, AllocError>
    ensures { IfOk result (λ p. (s : spec.Setting) → piece_code s p ≡ codes_spec.Set codes_spec.old_base (codes_spec.Whole codes_spec.content_name) (tree e)) }
{
    let names = both(
        Text::from_slice(alloc, b"old"),
        Text::from_slice(alloc, b"$variable"),
    );
    let (e, (base, content)) = both(Ok(e), names)?;
    let change = Change::Set(base, Place::Whole(content), e);
    Ok(last_alone(alloc, Last::Change(change)))
}

/// `left := e || left := e`
pub(crate) fn assign_piece<'a>(
    alloc: Global,
    setting: Setting<'a, '_>,
    around: &Around<'_>,
    list: &[Assignment],
) -> Result<Piece<'a>, AllocError>
    ensures { IfOk result (λ p. piece_code (setting_view setting.entry) p ≡ spec.assignment_code (setting_view setting.entry) (map (puts_assignment (around_view around.now).layers) list.now)) }
{
    let found = alone_in_block(alloc, setting, around, list)?;
    match found {
        Some(e) => set_content(alloc, e),
        None => assign_all(alloc, setting, around, list),
    }
}
