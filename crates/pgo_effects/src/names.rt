// The names of a `with`.
ghost use Rattle.std.specs.Prelude.{◌≡◌, ℕ, ◌∷◌, IfOk};
ghost use Rattle.pgo_base.specs.ExprView.{tree};
ghost use Rattle.pgo_base.specs.Tree.{name as name_tree};
ghost use Rattle.pgo_effects.specs.Around.{around_view, stands};
ghost use Rattle.pgo_effects.specs.Around.{written_label as label_at};
ghost use Rattle.pgo_effects.specs.Pieces.{code_with, effect_code, piece_code};
ghost use Rattle.pgo_effects.specs.Puts.{behind_name, behind_names, marked_by, puts, puts_name, puts_names, puts_tree};
ghost use Rattle.pgo_effects.specs.Origins.{binding_code, with_value};
ghost use Rattle.pgo_effects.specs.SettingView.{setting_view};
ghost use Rattle.pgo_effects.specs.Todos.{code_of};
ghost use Rattle.pgo_meaning.specs.MacrosPlaced as spec;
ghost use Rattle.pgo_meaning.specs.MacrosPlaced.{placed};
ghost use Rattle.pgo_meaning.specs.Statements.{Setting as Meant, bind_name, bind_names, code};
ghost use Rattle.pgo_sections.specs.Code.{Code};
ghost use Rattle.pgo_syntax.specs.Origins.{origin_tree};
ghost use Rattle.pgo_syntax.specs.Statement.{with_in};
ghost use Rattle.pgo_syntax.specs.StatementView.{statement};

use crate::around::Around;
use crate::evaluate::evaluate_put;
use crate::piece::{Effect, Last, Piece};
use crate::setting::Setting;
use crate::todo::{Part, Todo};
use pgo_base::expr::{Expr, Sub};
use pgo_base::text::Text;
use pgo_rewrite::arguments::{Arguments, put};
use pgo_syntax::binding::{Origin, WithName};
use pgo_syntax::statement::Stmt;
use std::alloc::{AllocError, Global};
use std::rc::Rc;

/// The name with one mark more.
///
/// Err only where there is no memory.
pub fn marked(alloc: Global, x: &Text) -> Result<Text, AllocError>
    ensures { IfOk result (λ t. t ≡ spec.marked x.now) }
{
    let mut bytes = Vec::from_slice(alloc, x.as_bytes())?;
    bytes.push(b'!')?;
    Ok(Text::from_bytes(bytes)?)
}

/// The name without its marks.
fn unmarked(alloc: Global, x: &Text) -> Result<Text, AllocError>
    ensures { IfOk result (λ t. t ≡ spec.unmarked x.now) }
{
    let bytes = x.as_bytes();
    let mut plain = Vec::new(alloc);
    for b in bytes {
        if *b == b'!' {
            return Ok(Text::from_bytes(plain)?);
        }
        plain.push(*b)?;
    }
    Ok(Text::from_bytes(plain)?)
}

/// The expression from which a name has its value.
pub fn origin_of(origin: &Origin) -> &Expr
    ensures { tree result.now ≡ origin_tree origin.now }
{
    match origin {
        Origin::Equals(e) => e.get(),
        Origin::In(e) => e.get(),
    }
}

/// A name that a `with` binds and the expression from which it has its value, both as they are in a macro's body that is put in
/// place; and the arguments that stand behind the name.
#[derive(Drop)]
struct OneName {
    arguments: Arguments,
    name: Text,
    value: Sub,
}

/// The arguments with a name more, before the others, which another one stands for.
///
/// Err only where there is no memory.
pub fn add_marked(
    alloc: Global,
    arguments: Arguments,
    name: Text,
    new: &Text,
) -> Result<Arguments, AllocError>
    ensures { IfOk result (λ es. es ≡ (name, name_tree new.now) ∷ arguments) }
{
    let stands = new.copy(alloc)?;
    let mut more = arguments;
    more.push(name, Expr::Name(stands))?;
    Ok(more)
}

/// The same in a macro's body with these arguments.
fn put_name(
    alloc: Global,
    arguments: Arguments,
    name: Text,
    value: &Expr,
) -> Result<OneName, AllocError>
    ensures arguments { IfOk result (λ m. m.arguments ≡ (name, name_tree (spec.marked name)) ∷ arguments) }
    ensures name { IfOk result (λ m. m.name ≡ spec.marked name) }
    ensures value { IfOk result (λ m. m.value ≡ spec.put_tree arguments (tree value.now)) }
{
    let value = Sub::new(alloc, put(alloc, &arguments, value)?)?;
    let new = marked(alloc, &name)?;
    let more = add_marked(alloc, arguments, name, &new)?;
    Ok(OneName {
        arguments: more,
        name: new,
        value,
    })
}

/// The same with the arguments of all macros around, and the arguments behind the name.
#[derive(Drop)]
struct Named {
    layers: Vec<Arguments>,
    name: Text,
    value: Sub,
}

/// A name of a `with` where these arguments stand around.
fn name_under(
    alloc: Global,
    layers: Vec<Arguments>,
    x: &Text,
    e: &Expr,
) -> Result<Named, AllocError>
    ensures layers { IfOk result (λ n. n.layers.items ≡ behind_name layers.items x.now) }
    ensures name { IfOk result (λ n. n.name ≡ marked_by layers.items x.now) }
    ensures value { IfOk result (λ n. n.value ≡ puts_tree layers.items (tree e.now)) }
{
    let mut name = x.copy(alloc)?;
    let mut value = Sub::new(alloc, e.copy(alloc)?)?;
    let mut behind = Vec::new(alloc);
    for arguments in layers {
        let m = put_name(alloc, arguments, name, value.get())?;
        name = m.name;
        value = m.value;
        behind.push(m.arguments)?;
    }
    Ok(Named {
        layers: behind,
        name,
        value,
    })
}

/// Adds what binds a name, where this expression is in the place of its origin's.
fn add_binding<'a>(
    alloc: Global,
    setting: Setting<'a, '_>,
    origin: &Origin,
    name: Text,
    e: &Expr,
    effects: &mut Vec<Effect<'a>>,
) -> Result<(), AllocError>
    ensures { IfOk result (λ _. (c : Code) → code_with effects.new.items c ≡ code_with effects.old.items (bind_name (setting_view setting.entry) name (with_value origin.now (tree e.now)) c)) }
{
    let base = unmarked(alloc, &name)?;
    let (rest, _used) = evaluate_put(alloc, setting, e, 0, effects)?;
    effects.push(binding_effect(origin, base, name, rest))?;
    Ok(())
}

/// The effect that binds a name.
fn binding_effect<'a>(origin: &Origin, base: Text, name: Text, e: Expr) -> Effect<'a>
    ensures { (c : Code) → effect_code result c ≡ binding_code origin.now base name (tree e) c }
{
    match origin {
        Origin::Equals(_) => Effect::Let {
            base,
            name,
            value: e,
        },
        Origin::In(_) => Effect::Pick { base, name, set: e },
    }
}

/// Adds what binds a name of a `with`, and gives the arguments behind it.
fn add_name<'a>(
    alloc: Global,
    setting: Setting<'a, '_>,
    layers: Vec<Arguments>,
    w: &WithName,
    effects: &mut Vec<Effect<'a>>,
) -> Result<Vec<Arguments>, AllocError>
    ensures layers { IfOk result (λ v. v.items ≡ behind_name layers.items w.now.name.name) }
    ensures effects { IfOk result (λ v. (c : Code) → code_with effects.new.items c ≡ code_with effects.old.items (bind_name (setting_view setting.entry) (puts_name layers.items w.now).name.name (puts_name layers.items w.now).origin c)) }
{
    let n = name_under(alloc, layers, &w.name.name, origin_of(&w.origin))?;
    add_binding(alloc, setting, &w.origin, n.name, n.value.get(), effects)?;
    Ok(n.layers)
}

/// Adds what binds the names of a `with`, and gives the arguments behind them.
fn add_names<'a>(
    alloc: Global,
    setting: Setting<'a, '_>,
    layers: Vec<Arguments>,
    names: &[WithName],
    effects: &mut Vec<Effect<'a>>,
) -> Result<Vec<Arguments>, AllocError>
    ensures layers { IfOk result (λ v. v.items ≡ behind_names layers.items names.now) }
    ensures effects { IfOk result (λ v. (c : Code) → code_with effects.new.items c ≡ code_with effects.old.items (bind_names (setting_view setting.entry) (puts_names layers.items names.now) c)) }
{
    let mut behind = layers;
    for w in names {
        behind = add_name(alloc, setting, behind, w, effects)?;
    }
    Ok(behind)
}

/// The arguments once more.
///
/// Err only where there is no memory.
pub fn copy_layers(alloc: Global, layers: &[Arguments]) -> Result<Vec<Arguments>, AllocError>
    ensures { IfOk result (λ v. v.items ≡ layers.now) }
{
    let mut all = Vec::new(alloc);
    for es in layers {
        all.push(es.copy(alloc)?)?;
    }
    Ok(all)
}

/// A part of the text under other arguments.
pub(crate) fn under<'a>(
    alloc: Global,
    layers: Vec<Arguments>,
    around: &Around<'a>,
    body: &'a Stmt,
) -> Result<Todo<'a>, AllocError>
    ensures { IfOk result (λ t. (s : Meant) → code_of s t ≡ code s (label_at s (around_view around.now).label) (puts layers.items (placed (around_view around.now).bodies (statement body.entry.now)))) }
{
    let layers = Rc::new(alloc, layers)?;
    let macros = around.macros.copy()?;
    let around = Around {
        layers,
        macros,
        label: around.label,
    };
    Ok(Todo::Text(Part::Statement(body), around))
}

/// `with (v = e, w \in S) s`
pub(crate) fn with_piece<'a>(
    alloc: Global,
    setting: Setting<'a, '_>,
    around: &Around<'a>,
    names: &[WithName],
    body: &'a Stmt,
) -> Result<Piece<'a>, AllocError>
    ensures { IfOk result (λ p. (n : ℕ) → piece_code (setting_view setting.entry) p ≡ code (setting_view setting.entry) (label_at (setting_view setting.entry) (around_view around.now).label) (stands (around_view around.now) (with_in n names.now (statement body.entry.now)))) }
{
    let layers = copy_layers(alloc, &around.layers)?;
    let mut effects = Vec::new(alloc);
    let behind = add_names(alloc, setting, layers, names, &mut effects)?;
    let todo = under(alloc, behind, around, body)?;
    Ok(Piece {
        effects,
        last: Last::Code(todo),
    })
}
