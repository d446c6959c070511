// Expressions of the text, evaluated: the arguments of macros in place, mapped reads before.
ghost use Rattle.std.specs.Prelude.{◌≡◌, ℕ, Option, [], ◌∷◌, option_map, IfOk};
ghost use Rattle.pgo_base.specs.ExprView.{tree, named_tree};
ghost use Rattle.pgo_base.specs.Lookup.{Name};
ghost use Rattle.pgo_base.specs.Tree.{Tree};
ghost use Rattle.pgo_effects.specs.Around.{around_view};
ghost use Rattle.pgo_effects.specs.Pieces.{code_with};
ghost use Rattle.pgo_effects.specs.Puts.{puts_tree};
ghost use Rattle.pgo_effects.specs.SettingView.{setting_view};
ghost use Rattle.pgo_rewrite.specs.Views.{hoisted_view, read_view, read_views};
ghost use Rattle.pgo_sections.specs.Access.{after, evaluated, hoisted, read_first};
ghost use Rattle.pgo_sections.specs.Code.{Code};

use crate::around::Around;
use crate::piece::Effect;
use crate::setting::Setting;
use pgo_base::expr::{Expr, Sub};
use pgo_base::results::both;
use pgo_base::text::Text;
use pgo_rewrite::arguments::{Arguments, put};
use pgo_rewrite::indexed_bindings::IndexedBindings;
use pgo_rewrite::reads::{Hoisted, Read};
use pgo_rewrite::rewrite::hoist;
use std::alloc::{AllocError, Global};

/// An expression with the arguments of the macros around it in place.
fn put_all(alloc: Global, layers: &[Arguments], e: &Expr) -> Result<Sub, AllocError>
    ensures { IfOk result (λ r. r ≡ puts_tree layers.now (tree e.now)) }
{
    let mut done = Sub::new(alloc, e.copy(alloc)?)?;
    for es in layers {
        done = Sub::new(alloc, put(alloc, es, done.get())?)?;
    }
    Ok(done)
}

/// The same with the arguments that stand around.
pub(crate) fn put_around(alloc: Global, around: &Around<'_>, e: &Expr) -> Result<Sub, AllocError>
    ensures { IfOk result (λ r. r ≡ puts_tree (around_view around.now).layers (tree e.now)) }
{
    put_all(alloc, &around.layers, e)
}

/// Adds the index that comes before a read, and gives the name under which it stands.
fn add_index<'a>(
    alloc: Global,
    effects: &mut Vec<Effect<'a>>,
    index: Option<(Text, Expr)>,
) -> Result<Option<Text>, AllocError>
    ensures { IfOk result (λ r. (f : Option Name → Code) → code_with effects.new.items (f r) ≡ code_with effects.old.items (read_first (option_map named_tree index) f)) }
{
    match index {
        None => Ok(None),
        Some((name, value)) => {
            let names = both(name.copy(alloc), Text::from_slice(alloc, b"at"));
            let (value, (index, base)) = both(Ok(value), names)?;
            effects.push(Effect::Let { base, name, value })?;
            Ok(Some(index))
        }
    }
}

/// Adds a read, with its index before it.
fn add_read<'a>(
    alloc: Global,
    effects: &mut Vec<Effect<'a>>,
    read: Read<'a>,
) -> Result<(), AllocError>
    ensures { IfOk result (λ _. (c : Code) → code_with effects.new.items c ≡ code_with effects.old.items (after (read_view read.entry ∷ []) c)) }
{
    let Read {
        mapped,
        index,
        value,
    } = read;
    let index = add_index(alloc, effects, index)?;
    effects.push(Effect::Read {
        value,
        mapped,
        index,
    })?;
    Ok(())
}

/// Adds reads.
fn add_reads<'a>(
    alloc: Global,
    effects: &mut Vec<Effect<'a>>,
    reads: Vec<Read<'a>>,
) -> Result<(), AllocError>
    ensures { IfOk result (λ _. (c : Code) → code_with effects.new.items c ≡ code_with effects.old.items (after (read_views reads.entry.items) c)) }
{
    for read in reads {
        add_read(alloc, effects, read)?;
    }
    Ok(())
}

/// An expression with the reads of the setting's mapped parameters hoisted out of it, where `used` places are in use.
fn hoist_in<'a>(
    alloc: Global,
    setting: Setting<'a, '_>,
    e: &Expr,
    used: u64,
) -> Result<Hoisted<'a>, AllocError>
    ensures { IfOk result (λ h. hoisted_view h ≡ hoisted (setting_view setting.entry).mapped [] (tree e.now) used) }
{
    match setting {
        Setting::Process { bindings, .. } => hoist(alloc, bindings, e, used),
        Setting::Block => hoist(alloc, &IndexedBindings::none(alloc), e, used),
    }
}

/// Adds the reads that come before an expression in which each argument is in place, and gives what is left of it and how many
/// places are in use.
pub(crate) fn evaluate_put<'a>(
    alloc: Global,
    setting: Setting<'a, '_>,
    e: &Expr,
    used: u64,
    effects: &mut Vec<Effect<'a>>,
) -> Result<(Expr, u64), AllocError>
    ensures { IfOk result (λ r. (f : Tree → ℕ → Code) → code_with effects.new.items (f (tree r.0) r.1) ≡ code_with effects.old.items (evaluated (setting_view setting.entry).mapped (tree e.now) used f)) }
{
    let hoisted = hoist_in(alloc, setting, e, used)?;
    let added = add_reads(alloc, effects, hoisted.reads);
    let (rest, _added) = both(Ok(hoisted.rest), added)?;
    Ok((rest, hoisted.used))
}

/// Adds the reads that come before an expression of the text, and gives what is left of it and how many places are in use.
pub(crate) fn evaluate<'a>(
    alloc: Global,
    setting: Setting<'a, '_>,
    around: &Around<'_>,
    e: &Expr,
    used: u64,
    effects: &mut Vec<Effect<'a>>,
) -> Result<(Expr, u64), AllocError>
    ensures { IfOk result (λ r. (f : Tree → ℕ → Code) → code_with effects.new.items (f (tree r.0) r.1) ≡ code_with effects.old.items (evaluated (setting_view setting.entry).mapped (puts_tree (around_view around.now).layers (tree e.now)) used f)) }
{
    let done = put_around(alloc, around, e)?;
    evaluate_put(alloc, setting, done.get(), used, effects)
}

/// The reads that come before an expression of the text, where no place is in use, and what is left of it.
pub(crate) fn evaluate_alone<'a>(
    alloc: Global,
    setting: Setting<'a, '_>,
    around: &Around<'_>,
    e: &Expr,
) -> Result<(Vec<Effect<'a>>, Expr), AllocError>
    ensures { IfOk result (λ r. (f : Tree → Code) → code_with r.0.items (f (tree r.1)) ≡ evaluated (setting_view setting.entry).mapped (puts_tree (around_view around.now).layers (tree e.now)) 0 (λ e' k. f e')) }
{
    let mut effects = Vec::new(alloc);
    let (rest, _used) = evaluate(alloc, setting, around, e, 0, &mut effects)?;
    Ok((effects, rest))
}
