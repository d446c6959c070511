// One level of statements that hold no other statement.
ghost use Rattle.std.specs.Prelude.{◌≡◌, IfOk};
ghost use Rattle.pgo_base.specs.ExprView.{tree};
ghost use Rattle.pgo_effects.specs.Around.{around_view};
ghost use Rattle.pgo_effects.specs.Pieces.{piece_code, last_code};
ghost use Rattle.pgo_effects.specs.Puts.{puts_tree};
ghost use Rattle.pgo_effects.specs.SettingView.{setting_view};
ghost use Rattle.pgo_meaning.specs.Statements.{label_of};
ghost use Rattle.pgo_meaning.specs.Statements.{Setting as Meant};
ghost use Rattle.pgo_sections.specs.Access.{evaluated};
ghost use Rattle.pgo_sections.specs.Code as codes;

use crate::around::Around;
use crate::evaluate::{evaluate_alone, put_around};
use crate::piece::{Last, Piece};
use crate::setting::Setting;
use crate::written::written_label;
use pgo_base::expr::Expr;
use pgo_base::text::Text;
use std::alloc::{AllocError, Global};

/// What comes last, with nothing before it.
pub(crate) fn last_alone<'a>(alloc: Global, last: Last<'a>) -> Piece<'a>
    ensures { (s : Meant) → piece_code s result ≡ last_code s last.entry }
{
    Piece {
        effects: Vec::new(alloc),
        last,
    }
}

/// `await e`
pub(crate) fn await_piece<'a>(
    alloc: Global,
    setting: Setting<'a, '_>,
    around: &Around<'_>,
    e: &Expr,
) -> Result<Piece<'a>, AllocError>
    ensures { IfOk result (λ p. (s : Meant) → piece_code s p ≡ evaluated (setting_view setting.entry).mapped (puts_tree (around_view around.now).layers (tree e.now)) 0 (λ e' k. codes.Await e')) }
{
    let (effects, rest) = evaluate_alone(alloc, setting, around, e)?;
    Ok(Piece {
        effects,
        last: Last::Await(rest),
    })
}

/// `assert e`
pub(crate) fn assert_piece<'a>(
    alloc: Global,
    setting: Setting<'a, '_>,
    around: &Around<'_>,
    e: &Expr,
) -> Result<Piece<'a>, AllocError>
    ensures { IfOk result (λ p. (s : Meant) → piece_code s p ≡ evaluated (setting_view setting.entry).mapped (puts_tree (around_view around.now).layers (tree e.now)) 0 (λ e' k. codes.Assert e')) }
{
    let (effects, rest) = evaluate_alone(alloc, setting, around, e)?;
    Ok(Piece {
        effects,
        last: Last::Assert(rest),
    })
}

/// `print e`
pub(crate) fn print_piece<'a>(
    alloc: Global,
    setting: Setting<'a, '_>,
    around: &Around<'_>,
    e: &Expr,
) -> Result<Piece<'a>, AllocError>
    ensures { IfOk result (λ p. (s : Meant) → piece_code s p ≡ evaluated (setting_view setting.entry).mapped (puts_tree (around_view around.now).layers (tree e.now)) 0 (λ e' k. codes.Print e')) }
{
    let (effects, rest) = evaluate_alone(alloc, setting, around, e)?;
    Ok(Piece {
        effects,
        last: Last::Print(rest),
    })
}

/// `yield e`
pub(crate) fn yield_piece<'a>(
    alloc: Global,
    around: &Around<'_>,
    e: &Expr,
) -> Result<Piece<'a>, AllocError>
    ensures { IfOk result (λ p. (s : Meant) → piece_code s p ≡ codes.Yield (puts_tree (around_view around.now).layers (tree e.now))) }
{
    let done = put_around(alloc, around, e)?;
    Ok(last_alone(alloc, Last::Yield(done.into_expr())))
}

/// `goto x`
pub(crate) fn goto_piece<'a>(
    alloc: Global,
    setting: Setting<'a, '_>,
    x: &Text,
) -> Result<Piece<'a>, AllocError>
    ensures { IfOk result (λ p. (s : Meant) → piece_code s p ≡ codes.Goto (label_of (setting_view setting.entry).process x.now)) }
{
    let label = written_label(alloc, setting, x)?;
    Ok(last_alone(alloc, Last::Goto(label)))
}
