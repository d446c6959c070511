// The canonical text of an expression.
ghost use Rattle.std.specs.Prelude.{◌≡◌, ◌≤◌, ◌++◌, ℕ, true, false, map, length, IfOk};
ghost use Rattle.pgo_base.specs.ExprView.{tree};
ghost use Rattle.pgo_model.specs.ExprText.{expr_text};
ghost use Rattle.pgo_expr_read.specs.Heights.{height};
ghost use Rattle.pgo_expr_read.specs.Texts.{SpellsText, most_tokens};
ghost use Rattle.pgo_expr_write.specs.ByName.{by_name, piece_by_name};
ghost use Rattle.pgo_expr_write.specs.Parts.{see};
ghost use Rattle.pgo_expr_write.specs.Pieces as spec;
ghost use Rattle.pgo_expr_write.specs.WellFormed.{IsWellFormed};

use crate::errors::NoMemory;
use crate::forms::parts_of;
use crate::laws::canonical_text_is_read_back;
use crate::own::own_part;
use crate::parts::Part;
use pgo_base::expr::{Expr, Names};
use pgo_base::text::Text;
use pgo_text::strings::{push_integer, push_string};
use std::alloc::{AllocError, Global};

/// The canonical text of an expression: each application of an operator and each open form stands in `( )`, the
/// outermost too.
///
/// `NoMemory` comes where there is no memory.
///
/// Source: "Specifying Systems" for the forms, this project's choice for the parentheses and the blanks.
pub fn write_expr(alloc: Global, e: &Expr) -> Result<Text, NoMemory>
    ensures text { IfOk result (λ t. t ≡ expr_text false (tree e.now)) }
    // It is read back as the same expression, by `read_expr` of `pgo_expr_read`.
    ensures read { IfOk result (λ t. (limit : ℕ) → IsWellFormed (tree e.now) → height (tree e.now) ≤ limit → length t ≤ most_tokens → SpellsText limit t (tree e.now)) }
{
    canonical_text_is_read_back();
    operand_text(alloc, e)
}

/// The same for the body of a definition or of a bullet's item, where the outermost pair of parentheses is left out.
///
/// `NoMemory` comes where there is no memory.
///
/// Source: "Specifying Systems" for the forms, this project's choice for the parentheses and the blanks.
pub fn write_body(alloc: Global, e: &Expr) -> Result<Text, NoMemory>
    ensures text { IfOk result (λ t. t ≡ expr_text true (tree e.now)) }
    // It is read back as the same expression, by `read_expr` of `pgo_expr_read`.
    ensures read { IfOk result (λ t. (limit : ℕ) → IsWellFormed (tree e.now) → height (tree e.now) ≤ limit → length t ≤ most_tokens → SpellsText limit t (tree e.now)) }
{
    canonical_text_is_read_back();
    body_text(alloc, e)
}

/// The same as `write_expr`, with `x` in the place of each `x[self]` of a process's own variables x: there a variable's
/// name stands for its part at `self`.
///
/// `NoMemory` comes where there is no memory.
///
/// Source: the PlusCal manual, by which a process's variable has one value for each identifier; this project's choice for
/// the rest.
pub fn write_by_name(alloc: Global, own: &Names, e: &Expr) -> Result<Text, NoMemory>
    ensures { IfOk result (λ t. t ≡ expr_text false (by_name own.now (tree e.now))) }
{
    let mut bytes = Vec::new(alloc);
    push_operand(&mut bytes, alloc, own, e)?;
    Ok(Text::from_bytes(bytes)?)
}

/// The text of an expression as an operand.
#[tactic(auto, using(crate::proofs::ByNames::as_it_is))]
fn operand_text(alloc: Global, e: &Expr) -> Result<Text, NoMemory>
    ensures { IfOk result (λ t. t ≡ expr_text false (tree e.now)) }
{
    let mut bytes = Vec::new(alloc);
    push_operand(&mut bytes, alloc, &Names::new(alloc), e)?;
    Ok(Text::from_bytes(bytes)?)
}

/// The text of an expression as a body.
#[tactic(auto, using(crate::proofs::ByNames::as_it_is))]
fn body_text(alloc: Global, e: &Expr) -> Result<Text, NoMemory>
    ensures { IfOk result (λ t. t ≡ expr_text true (tree e.now)) }
{
    let mut bytes = Vec::new(alloc);
    push_body(&mut bytes, alloc, &Names::new(alloc), e)?;
    Ok(Text::from_bytes(bytes)?)
}

/// Whether an expression is an application of an operator or an open form.
fn is_enclosed(e: &Expr) -> bool
    ensures { result ≡ spec.is_enclosed (tree e.now) }
{
    match e {
        Expr::Prefix(..)
        | Expr::Infix(..)
        | Expr::Product(_)
        | Expr::If(..)
        | Expr::Case(_)
        | Expr::CaseOther(..)
        | Expr::Let(..)
        | Expr::Quantified(..)
        | Expr::Choose(..) => true,
        _ => false,
    }
}

/// Adds an expression, in `( )` where it is an application or an open form.
#[cycle(push)]
fn push_operand(bytes: &mut Vec<u8>, alloc: Global, own: &Names, e: &Expr) -> Result<(), AllocError>
    ensures { IfOk result (λ _. bytes.new.items ≡ bytes.old.items ++ expr_text false (by_name own.now (tree e.now))) }
{
    if !is_enclosed(e) {
        return push_body(bytes, alloc, own, e);
    }
    bytes.push(b'(')?;
    push_body(bytes, alloc, own, e)?;
    bytes.push(b')')?;
    Ok(())
}

/// Adds an expression without its own `( )`.
#[cycle(push)]
fn push_body(bytes: &mut Vec<u8>, alloc: Global, own: &Names, e: &Expr) -> Result<(), AllocError>
    ensures { IfOk result (λ _. bytes.new.items ≡ bytes.old.items ++ expr_text true (by_name own.now (tree e.now))) }
{
    if let Some(x) = own_part(own, e) {
        return bytes.extend_from_slice(x.as_bytes());
    }
    let parts = parts_of(alloc, e)?;
    push_parts(bytes, alloc, own, parts.as_slice())
}

/// Adds these parts.
#[cycle(push)]
fn push_parts(
    bytes: &mut Vec<u8>,
    alloc: Global,
    own: &Names,
    parts: &[Part<'_>],
) -> Result<(), AllocError>
    ensures { IfOk result (λ _. bytes.new.items ≡ bytes.old.items ++ spec.pieces_text (map (piece_by_name own.now) (map see parts.now))) }
{
    for part in parts {
        push_part(bytes, alloc, own, *part)?;
    }
    Ok(())
}

/// Adds a part.
#[cycle(push)]
fn push_part(
    bytes: &mut Vec<u8>,
    alloc: Global,
    own: &Names,
    part: Part<'_>,
) -> Result<(), AllocError>
    ensures { IfOk result (λ _. bytes.new.items ≡ bytes.old.items ++ spec.piece_text (piece_by_name own.now (see part.entry))) }
{
    match part {
        Part::Bytes(b) => bytes.extend_from_slice(b),
        Part::Name(x) => bytes.extend_from_slice(x.as_bytes()),
        Part::Quoted(s) => push_string(bytes, s.as_bytes()),
        Part::Number(z) => push_integer(bytes, z),
        Part::Operand(e) => push_operand(bytes, alloc, own, e.get()),
        Part::Member(e) => push_operand(bytes, alloc, own, e),
    }
}
