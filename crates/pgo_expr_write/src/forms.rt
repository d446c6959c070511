// The parts of an expression, without its own `( )`.
ghost use Rattle.std.specs.Prelude.{◌≡◌, ◌++◌, map, IfOk};
ghost use Rattle.pgo_base.specs.ExprView.{tree};
ghost use Rattle.pgo_base.specs.Tree.{trees, named, arms, bound, paths, tuple, set_of, call, index, cond_of, case_of, case_other, let_in, quantified, choose, filter_of, image, fun_of, fun_set, except, unchanged};
ghost use Rattle.pgo_expr_write.specs.Parts.{see};
ghost use Rattle.pgo_expr_write.specs.Pieces as spec;

use crate::lists::{add_arms, add_binders, add_list, add_named, add_names, add_updates};
use crate::operators::{infix_text, prefix_text, quantifier_text, truth_text, word_text};
use crate::parts::Part::{Bytes, Name, Number, Operand, Quoted};
use crate::parts::{Part, add};
use pgo_base::expr::{Arms, Binders, Expr, Exprs, Named, Names, Quantifier, Sub, Updates};
use pgo_base::text::Text;
use std::alloc::{AllocError, Global};

/// The parts of an expression, without its own `( )`.
pub fn parts_of<'a>(alloc: Global, e: &'a Expr) -> Result<Vec<Part<'a>>, AllocError>
    ensures { IfOk result (λ v. map see v.items ≡ spec.pieces_of (tree e.now)) }
{
    let mut parts = Vec::new(alloc);
    add_form(&mut parts, e)?;
    Ok(parts)
}

fn add_form<'a>(parts: &mut Vec<Part<'a>>, e: &'a Expr) -> Result<(), AllocError>
    ensures { IfOk result (λ _. map see parts.new.items ≡ map see parts.old.items ++ spec.pieces_of (tree e.now)) }
{
    match e {
        Expr::Name(x) => add(parts, &[Name(x)]),
        Expr::Primed(x) => add(parts, &[Name(x), Bytes(b"'")]),
        Expr::Number(z) => add(parts, &[Number(*z)]),
        Expr::Text(s) => add(parts, &[Quoted(s)]),
        Expr::Truth(b) => add(parts, &[Bytes(truth_text(*b))]),
        Expr::At => add(parts, &[Bytes(b"@")]),
        Expr::Word(w) => add(parts, &[Bytes(word_text(*w))]),
        Expr::Prefix(p, a) => add(parts, &[Bytes(prefix_text(*p)), Operand(a)]),
        Expr::Infix(p, a, b) => add(parts, &[Operand(a), Bytes(infix_text(*p)), Operand(b)]),
        Expr::Product(list) => add_list(parts, list, b" \\X "),
        Expr::If(p, a, b) => add_if(parts, p, a, b),
        Expr::Case(list) => add_case(parts, list),
        Expr::CaseOther(list, e) => add_case_other(parts, list, e),
        Expr::Let(list, e) => add_let(parts, list, e),
        Expr::Quantified(q, list, p) => add_quantified(parts, *q, list, p),
        Expr::Choose(x, s, p) => add_choose(parts, x, s, p),
        Expr::Tuple(list) => add_tuple(parts, list),
        Expr::SetOf(list) => add_set(parts, list),
        Expr::Filter(x, s, p) => add_filter(parts, x, s, p),
        Expr::Image(e, x, s) => add_image(parts, e, x, s),
        Expr::FunOf(list, e) => add_function(parts, list, e),
        Expr::FunSet(a, b) => add_function_set(parts, a, b),
        Expr::Record(list) => add_record(parts, list, b" |-> "),
        Expr::RecordSet(list) => add_record(parts, list, b" : "),
        Expr::Except(f, list) => add_except(parts, f, list),
        Expr::Index(f, list) => add_index(parts, f, list),
        Expr::Field(r, x) => add(parts, &[Operand(r), Bytes(b"."), Name(x)]),
        Expr::Call(x, list) => add_call(parts, x, list),
        Expr::Unchanged(names) => add_unchanged(parts, names),
    }
}

fn add_if<'a>(
    parts: &mut Vec<Part<'a>>,
    p: &'a Sub,
    a: &'a Sub,
    b: &'a Sub,
) -> Result<(), AllocError>
    ensures { IfOk result (λ _. map see parts.new.items ≡ map see parts.old.items ++ spec.pieces_of (cond_of p.now a.now b.now)) }
{
    add(
        parts,
        &[
            Bytes(b"IF "),
            Operand(p),
            Bytes(b" THEN "),
            Operand(a),
            Bytes(b" ELSE "),
            Operand(b),
        ],
    )
}

fn add_case<'a>(parts: &mut Vec<Part<'a>>, list: &'a Arms) -> Result<(), AllocError>
    ensures { IfOk result (λ _. map see parts.new.items ≡ map see parts.old.items ++ spec.pieces_of (case_of (arms list.now))) }
{
    add(parts, &[Bytes(b"CASE ")])?;
    add_arms(parts, list)
}

fn add_case_other<'a>(
    parts: &mut Vec<Part<'a>>,
    list: &'a Arms,
    e: &'a Sub,
) -> Result<(), AllocError>
    ensures { IfOk result (λ _. map see parts.new.items ≡ map see parts.old.items ++ spec.pieces_of (case_other (arms list.now) e.now)) }
{
    add(parts, &[Bytes(b"CASE ")])?;
    add_arms(parts, list)?;
    add(parts, &[Bytes(b" [] OTHER -> "), Operand(e)])
}

fn add_let<'a>(parts: &mut Vec<Part<'a>>, list: &'a Named, e: &'a Sub) -> Result<(), AllocError>
    ensures { IfOk result (λ _. map see parts.new.items ≡ map see parts.old.items ++ spec.pieces_of (let_in (named list.now) e.now)) }
{
    add(parts, &[Bytes(b"LET ")])?;
    add_named(parts, list, b" == ", b" ")?;
    add(parts, &[Bytes(b" IN "), Operand(e)])
}

fn add_quantified<'a>(
    parts: &mut Vec<Part<'a>>,
    q: Quantifier,
    list: &'a Binders,
    p: &'a Sub,
) -> Result<(), AllocError>
    ensures { IfOk result (λ _. map see parts.new.items ≡ map see parts.old.items ++ spec.pieces_of (quantified q (bound list.now) p.now)) }
{
    add(parts, &[Bytes(quantifier_text(q))])?;
    add_binders(parts, list)?;
    add(parts, &[Bytes(b" : "), Operand(p)])
}

fn add_choose<'a>(
    parts: &mut Vec<Part<'a>>,
    x: &'a Text,
    s: &'a Sub,
    p: &'a Sub,
) -> Result<(), AllocError>
    ensures { IfOk result (λ _. map see parts.new.items ≡ map see parts.old.items ++ spec.pieces_of (choose x.now s.now p.now)) }
{
    add(
        parts,
        &[
            Bytes(b"CHOOSE "),
            Name(x),
            Bytes(b" \\in "),
            Operand(s),
            Bytes(b" : "),
            Operand(p),
        ],
    )
}

fn add_tuple<'a>(parts: &mut Vec<Part<'a>>, list: &'a Exprs) -> Result<(), AllocError>
    ensures { IfOk result (λ _. map see parts.new.items ≡ map see parts.old.items ++ spec.pieces_of (tuple (trees list.now))) }
{
    add(parts, &[Bytes(b"<<")])?;
    add_list(parts, list, b", ")?;
    add(parts, &[Bytes(b">>")])
}

fn add_set<'a>(parts: &mut Vec<Part<'a>>, list: &'a Exprs) -> Result<(), AllocError>
    ensures { IfOk result (λ _. map see parts.new.items ≡ map see parts.old.items ++ spec.pieces_of (set_of (trees list.now))) }
{
    add(parts, &[Bytes(b"{")])?;
    add_list(parts, list, b", ")?;
    add(parts, &[Bytes(b"}")])
}

fn add_filter<'a>(
    parts: &mut Vec<Part<'a>>,
    x: &'a Text,
    s: &'a Sub,
    p: &'a Sub,
) -> Result<(), AllocError>
    ensures { IfOk result (λ _. map see parts.new.items ≡ map see parts.old.items ++ spec.pieces_of (filter_of x.now s.now p.now)) }
{
    add(
        parts,
        &[
            Bytes(b"{"),
            Name(x),
            Bytes(b" \\in "),
            Operand(s),
            Bytes(b" : "),
            Operand(p),
            Bytes(b"}"),
        ],
    )
}

fn add_image<'a>(
    parts: &mut Vec<Part<'a>>,
    e: &'a Sub,
    x: &'a Text,
    s: &'a Sub,
) -> Result<(), AllocError>
    ensures { IfOk result (λ _. map see parts.new.items ≡ map see parts.old.items ++ spec.pieces_of (image e.now x.now s.now)) }
{
    add(
        parts,
        &[
            Bytes(b"{"),
            Operand(e),
            Bytes(b" : "),
            Name(x),
            Bytes(b" \\in "),
            Operand(s),
            Bytes(b"}"),
        ],
    )
}

fn add_function<'a>(
    parts: &mut Vec<Part<'a>>,
    list: &'a Binders,
    e: &'a Sub,
) -> Result<(), AllocError>
    ensures { IfOk result (λ _. map see parts.new.items ≡ map see parts.old.items ++ spec.pieces_of (fun_of (bound list.now) e.now)) }
{
    add(parts, &[Bytes(b"[")])?;
    add_binders(parts, list)?;
    add(parts, &[Bytes(b" |-> "), Operand(e), Bytes(b"]")])
}

fn add_function_set<'a>(parts: &mut Vec<Part<'a>>, a: &'a Sub, b: &'a Sub) -> Result<(), AllocError>
    ensures { IfOk result (λ _. map see parts.new.items ≡ map see parts.old.items ++ spec.pieces_of (fun_set a.now b.now)) }
{
    add(
        parts,
        &[
            Bytes(b"["),
            Operand(a),
            Bytes(b" -> "),
            Operand(b),
            Bytes(b"]"),
        ],
    )
}

fn add_record<'a>(
    parts: &mut Vec<Part<'a>>,
    list: &'a Named,
    sign: &'a [u8],
) -> Result<(), AllocError>
    ensures { IfOk result (λ _. map see parts.new.items ≡ map see parts.old.items ++ spec.record_pieces sign.now (named list.now)) }
{
    add(parts, &[Bytes(b"[")])?;
    add_named(parts, list, sign, b", ")?;
    add(parts, &[Bytes(b"]")])
}

fn add_except<'a>(
    parts: &mut Vec<Part<'a>>,
    f: &'a Sub,
    list: &'a Updates,
) -> Result<(), AllocError>
    ensures { IfOk result (λ _. map see parts.new.items ≡ map see parts.old.items ++ spec.pieces_of (except f.now (paths list.now))) }
{
    add(parts, &[Bytes(b"["), Operand(f), Bytes(b" EXCEPT ")])?;
    add_updates(parts, list)?;
    add(parts, &[Bytes(b"]")])
}

fn add_index<'a>(parts: &mut Vec<Part<'a>>, f: &'a Sub, list: &'a Exprs) -> Result<(), AllocError>
    ensures { IfOk result (λ _. map see parts.new.items ≡ map see parts.old.items ++ spec.pieces_of (index f.now (trees list.now))) }
{
    add(parts, &[Operand(f), Bytes(b"[")])?;
    add_list(parts, list, b", ")?;
    add(parts, &[Bytes(b"]")])
}

fn add_call<'a>(parts: &mut Vec<Part<'a>>, x: &'a Text, list: &'a Exprs) -> Result<(), AllocError>
    ensures { IfOk result (λ _. map see parts.new.items ≡ map see parts.old.items ++ spec.pieces_of (call x.now (trees list.now))) }
{
    add(parts, &[Name(x), Bytes(b"(")])?;
    add_list(parts, list, b", ")?;
    add(parts, &[Bytes(b")")])
}

fn add_unchanged<'a>(parts: &mut Vec<Part<'a>>, names: &'a Names) -> Result<(), AllocError>
    ensures { IfOk result (λ _. map see parts.new.items ≡ map see parts.old.items ++ spec.pieces_of (unchanged names.now)) }
{
    add(parts, &[Bytes(b"UNCHANGED <<")])?;
    add_names(parts, names)?;
    add(parts, &[Bytes(b">>")])
}
