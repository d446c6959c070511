// The operands of an expression, and whether a name stands in one.
//
// The operands are the expressions that stand directly in it, in the order of the text. A walk over an expression that
// treats its forms alike goes over them, one level at a time, and so has one loop and one call in place of a case for
// each form. A binder's set is an operand, as are the definitions of a LET, the guards of a CASE, and the indices and
// right sides of EXCEPT; the names that are bound, defined, primed, applied or named as a field are not. Each operand is
// less high than its expression.
//
// A name stands in an expression where the expression, or a part of it at any depth, is that name alone. One that is
// only bound, defined, primed, applied, a field or named in UNCHANGED doesn't. Binders hide nothing: `x` stands in
// `\E x \in S : x > 0`.
#![tactic(auto)]

pub mod mentions;
pub mod operands;
