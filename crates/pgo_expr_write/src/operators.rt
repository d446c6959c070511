// The spellings of operators and words.
ghost use Rattle.std.specs.Prelude.{◌≡◌};
ghost use Rattle.pgo_model.specs.ExprText as spec;
ghost use Rattle.pgo_model.specs.ValueText as values;

use pgo_base::expr::{Infix, Prefix, Quantifier, Word};

/// A prefix operator, with one blank behind a word.
pub fn prefix_text(it: Prefix) -> &'static [u8]
    ensures { result.now ≡ spec.prefix_text it }
{
    match it {
        Prefix::Not => b"~",
        Prefix::Minus => b"-",
        Prefix::Powerset => b"SUBSET ",
        Prefix::Flatten => b"UNION ",
        Prefix::Domain => b"DOMAIN ",
    }
}

/// An infix operator with a blank on both sides.
pub fn infix_text(it: Infix) -> &'static [u8]
    ensures { result.now ≡ spec.infix_text it }
{
    match it {
        Infix::Implies => b" => ",
        Infix::Iff => b" <=> ",
        Infix::And => b" /\\ ",
        Infix::Or => b" \\/ ",
        Infix::Equal => b" = ",
        Infix::Differs => b" # ",
        Infix::Less => b" < ",
        Infix::Greater => b" > ",
        Infix::AtMost => b" =< ",
        Infix::AtLeast => b" >= ",
        Infix::In => b" \\in ",
        Infix::NotIn => b" \\notin ",
        Infix::SubsetEq => b" \\subseteq ",
        Infix::Merge => b" @@ ",
        Infix::Single => b" :> ",
        Infix::Union => b" \\cup ",
        Infix::Intersect => b" \\cap ",
        Infix::Without => b" \\ ",
        Infix::Range => b" .. ",
        Infix::Add => b" + ",
        Infix::Subtract => b" - ",
        Infix::Modulo => b" % ",
        Infix::Multiply => b" * ",
        Infix::Concat => b" \\o ",
        Infix::Divide => b" \\div ",
    }
}

/// A quantifier with a blank behind it.
pub fn quantifier_text(it: Quantifier) -> &'static [u8]
    ensures { result.now ≡ spec.quantifier_text it }
{
    match it {
        Quantifier::Exists => b"\\E ",
        Quantifier::Forall => b"\\A ",
    }
}

/// The name of a set that is always there.
pub fn word_text(it: Word) -> &'static [u8]
    ensures { result.now ≡ spec.word_text it }
{
    match it {
        Word::BooleanSet => b"BOOLEAN",
        Word::Nat => b"Nat",
        Word::Int => b"Int",
        Word::StringSet => b"STRING",
    }
}

/// The word for this truth value.
pub fn truth_text(it: bool) -> &'static [u8]
    ensures { result.now ≡ values.truth_text it }
{
    if it { b"TRUE" } else { b"FALSE" }
}
