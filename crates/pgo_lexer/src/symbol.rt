// Reserved words and signs.
use pgo_base::expr::{Infix, Prefix, Quantifier, Word};

/// The two operators of junction lists.
#[derive(Clone, Copy, PartialEq, Eq)]
pub enum Junction {
    And,
    Or,
}

/// What stands in `( )`, `[ ]`, `{ }` and `<< >>`.
#[derive(Clone, Copy, PartialEq, Eq)]
pub enum Bracket {
    Round,
    Square,
    Curly,
    Angle,
}

/// The reserved words of algorithms ("the PlusCal manual" and "the Modular PlusCal paper").
#[derive(Clone, Copy, PartialEq, Eq)]
pub enum Keyword {
    Define,
    Macro,
    Mapping,
    Read,
    Write,
    Archetype,
    /// `variables`, or `variable`.
    Variables,
    Fair,
    Process,
    Instance,
    Ref,
    Via,
    Skip,
    If,
    Else,
    While,
    Either,
    Or,
    Await,
    When,
    With,
    Print,
    Assert,
    Goto,
    Yield,
}

/// A reserved word or a sign.
#[derive(Clone, Copy, PartialEq, Eq)]
pub enum Symbol {
    /// An operator between its operands. `-` is `Subtract` wherever it stands, `=` is `Equal`, and `\in` is `In`.
    Infix(Infix),
    /// `~`, `SUBSET`, `UNION` or `DOMAIN`.
    Prefix(Prefix),
    /// `\E` or `\A`.
    Quantifier(Quantifier),
    /// `BOOLEAN`, `Nat`, `Int` or `STRING`.
    Word(Word),
    /// `TRUE` or `FALSE`.
    Truth(bool),
    Keyword(Keyword),
    /// `(`, `[`, `{` or `<<`.
    Open(Bracket),
    /// `)`, `]`, `}` or `>>`.
    Close(Bracket),
    /// `\X`.
    Product,
    /// `'`.
    Prime,
    /// `@`.
    At,
    Except,
    Unchanged,
    Choose,
    If,
    Then,
    Else,
    Case,
    Other,
    Let,
    /// `IN`.
    LetIn,
    Comma,
    Colon,
    Semicolon,
    Dot,
    Bang,
    /// `|->`.
    MapsTo,
    /// `->`.
    Arrow,
    /// `[]`.
    Box,
    /// `==`.
    Defines,
    /// `:=`.
    Assign,
    /// `||`.
    Bars,
    /// `_` alone.
    Underscore,
    /// `$variable`.
    Variable,
    /// `$value`.
    Value,
}
