// What a writer of texts needs to know of tokens and marks.
ghost use Rattle.std.specs.Prelude.{◌≡◌, ◌∷◌, ◌++◌, [], ℕ, Bool, List, Some, true, false};
ghost use Rattle.pgo_lexer.specs.declared.token.Lexeme.{Lexeme};
ghost use Rattle.pgo_lexer.specs.declared.token.Token.TheVariants as t;
ghost use Rattle.pgo_lexer.specs.declared.symbol.Symbol.{Symbol};
ghost use Rattle.pgo_lexer.specs.Symbols.{find, signs, begins_no_row};
ghost use Rattle.pgo_lexer.specs.Lexemes.{IsPiece, opens, opens_line, opens_word};
ghost use Rattle.pgo_lexer.specs.Layout.{Marked, AllFrom};

/// A sign is a piece of its own before a byte with which no longer sign begins.
pub fn signs_end()
    ensures { (front rest : List ℕ) (b : ℕ) (symbol : Symbol) → find front signs ≡ Some symbol → begins_no_row (front ++ b ∷ []) signs ≡ true
        → opens (front ++ b ∷ rest) ≡ false → opens_line (front ++ b ∷ rest) ≡ false → opens_word (front ++ b ∷ rest) ≡ false
        → IsPiece front (b ∷ rest) (Some (t.Symbol symbol)) }
{}

/// Marks stay as they are where the tokens stand further right than they must.
pub fn marks_further_right()
    ensures { (s : Bool) (b c : ℕ) (p q : Bool) (rs ms : List Lexeme) → Marked s b p rs ms q → AllFrom c rs → Marked s c p rs ms q }
{}
