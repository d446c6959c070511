// What is written is read back.
ghost use Rattle.std.specs.Prelude.{◌≤◌, ℕ, true, false, List, length};
ghost use Rattle.pgo_base.specs.Tree.{Tree};
ghost use Rattle.pgo_model.specs.ExprText.{expr_text};
ghost use Rattle.pgo_expr_read.specs.Heights.{height};
ghost use Rattle.pgo_expr_read.specs.Texts.{SpellsText, most_tokens};
ghost use Rattle.pgo_expr_write.specs.WellFormed.{IsWellFormed};

use pgo_lexer::laws::signs_end;

/// What some text spells is well formed. What is well formed is spelled by its canonical text, within and without its
/// outermost parentheses, where that is no longer than a text may have tokens. So what is written is read back as it was.
pub fn canonical_text_is_read_back()
    ensures well_formed { (limit : ℕ) (text : List ℕ) (a : Tree) → SpellsText limit text a → IsWellFormed a }
    ensures operand { (limit : ℕ) (a : Tree) → IsWellFormed a → height a ≤ limit → length (expr_text false a) ≤ most_tokens → SpellsText limit (expr_text false a) a }
    ensures body { (limit : ℕ) (a : Tree) → IsWellFormed a → height a ≤ limit → length (expr_text true a) ≤ most_tokens → SpellsText limit (expr_text true a) a }
    ensures again { (limit : ℕ) (text : List ℕ) (a : Tree) → SpellsText limit text a → length (expr_text false a) ≤ most_tokens → SpellsText limit (expr_text false a) a }
{
    signs_end();
}
