// Which reserved word or sign some bytes spell.
ghost use Rattle.std.specs.Prelude.{◌≡◌, map};
ghost use Rattle.pgo_lexer.specs.Symbols as spec;

use crate::bytes::is_same;
use crate::symbol::{Bracket, Keyword, Symbol};
use pgo_base::expr::{Infix, Prefix, Quantifier, Word};

/// The reserved words.
const RESERVED: [(&[u8], Symbol); 45] = [
    (b"TRUE", Symbol::Truth(true)),
    (b"FALSE", Symbol::Truth(false)),
    (b"BOOLEAN", Symbol::Word(Word::BooleanSet)),
    (b"STRING", Symbol::Word(Word::StringSet)),
    (b"Nat", Symbol::Word(Word::Nat)),
    (b"Int", Symbol::Word(Word::Int)),
    (b"SUBSET", Symbol::Prefix(Prefix::Powerset)),
    (b"UNION", Symbol::Prefix(Prefix::Flatten)),
    (b"DOMAIN", Symbol::Prefix(Prefix::Domain)),
    (b"EXCEPT", Symbol::Except),
    (b"UNCHANGED", Symbol::Unchanged),
    (b"CHOOSE", Symbol::Choose),
    (b"IF", Symbol::If),
    (b"THEN", Symbol::Then),
    (b"ELSE", Symbol::Else),
    (b"CASE", Symbol::Case),
    (b"OTHER", Symbol::Other),
    (b"LET", Symbol::Let),
    (b"IN", Symbol::LetIn),
    (b"define", Symbol::Keyword(Keyword::Define)),
    (b"macro", Symbol::Keyword(Keyword::Macro)),
    (b"mapping", Symbol::Keyword(Keyword::Mapping)),
    (b"read", Symbol::Keyword(Keyword::Read)),
    (b"write", Symbol::Keyword(Keyword::Write)),
    (b"archetype", Symbol::Keyword(Keyword::Archetype)),
    (b"variable", Symbol::Keyword(Keyword::Variables)),
    (b"variables", Symbol::Keyword(Keyword::Variables)),
    (b"fair", Symbol::Keyword(Keyword::Fair)),
    (b"process", Symbol::Keyword(Keyword::Process)),
    (b"instance", Symbol::Keyword(Keyword::Instance)),
    (b"ref", Symbol::Keyword(Keyword::Ref)),
    (b"via", Symbol::Keyword(Keyword::Via)),
    (b"skip", Symbol::Keyword(Keyword::Skip)),
    (b"if", Symbol::Keyword(Keyword::If)),
    (b"else", Symbol::Keyword(Keyword::Else)),
    (b"while", Symbol::Keyword(Keyword::While)),
    (b"either", Symbol::Keyword(Keyword::Either)),
    (b"or", Symbol::Keyword(Keyword::Or)),
    (b"await", Symbol::Keyword(Keyword::Await)),
    (b"when", Symbol::Keyword(Keyword::When)),
    (b"with", Symbol::Keyword(Keyword::With)),
    (b"print", Symbol::Keyword(Keyword::Print)),
    (b"assert", Symbol::Keyword(Keyword::Assert)),
    (b"goto", Symbol::Keyword(Keyword::Goto)),
    (b"yield", Symbol::Keyword(Keyword::Yield)),
];

/// The signs; of those that begin a text the longest is taken.
const SIGNS: [(&[u8], Symbol); 42] = [
    (b"|->", Symbol::MapsTo),
    (b"<=>", Symbol::Infix(Infix::Iff)),
    (b"/\\", Symbol::Infix(Infix::And)),
    (b"\\/", Symbol::Infix(Infix::Or)),
    (b"=>", Symbol::Infix(Infix::Implies)),
    (b"=<", Symbol::Infix(Infix::AtMost)),
    (b"<=", Symbol::Infix(Infix::AtMost)),
    (b">=", Symbol::Infix(Infix::AtLeast)),
    (b"/=", Symbol::Infix(Infix::Differs)),
    (b"@@", Symbol::Infix(Infix::Merge)),
    (b":>", Symbol::Infix(Infix::Single)),
    (b"..", Symbol::Infix(Infix::Range)),
    (b"<<", Symbol::Open(Bracket::Angle)),
    (b">>", Symbol::Close(Bracket::Angle)),
    (b"->", Symbol::Arrow),
    (b"==", Symbol::Defines),
    (b":=", Symbol::Assign),
    (b"[]", Symbol::Box),
    (b"||", Symbol::Bars),
    (b"=", Symbol::Infix(Infix::Equal)),
    (b"#", Symbol::Infix(Infix::Differs)),
    (b"<", Symbol::Infix(Infix::Less)),
    (b">", Symbol::Infix(Infix::Greater)),
    (b"\\", Symbol::Infix(Infix::Without)),
    (b"+", Symbol::Infix(Infix::Add)),
    (b"-", Symbol::Infix(Infix::Subtract)),
    (b"%", Symbol::Infix(Infix::Modulo)),
    (b"*", Symbol::Infix(Infix::Multiply)),
    (b"~", Symbol::Prefix(Prefix::Not)),
    (b"'", Symbol::Prime),
    (b"@", Symbol::At),
    (b"(", Symbol::Open(Bracket::Round)),
    (b")", Symbol::Close(Bracket::Round)),
    (b"[", Symbol::Open(Bracket::Square)),
    (b"]", Symbol::Close(Bracket::Square)),
    (b"{", Symbol::Open(Bracket::Curly)),
    (b"}", Symbol::Close(Bracket::Curly)),
    (b",", Symbol::Comma),
    (b":", Symbol::Colon),
    (b";", Symbol::Semicolon),
    (b".", Symbol::Dot),
    (b"!", Symbol::Bang),
];

/// The words behind a backslash.
const SLASH_WORDS: [(&[u8], Symbol); 19] = [
    (b"in", Symbol::Infix(Infix::In)),
    (b"notin", Symbol::Infix(Infix::NotIn)),
    (b"subseteq", Symbol::Infix(Infix::SubsetEq)),
    (b"cup", Symbol::Infix(Infix::Union)),
    (b"union", Symbol::Infix(Infix::Union)),
    (b"cap", Symbol::Infix(Infix::Intersect)),
    (b"intersect", Symbol::Infix(Infix::Intersect)),
    (b"o", Symbol::Infix(Infix::Concat)),
    (b"circ", Symbol::Infix(Infix::Concat)),
    (b"div", Symbol::Infix(Infix::Divide)),
    (b"X", Symbol::Product),
    (b"E", Symbol::Quantifier(Quantifier::Exists)),
    (b"A", Symbol::Quantifier(Quantifier::Forall)),
    (b"leq", Symbol::Infix(Infix::AtMost)),
    (b"geq", Symbol::Infix(Infix::AtLeast)),
    (b"land", Symbol::Infix(Infix::And)),
    (b"lor", Symbol::Infix(Infix::Or)),
    (b"lnot", Symbol::Prefix(Prefix::Not)),
    (b"neg", Symbol::Prefix(Prefix::Not)),
];

/// The words behind a `$`.
const DOLLAR_WORDS: [(&[u8], Symbol); 2] = [
    (b"variable", Symbol::Variable),
    (b"value", Symbol::Value),
];

/// The symbol of the first row with this spelling.
fn find(spelling: &[u8], rows: &[(&[u8], Symbol)]) -> Option<Symbol>
    ensures { result ≡ spec.find spelling.now (map (λ r. (r.0.now, r.1)) rows.now) }
{
    for row in rows {
        if is_same(spelling, row.0) {
            return Some(row.1);
        }
    }
    None
}

/// The reserved word that this word is.
pub fn find_reserved(word: &[u8]) -> Option<Symbol>
    ensures { result ≡ spec.find word.now spec.reserved }
{
    find(word, &RESERVED)
}

/// The sign that these bytes are.
pub fn find_sign(sign: &[u8]) -> Option<Symbol>
    ensures { result ≡ spec.find sign.now spec.signs }
{
    find(sign, &SIGNS)
}

/// The operator that this word is behind a backslash.
pub fn find_slash_word(word: &[u8]) -> Option<Symbol>
    ensures { result ≡ spec.find word.now spec.slash_words }
{
    find(word, &SLASH_WORDS)
}

/// What this word is behind a `$`.
pub fn find_dollar_word(word: &[u8]) -> Option<Symbol>
    ensures { result ≡ spec.find word.now spec.dollar_words }
{
    find(word, &DOLLAR_WORDS)
}
