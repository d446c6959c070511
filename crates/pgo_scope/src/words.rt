// The names that a specification has anyway.
ghost use Rattle.std.specs.Prelude.{◌≡◌, map};
ghost use Rattle.pgo_base.specs.Lookup.{same_name, find};
ghost use Rattle.pgo_model.specs.Names.{is_among};
ghost use Rattle.pgo_model.specs.Written.{self_name, default_init_value};
ghost use Rattle.pgo_uses.specs.Tables.{operator_rows};
ghost use Rattle.pgo_scope.specs.Modules.{modules};
ghost use Rattle.pgo_scope.specs.Underscores.{has_double};
ghost use Rattle.pgo_scope.specs.Doubles.{double_behind};

use pgo_base::text::Text;

const MODULES: [&[u8]; 5] = [
    b"Naturals",
    b"Integers",
    b"Sequences",
    b"FiniteSets",
    b"TLC",
];

/// The operators of the modules, with the numbers of their arguments.
const OPERATORS: [(&[u8], usize); 8] = [
    (b"Len", 1),
    (b"Head", 1),
    (b"Tail", 1),
    (b"Append", 2),
    (b"SubSeq", 3),
    (b"Cardinality", 1),
    (b"Assert", 2),
    (b"PrintT", 1),
];

/// Whether the name is this word.
pub fn is_word(name: &Text, word: &[u8]) -> bool
    ensures { result ≡ same_name name.now word.now }
{
    name.as_bytes().cmp(word).is_eq()
}

/// Whether the name is one of these words.
fn is_one_of(name: &Text, words: &[&[u8]]) -> bool
    ensures { result ≡ is_among name.now (map (λ w. w.now) words.now) }
{
    for word in words {
        if is_word(name, word) {
            return true;
        }
    }
    false
}

/// Whether there is a module of the name.
pub fn is_module(name: &Text) -> bool
    ensures { result ≡ is_among name.now modules }
{
    is_one_of(name, &MODULES)
}

/// The number of the first word that is the name.
fn number_of(name: &Text, words: &[(&[u8], usize)]) -> Option<usize>
    ensures { result ≡ find name.now (map (λ w. (w.0.now, w.1)) words.now) }
{
    for word in words {
        if is_word(name, word.0) {
            return Some(word.1);
        }
    }
    None
}

/// How many arguments the operator of this name takes; none where there is no such operator.
pub fn operator_count(name: &Text) -> Option<usize>
    ensures { result ≡ find name.now operator_rows }
{
    number_of(name, &OPERATORS)
}

/// Whether the name is `self`.
pub fn is_self(name: &Text) -> bool
    ensures { result ≡ same_name name.now self_name }
{
    is_word(name, b"self")
}

/// Whether the name is `defaultInitValue`.
pub fn is_default(name: &Text) -> bool
    ensures { result ≡ same_name name.now default_init_value }
{
    is_word(name, b"defaultInitValue")
}

/// Whether the name holds `__`.
pub fn has_double_underscore(name: &Text) -> bool
    ensures { result ≡ has_double name.now }
{
    let bytes = name.as_bytes();
    let mut behind = false;
    for b in bytes {
        let is = *b == b'_';
        if behind && is {
            return true;
        }
        behind = is;
    }
    false
}
