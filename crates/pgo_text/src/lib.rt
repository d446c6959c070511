// Words and strings, as every text here has them: which bytes are letters, digits, reserved words and names, and how a
// string stands in its quotes. The readers and writers of values, expressions, modules and logs call these,
// so that a word means the same in each text.
//
// - `bytes`: letters, digits, and the bytes of words.
// - `names`: the words that the language keeps to itself, and those that name something.
// - `strings`: strings with their escapes and integers, added to the bytes of a text.
//
// What a reserved word stands for in a specification is told by `pgo_lexer`.
#![tactic(auto)]

pub mod bytes;
pub mod names;
pub mod strings;
