// Answers as texts.
use std::alloc::AllocError;

/// None where the answer is what is wanted.
pub fn unless_same(answer: String, wanted: &str) -> Option<String> {
    if answer.as_str() == wanted {
        None
    } else {
        Some(answer)
    }
}

/// Adds a word behind the others, with a text between.
pub fn push_word(list: &mut String, between: &str, word: &str) -> Result<(), AllocError> {
    if !list.is_empty() {
        list.push_str(between)?;
    }
    list.push_str(word)
}
