// Texts of one line that stand for any text.
use std::alloc::{AllocError, Global};

/// The text in which %n stands for a newline, %t for a tab, %r for a carriage return, and % before another for that one.
pub fn unescaped(alloc: Global, text: &str) -> Result<String, AllocError> {
    let mut plain = String::new(alloc);
    let mut is_escaped = false;
    for c in text.chars() {
        if is_escaped {
            plain.push(meant(c))?;
            is_escaped = false;
        } else if c == '%' {
            is_escaped = true;
        } else {
            plain.push(c)?;
        }
    }
    Ok(plain)
}

/// What a character behind % stands for.
fn meant(c: char) -> char {
    match c {
        'n' => '\n',
        't' => '\t',
        'r' => '\r',
        '0' => '\0',
        other => other,
    }
}

/// A text of one line, from which `unescaped` gives this one.
pub fn escaped(alloc: Global, plain: &str) -> Result<String, AllocError> {
    let mut text = String::new(alloc);
    for c in plain.chars() {
        if let Some(letter) = letter_of(c) {
            text.push('%')?;
            text.push(letter)?;
        } else {
            text.push(c)?;
        }
    }
    Ok(text)
}

/// What stands behind % for a character that is written so.
fn letter_of(c: char) -> Option<char> {
    match c {
        '\n' => Some('n'),
        '\t' => Some('t'),
        '\r' => Some('r'),
        '\0' => Some('0'),
        '%' => Some('%'),
        _ => None,
    }
}
