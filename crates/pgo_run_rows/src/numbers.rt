// Numbers of a line.
use std::alloc::{AllocError, Global};

/// The numbers of a text, with a blank between two; none where a word is no number below 2^32.
pub fn numbers(alloc: Global, text: &str) -> Result<Option<Vec<u32>>, AllocError> {
    let mut list = Vec::new(alloc);
    for word in text.split_whitespace() {
        match word.parse::<u32>() {
            Ok(n) => list.push(n)?,
            Err(_) => return Ok(None),
        }
    }
    Ok(Some(list))
}

/// The same numbers once more.
pub fn copied(alloc: Global, list: &[u32]) -> Result<Vec<u32>, AllocError> {
    let mut all = Vec::new(alloc);
    all.extend_from_slice(list)?;
    Ok(all)
}
