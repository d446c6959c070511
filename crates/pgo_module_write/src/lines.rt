// Lines of words.
ghost use Rattle.std.specs.Prelude.{◌≡◌, ◌++◌, codes, map, IfOk};
ghost use Rattle.std.specs.List.{flat_map};
ghost use Rattle.pgo_model.specs.ExprText.{names_text};
ghost use Rattle.pgo_model.specs.ModuleText.{flatten, line};

use pgo_base::text::Text;
use std::alloc::{AllocError, Global};

/// Adds these words.
pub fn push_words(bytes: &mut Vec<u8>, words: &[&[u8]]) -> Result<(), AllocError>
    ensures { IfOk result (λ _. bytes.new.items ≡ bytes.old.items ++ flatten (map (λ w. w.now) words.now)) }
{
    for word in words {
        bytes.extend_from_slice(word)?;
    }
    Ok(())
}

/// Adds a line of these words.
pub fn push_line(bytes: &mut Vec<u8>, words: &[&[u8]]) -> Result<(), AllocError>
    ensures { IfOk result (λ _. bytes.new.items ≡ bytes.old.items ++ line (flatten (map (λ w. w.now) words.now))) }
{
    push_words(bytes, words)?;
    bytes.push(b'\n')?;
    Ok(())
}

/// Adds further names of a list.
fn push_more(bytes: &mut Vec<u8>, names: &[Text]) -> Result<(), AllocError>
    ensures { IfOk result (λ _. bytes.new.items ≡ bytes.old.items ++ flat_map (λ y. codes ", " ++ y) names.now) }
{
    for name in names {
        push_words(bytes, &[b", ", name.as_bytes()])?;
    }
    Ok(())
}

/// Names with commas between them.
#[tactic(auto, using(crate::proofs::Words::names_listed))]
pub fn listed(alloc: Global, names: &[Text]) -> Result<Vec<u8>, AllocError>
    ensures { IfOk result (λ v. v.items ≡ names_text names.now) }
{
    match names.split_first() {
        Some((first, rest)) => {
            let mut bytes = Vec::from_slice(alloc, first.as_bytes())?;
            push_more(&mut bytes, rest)?;
            Ok(bytes)
        }
        None => Ok(Vec::new(alloc)),
    }
}
