// The constants among the words of a command.
ghost use Rattle.std.specs.Prelude.{◌≡◌, ◌||◌, option_map, IfOk};
ghost use Rattle.pgo_base.specs.Lookup.{Name};
ghost use Rattle.pgo_base.specs.View.{named_data};
ghost use Rattle.pgo_model.specs.ValueText.{same_bytes};
ghost use Rattle.pgo_base.specs.NameMaps.{has_name};
ghost use Rattle.pgo_words.specs.Constants.{ReadsConstant, ConstantsOnly};
ghost use Rattle.pgo_words.specs.Parts.{texts};

use crate::cuts::cut;
use pgo_base::consts::Consts;
use pgo_base::name_map::NameMap;
use pgo_base::text::Text;
use pgo_base::value::Value;
use pgo_text::names::is_name;
use pgo_value_text::errors::ValueStop;
use pgo_value_text::read::read_value;
use std::alloc::{AllocError, Global};

/// The constants of these words, `NAME=value` each; none where a word is no constant, or a name stands twice.
pub fn read_constants(alloc: Global, words: &[&str]) -> Result<Option<Consts>, AllocError>
    ensures { IfOk result (λ o. ConstantsOnly (texts words.now) o) }
{
    let mut list = Vec::new(alloc);
    let mut names = NameMap::new(alloc);
    for word in words {
        match read_constant(alloc, *word)? {
            Some(constant) => {
                if names.contains(&constant.0) {
                    return Ok(None);
                }
                note(alloc, &mut names, &constant.0)?;
                list.push(constant)?;
            }
            None => return Ok(None),
        }
    }
    Ok(Some(Consts::from_vec(list)))
}

/// The constant `NAME=value`; none where the word is another text.
fn read_constant(alloc: Global, word: &str) -> Result<Option<(Text, Value)>, AllocError>
    ensures { IfOk result (λ o. ReadsConstant word.now (option_map named_data o)) }
{
    match cut(word, '=') {
        None => Ok(None),
        Some((name, text)) => {
            if !is_name(name.as_bytes()) {
                return Ok(None);
            }
            match read_value(alloc, text.as_bytes()) {
                Ok(value) => Ok(Some((Text::from_slice(alloc, name.as_bytes())?, value))),
                Err(ValueStop::Bad { .. }) => Ok(None),
                Err(ValueStop::NoMemory) => Err(AllocError),
            }
        }
    }
}

/// The name is one of these from now on.
fn note(alloc: Global, names: &mut NameMap<()>, name: &Text) -> Result<(), AllocError>
    ensures { IfOk result (λ _. (x : Name) → has_name names.new x ≡ same_bytes x name.now || has_name names.old x) }
{
    names.set(alloc, name, ())?;
    Ok(())
}
