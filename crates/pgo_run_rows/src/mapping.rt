// The mapping macro of a row.
use pgo_base::items::Copied;
use pgo_mpcal_read::reader::read_spec;
use pgo_syntax::bound::Mapping;
use std::alloc::{AllocError, Global};

/// The mapping of a macro with this text between its braces; the identity where the text is empty, and none where it is no macro.
pub fn mapping(alloc: Global, text: &str) -> Result<Option<Mapping>, AllocError> {
    if text.is_empty() {
        return Ok(Some(Mapping::Identity));
    }
    let text = format!(in alloc;
        "---- MODULE M ----\nEXTENDS Integers, Sequences\n(*\n--mpcal M {{\n  mapping macro X {{ {text} }}\n  archetype A(ref v[_]) {{ l: v[1] := 1; }}\n  variables g = <<0>>;\n  process (P = 1) == instance A(ref g[_])\n    mapping g[_] via X;\n}}\n*)\n====\n"
    )?;
    let Ok(spec) = read_spec(alloc, text.as_str().as_bytes()) else {
        return Ok(None);
    };
    match spec.mappings.as_slice().first() {
        Some(m) => Ok(Some(Mapping::Macro(m.copy(alloc)?))),
        None => Ok(None),
    }
}
