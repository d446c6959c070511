// The lines of declarations and definitions.
ghost use Rattle.std.specs.Prelude.{◌≡◌, ◌++◌, ◌∷◌, codes, map, IfOk};
ghost use Rattle.std.specs.List.{flat_map};
ghost use Rattle.pgo_pluscal.specs.Text as text;

use crate::words::Word::{Body, Bytes, Name, Whole};
use crate::words::{push_blanks, push_line, push_words};
use pgo_expr_write::errors::NoMemory;
use pgo_syntax::binding::Origin;
use pgo_syntax::declaration::{Declaration, Definition, Definitions};
use pgo_syntax::name::PlacedName;
use std::alloc::Global;

/// Adds the line of variables, where there are some.
pub fn push_variables(
    bytes: &mut Vec<u8>,
    alloc: Global,
    variables: &[Declaration],
) -> Result<(), NoMemory>
    ensures { IfOk result (λ _. bytes.new.items ≡ bytes.old.items ++ text.variables_text variables.now) }
{
    match variables.split_first() {
        Some((first, rest)) => push_some_variables(bytes, alloc, first, rest),
        None => Ok(()),
    }
}

/// Adds the line of a variable and others.
fn push_some_variables(
    bytes: &mut Vec<u8>,
    alloc: Global,
    first: &Declaration,
    rest: &[Declaration],
) -> Result<(), NoMemory>
    ensures { IfOk result (λ _. bytes.new.items ≡ bytes.old.items ++ text.variables_text (first.now ∷ rest.now)) }
{
    push_blanks(bytes, 1)?;
    push_words(bytes, alloc, &[Bytes(b"variables ")])?;
    push_declaration(bytes, alloc, first)?;
    push_declarations(bytes, alloc, rest)?;
    push_words(bytes, alloc, &[Bytes(b";\n")])
}

/// Adds further variables of a line.
fn push_declarations(
    bytes: &mut Vec<u8>,
    alloc: Global,
    variables: &[Declaration],
) -> Result<(), NoMemory>
    ensures { IfOk result (λ _. bytes.new.items ≡ bytes.old.items ++ flat_map (λ y. codes ", " ++ y) (map text.declaration_text variables.now)) }
{
    for variable in variables {
        push_words(bytes, alloc, &[Bytes(b", ")])?;
        push_declaration(bytes, alloc, variable)?;
    }
    Ok(())
}

/// Adds a variable, with what it starts with.
fn push_declaration(
    bytes: &mut Vec<u8>,
    alloc: Global,
    variable: &Declaration,
) -> Result<(), NoMemory>
    ensures { IfOk result (λ _. bytes.new.items ≡ bytes.old.items ++ text.declaration_text variable.now) }
{
    let name = Name(&variable.name.name);
    match &variable.initial {
        None => push_words(bytes, alloc, &[name, Bytes(b" = defaultInitValue")]),
        Some(Origin::Equals(e)) => push_words(bytes, alloc, &[name, Bytes(b" = "), Whole(e)]),
        Some(Origin::In(e)) => push_words(bytes, alloc, &[name, Bytes(b" \\in "), Whole(e)]),
    }
}

/// Adds the block of definitions, if it stands there.
pub fn push_define(
    bytes: &mut Vec<u8>,
    alloc: Global,
    define: &Option<Definitions>,
) -> Result<(), NoMemory>
    ensures { IfOk result (λ _. bytes.new.items ≡ bytes.old.items ++ text.define_text define.now) }
{
    match define {
        None => Ok(()),
        Some(definitions) => {
            push_line(bytes, alloc, 1, &[Bytes(b"define {")])?;
            push_definitions(bytes, alloc, definitions.as_slice())?;
            push_line(bytes, alloc, 1, &[Bytes(b"}")])
        }
    }
}

/// Adds a line for each definition.
fn push_definitions(
    bytes: &mut Vec<u8>,
    alloc: Global,
    definitions: &[Definition],
) -> Result<(), NoMemory>
    ensures { IfOk result (λ _. bytes.new.items ≡ bytes.old.items ++ flat_map text.definition_text definitions.now) }
{
    for definition in definitions {
        push_definition(bytes, alloc, definition)?;
    }
    Ok(())
}

/// Adds the line of a definition.
fn push_definition(
    bytes: &mut Vec<u8>,
    alloc: Global,
    definition: &Definition,
) -> Result<(), NoMemory>
    ensures { IfOk result (λ _. bytes.new.items ≡ bytes.old.items ++ text.definition_text definition.now) }
{
    push_blanks(bytes, 2)?;
    push_words(bytes, alloc, &[Name(&definition.name.name)])?;
    push_parameters(bytes, alloc, definition.params.as_slice())?;
    push_words(
        bytes,
        alloc,
        &[Bytes(b" == "), Body(&definition.body), Bytes(b"\n")],
    )
}

/// Adds the parameters of a definition, in `( )` where there are some.
fn push_parameters(
    bytes: &mut Vec<u8>,
    alloc: Global,
    parameters: &[PlacedName],
) -> Result<(), NoMemory>
    ensures { IfOk result (λ _. bytes.new.items ≡ bytes.old.items ++ text.parameters_text (map (λ x. x.name) parameters.now)) }
{
    match parameters.split_first() {
        Some((first, rest)) => {
            push_words(bytes, alloc, &[Bytes(b"("), Name(&first.name)])?;
            push_names(bytes, alloc, rest)?;
            push_words(bytes, alloc, &[Bytes(b")")])
        }
        None => Ok(()),
    }
}

/// Adds further names of a list.
fn push_names(bytes: &mut Vec<u8>, alloc: Global, names: &[PlacedName]) -> Result<(), NoMemory>
    ensures { IfOk result (λ _. bytes.new.items ≡ bytes.old.items ++ flat_map (λ y. codes ", " ++ y) (map (λ x. x.name) names.now)) }
{
    for name in names {
        push_words(bytes, alloc, &[Bytes(b", "), Name(&name.name)])?;
    }
    Ok(())
}
