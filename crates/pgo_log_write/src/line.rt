// Lines of fields that are parted by one blank.
ghost use Rattle.std.specs.Prelude.{◌≡◌, ◌++◌, codes, decimal, map, IfOk};
ghost use Rattle.std.specs.List.{flat_map};
ghost use Rattle.pgo_model.specs.Bundle as spec;
ghost use Rattle.pgo_log_write.specs.Fields.{field_text, fields_line};

use itoa::Buffer;
use std::alloc::AllocError;

/// A field of a line.
#[derive(Clone, Copy)]
pub enum Field<'a> {
    Word(&'a [u8]),
    Number(u64),
}

/// Adds a number in decimal digits.
fn push_number(bytes: &mut Vec<u8>, number: u64) -> Result<(), AllocError>
    ensures { IfOk result (λ _. bytes.new.items ≡ bytes.old.items ++ decimal number) }
{
    let mut buffer = Buffer::new();
    bytes.extend_from_slice(buffer.format(number).as_bytes())
}

/// Adds a field.
fn push_field(bytes: &mut Vec<u8>, field: Field) -> Result<(), AllocError>
    ensures { IfOk result (λ _. bytes.new.items ≡ bytes.old.items ++ field_text field.entry) }
{
    match field {
        Field::Word(word) => bytes.extend_from_slice(word),
        Field::Number(number) => push_number(bytes, number),
    }
}

/// Adds further fields of a line.
fn push_more(bytes: &mut Vec<u8>, fields: &[Field]) -> Result<(), AllocError>
    ensures { IfOk result (λ _. bytes.new.items ≡ bytes.old.items ++ flat_map (λ f. codes " " ++ field_text f) fields.now) }
{
    for field in fields {
        bytes.push(b' ')?;
        push_field(bytes, *field)?;
    }
    Ok(())
}

/// Adds these fields, parted by blanks.
fn push_fields(bytes: &mut Vec<u8>, fields: &[Field]) -> Result<(), AllocError>
    ensures { IfOk result (λ _. bytes.new.items ≡ bytes.old.items ++ spec.fields (map field_text fields.now)) }
{
    match fields.split_first() {
        Some((first, rest)) => {
            push_field(bytes, *first)?;
            push_more(bytes, rest)
        }
        None => Ok(()),
    }
}

/// Adds a line of these fields.
pub fn push_line(bytes: &mut Vec<u8>, fields: &[Field]) -> Result<(), AllocError>
    ensures { IfOk result (λ _. bytes.new.items ≡ bytes.old.items ++ fields_line fields.now) }
{
    push_fields(bytes, fields)?;
    bytes.push(b'\n')?;
    Ok(())
}
