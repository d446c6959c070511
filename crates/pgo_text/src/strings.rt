// Strings and integers as they are written. What cannot be added for want of memory leaves the bytes with some part of it.
ghost use Rattle.std.specs.Prelude.{◌≡◌, ◌++◌, IfOk};
ghost use Rattle.std.specs.Fmt.{signed_decimal};
ghost use Rattle.pgo_model.specs.ValueText as text;

use itoa::Buffer;
use std::alloc::AllocError;

/// Adds a byte of a string as it is written there.
fn push_escaped(bytes: &mut Vec<u8>, byte: u8) -> Result<(), AllocError>
    ensures { IfOk result (λ _. bytes.new.items ≡ bytes.old.items ++ text.escaped byte) }
{
    match byte {
        b'"' => bytes.extend_from_slice(b"\\\"")?,
        b'\\' => bytes.extend_from_slice(b"\\\\")?,
        b'\n' => bytes.extend_from_slice(b"\\n")?,
        b'\t' => bytes.extend_from_slice(b"\\t")?,
        _ => bytes.push(byte)?,
    }
    Ok(())
}

/// Adds the bytes of a string with its escapes.
fn push_all_escaped(bytes: &mut Vec<u8>, string: &[u8]) -> Result<(), AllocError>
    ensures { IfOk result (λ _. bytes.new.items ≡ bytes.old.items ++ text.all_escaped string.now) }
{
    for byte in string {
        push_escaped(bytes, *byte)?;
    }
    Ok(())
}

/// Adds a string in its quotes: `"`, `\`, a newline and a tab as `\"`, `\\`, `\n` and `\t`, and any other byte as it is.
///
/// `AllocError` comes where there is no memory, and then `bytes` may end with a part of the string.
///
/// Source: "Specifying Systems" for the form, this project's choice for which bytes have an escape.
pub fn push_string(bytes: &mut Vec<u8>, string: &[u8]) -> Result<(), AllocError>
    ensures { IfOk result (λ _. bytes.new.items ≡ bytes.old.items ++ text.string_text string.now) }
{
    bytes.push(b'"')?;
    push_all_escaped(bytes, string)?;
    bytes.push(b'"')?;
    Ok(())
}

/// Adds an integer in decimal digits, behind `-` where it is below 0.
///
/// `AllocError` comes where there is no memory.
///
/// Source: "Specifying Systems".
pub fn push_integer(bytes: &mut Vec<u8>, z: i64) -> Result<(), AllocError>
    ensures { IfOk result (λ _. bytes.new.items ≡ bytes.old.items ++ signed_decimal z) }
{
    let mut buffer = Buffer::new();
    bytes.extend_from_slice(buffer.format(z).as_bytes())
}
