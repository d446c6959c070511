// The lines of a text by their numbers. The line of a byte is proved, and that a line that is named is one of the text; at which
// byte a text is refused, no clause says.
ghost use Rattle.std.specs.Prelude.{◌≡◌, ◌+◌, ◌-◌, ◌^◌, length, take, min};
ghost use Rattle.pgo_log_text.specs.LineNumbers as spec;

use crate::lines::are_named;
use pgo_base::consts::Consts;
use pgo_base::expr::Names;
use pgo_base::slices;
use pgo_lexer::bytes::skip;
use pgo_lexer::errors::TextStop;
use pgo_module_read::refusal::refusal;
use std::alloc::Global;

/// How many lines end in the text.
fn newlines(text: &[u8]) -> usize
    ensures { result ≡ spec.newlines text.now }
{
    let mut count = 0;
    for b in text {
        if *b == b'\n' {
            count += 1;
        }
    }
    count
}

/// The line of this number, or the first or the last of the text where it has none of that number.
pub fn within(text: &[u8], line: usize) -> usize
    ensures there { spec.IsLineOf text.now result }
    ensures kept { spec.IsLineOf text.now line → result ≡ line }
{
    line.max(1).min(newlines(text).saturating_add(1))
}

/// The line of the byte at this place, where the first line has this number.
pub fn line_at(text: &[u8], place: usize, first: usize) -> usize
    ensures { result ≡ min (first + spec.newlines (take place text.now)) (2 ^ 64 - 1) }
{
    first.saturating_add(newlines(slices::first(text, place)))
}

/// The line of the byte before which so many are left.
pub fn line_before(text: &[u8], left: usize) -> usize
    ensures { result ≡ min (1 + spec.newlines (take (length text.now - left) text.now)) (2 ^ 64 - 1) }
{
    line_at(text, text.len().saturating_sub(left), 1)
}

/// The line at which the bytes of a module are refused, where their first line has this number and these are the constants; none
/// where there is no memory.
pub fn module_line(alloc: Global, part: &[u8], first: usize, consts: &Consts) -> Option<usize> {
    match refusal(alloc, part, Some(consts)) {
        TextStop::Syntax { offset } => Some(line_at(part, offset as usize, first)),
        TextStop::NoMemory => None,
    }
}

/// The bytes behind the first line, if they are all that was read.
fn behind_line(bytes: &[u8], left: usize) -> Option<&[u8]> {
    match bytes.iter().position(|b| *b == b'\n') {
        Some(place) if left == 0 => Some(skip(bytes, place.saturating_add(1))),
        _ => None,
    }
}

/// The line at which a text is refused that has too few bytes of its module, or another line in place of the number of these. So many
/// bytes of it are left before this line, and where it is refused.
pub fn part_line(
    alloc: Global,
    text: &[u8],
    before: usize,
    left: usize,
    consts: &Consts,
) -> Option<usize> {
    let bytes = skip(text, text.len().saturating_sub(before));
    match behind_line(bytes, left) {
        Some(part) => module_line(alloc, part, line_before(text, part.len()), consts),
        None => Some(line_before(text, left)),
    }
}

/// The line of the byte before which so many of the text are left, or, where the constants aren't those of the module in this
/// part, the line at which these refuse it.
pub fn log_line(
    alloc: Global,
    text: &[u8],
    left: usize,
    part: &[u8],
    first: usize,
    consts: &Consts,
    names: &Names,
) -> Option<usize> {
    if are_named(consts.as_slice(), names.as_slice()) {
        Some(line_before(text, left))
    } else {
        module_line(alloc, part, first, consts)
    }
}
