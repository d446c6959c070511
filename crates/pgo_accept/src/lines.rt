// The lines of refusals.
ghost use Rattle.std.specs.Prelude.{◌≡◌, Some, IfOk};
ghost use Rattle.pgo_accept.specs.Refusals as spec;

use crate::errors::Rejection;
use pgo_base::text::Text;
use pgo_bind::errors::BindError;
use pgo_expand::errors::ExpandStop;
use pgo_labels::errors::LabelError;
use pgo_lines::line::Line;
use pgo_lines::line::Piece::{Bytes, Name, Number};
use pgo_scope::errors::ScopeError;
use pgo_value_text::write::write_value;
use std::alloc::{AllocError, Global};

/// These words, a name and a newline.
fn one_name<'x>(alloc: Global, words: &'x [u8], name: &'x Text) -> Result<Line, AllocError>
    ensures { IfOk result (λ l. l ≡ spec.one_name words.now name.now) }
{
    Line::of(alloc, &[Bytes(words), Name(name), Bytes(b"\n")])
}

/// These words, two names with a blank between them, and a newline.
fn two_names<'x>(
    alloc: Global,
    words: &'x [u8],
    first: &'x Text,
    second: &'x Text,
) -> Result<Line, AllocError>
    ensures { IfOk result (λ l. l ≡ spec.two_names words.now first.now second.now) }
{
    Line::of(
        alloc,
        &[
            Bytes(words),
            Name(first),
            Bytes(b" "),
            Name(second),
            Bytes(b"\n"),
        ],
    )
}

/// These words, a name, a blank, a number and a newline.
fn name_and_number<'x>(
    alloc: Global,
    words: &'x [u8],
    name: &'x Text,
    number: u64,
) -> Result<Line, AllocError>
    ensures { IfOk result (λ l. l ≡ spec.name_and_number words.now name.now number) }
{
    Line::of(
        alloc,
        &[
            Bytes(words),
            Name(name),
            Bytes(b" "),
            Number(number),
            Bytes(b"\n"),
        ],
    )
}

/// These words, a number and a newline.
fn one_number(alloc: Global, words: &[u8], number: u64) -> Result<Line, AllocError>
    ensures { IfOk result (λ l. l ≡ spec.one_number words.now number) }
{
    Line::of(alloc, &[Bytes(words), Number(number), Bytes(b"\n")])
}

/// The line of a refusal of names; want of memory has none.
fn scope_line(alloc: Global, error: &ScopeError) -> Result<Line, AllocError>
    ensures { IfOk result (λ l. spec.scope_line error.now ≡ Some l) }
{
    match error {
        ScopeError::Unknown { name } => one_name(alloc, b"pgo: scope 1 Unknown ", name),
        ScopeError::Twice { name } => one_name(alloc, b"pgo: scope 2 Twice ", name),
        ScopeError::Arity { name, got } => {
            name_and_number(alloc, b"pgo: scope 3 Arity ", name, *got as u64)
        }
        ScopeError::GlobalInArchetype { name } => {
            one_name(alloc, b"pgo: scope 4 GlobalInArchetype ", name)
        }
        ScopeError::AssignedNotRef { name } => {
            one_name(alloc, b"pgo: scope 5 AssignedNotRef ", name)
        }
        ScopeError::MappedReadHere { name } => {
            one_name(alloc, b"pgo: scope 6 MappedReadHere ", name)
        }
        ScopeError::NameClash { first, second } => {
            two_names(alloc, b"pgo: scope 7 NameClash ", first, second)
        }
        ScopeError::DoubleUnderscore { name } => {
            one_name(alloc, b"pgo: scope 8 DoubleUnderscore ", name)
        }
        ScopeError::UnknownModule { name } => {
            one_name(alloc, b"pgo: scope 9 UnknownModule ", name)
        }
        ScopeError::NoMemory => Err(AllocError),
    }
}

/// The line of a refusal of labels; want of memory has none.
fn label_line(alloc: Global, error: &LabelError) -> Result<Line, AllocError>
    ensures { IfOk result (λ l. spec.label_line error.now ≡ Some l) }
{
    match error {
        LabelError::NeedsLabel { archetype, after } => {
            two_names(alloc, b"pgo: labels 1 NeedsLabel ", archetype, after)
        }
        LabelError::LabelHere { archetype, label } => {
            two_names(alloc, b"pgo: labels 2 LabelHere ", archetype, label)
        }
        LabelError::UnknownLabel { archetype, label } => {
            two_names(alloc, b"pgo: labels 3 UnknownLabel ", archetype, label)
        }
        LabelError::LabelTwice { archetype, label } => {
            two_names(alloc, b"pgo: labels 4 LabelTwice ", archetype, label)
        }
        LabelError::ReservedDone { archetype } => {
            one_name(alloc, b"pgo: labels 5 ReservedDone ", archetype)
        }
        LabelError::YieldRule { mapping } => {
            one_name(alloc, b"pgo: labels 6 YieldRule ", mapping)
        }
        LabelError::TooManyLabels { archetype } => {
            one_name(alloc, b"pgo: labels 7 TooManyLabels ", archetype)
        }
        LabelError::NoMemory => Err(AllocError),
    }
}

/// The line of a refusal of binding; want of memory has none.
fn bind_line(alloc: Global, error: &BindError) -> Result<Line, AllocError>
    ensures { IfOk result (λ l. spec.bind_line error.now ≡ Some l) }
{
    match error {
        BindError::ConstMissing { name } => one_name(alloc, b"pgo: bind 1 ConstMissing ", name),
        BindError::ConstUnknown { name } => one_name(alloc, b"pgo: bind 2 ConstUnknown ", name),
        BindError::BadMapping { process, place } => {
            name_and_number(alloc, b"pgo: bind 3 BadMapping ", process, *place)
        }
        BindError::SameId { id } => match write_value(alloc, id) {
            Ok(text) => one_name(alloc, b"pgo: bind 4 SameId ", &text),
            Err(_) => Err(AllocError),
        },
        BindError::IdsNoValue { process } => {
            one_name(alloc, b"pgo: bind 5 IdsNoValue ", process)
        }
        BindError::TooManyInstances { count } => {
            one_number(alloc, b"pgo: bind 6 TooManyInstances ", *count)
        }
        BindError::TooManyResources { count } => {
            one_number(alloc, b"pgo: bind 7 TooManyResources ", *count)
        }
        BindError::InitNoValue { name } => one_name(alloc, b"pgo: bind 8 InitNoValue ", name),
        BindError::InitEmpty { name } => one_name(alloc, b"pgo: bind 9 InitEmpty ", name),
        BindError::NoMemory => Err(AllocError),
    }
}

/// The line of a limit of an expansion; want of memory has none.
fn expand_line(alloc: Global, error: &ExpandStop) -> Result<Line, AllocError>
    ensures { IfOk result (λ l. spec.expand_line error.now ≡ Some l) }
{
    match error {
        ExpandStop::Wide { nodes } => one_number(alloc, b"pgo: expand 1 Wide ", *nodes),
        ExpandStop::Deep { height } => one_number(alloc, b"pgo: expand 2 Deep ", *height),
        ExpandStop::NoMemory => Err(AllocError),
    }
}

/// The line of a refusal, with its newline; want of memory has none, and gives an error.
///
/// `pgo: syntax at` and an offset in bytes, or `pgo: <scope|labels|bind|expand> <number> <Name> <fields>`. This project's
/// choice.
pub fn rejection_line(alloc: Global, rejection: &Rejection) -> Result<Line, AllocError>
    ensures { IfOk result (λ l. spec.rejection_line rejection.now ≡ Some l) }
{
    match rejection {
        Rejection::Syntax { offset } => one_number(alloc, b"pgo: syntax at ", *offset),
        Rejection::Scope(error) => scope_line(alloc, error),
        Rejection::Labels(error) => label_line(alloc, error),
        Rejection::Bind(error) => bind_line(alloc, error),
        Rejection::Expand(error) => expand_line(alloc, error),
        Rejection::NoMemory => Err(AllocError),
    }
}
