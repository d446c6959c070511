// The canonical text of a value.
ghost use Rattle.std.specs.Prelude.{◌≡◌, ◌++◌, ◌+◌, codes, map, IfOk};
ghost use Rattle.pgo_base.specs.Data.{pairs};
ghost use Rattle.pgo_base.specs.PairsView.{all_pairs};
ghost use Rattle.pgo_base.specs.View.{data_of, pair_of};
ghost use Rattle.pgo_model.specs.ValueText as spec;
ghost use Rattle.pgo_value_text.specs.Writing as writing;

use crate::errors::NoMemory;
use pgo_base::pairs::Pairs;
use pgo_base::text::Text;
use pgo_base::value::Value;
use pgo_text::names::is_name;
use pgo_text::strings::{push_integer, push_string};
use std::alloc::{AllocError, Global};

/// The canonical text of a value.
///
/// `NoMemory` comes where there is no memory.
///
/// Source: "Specifying Systems" for the forms, this project's choice for the order and the blanks.
pub fn write_value(alloc: Global, value: &Value) -> Result<Text, NoMemory>
    ensures { IfOk result (λ t. t ≡ spec.value_text (data_of value.now)) }
{
    let mut bytes = Vec::new(alloc);
    push_value(&mut bytes, value)?;
    Ok(Text::from_bytes(bytes)?)
}

/// Whether a key is this number.
fn is_number(key: &Value, number: u64) -> bool
    ensures { result ≡ spec.is_number number (data_of key.now) }
{
    match key {
        Value::Int(z) => match u64::try_from(*z) {
            Ok(n) => n == number,
            Err(_) => false,
        },
        _ => false,
    }
}

/// Whether the keys are 1, 2 and so on.
fn is_sequence(list: Pairs<'_>) -> bool
    ensures { result ≡ spec.is_sequence_from 1 (pairs (map pair_of (all_pairs list.entry))) }
{
    for i in 0..list.len() {
        if !is_number(&list.at(i).0, i as u64 + 1) {
            return false;
        }
    }
    true
}

/// Whether a key can be a record's field.
fn is_field(key: &Value) -> bool
    ensures { result ≡ spec.is_field (data_of key.now) }
{
    match key {
        Value::Str(s) => is_name(s.as_bytes()),
        _ => false,
    }
}

fn all_fields(list: Pairs<'_>) -> bool
    ensures { result ≡ spec.all_fields (pairs (map pair_of (all_pairs list.entry))) }
{
    for i in 0..list.len() {
        if !is_field(&list.at(i).0) {
            return false;
        }
    }
    true
}

/// Adds a field's name.
fn push_field(bytes: &mut Vec<u8>, key: &Value) -> Result<(), AllocError>
    ensures { IfOk result (λ _. bytes.new.items ≡ bytes.old.items ++ spec.field_text (data_of key.now)) }
{
    match key {
        Value::Str(s) => bytes.extend_from_slice(s.as_bytes()),
        _ => Ok(()),
    }
}

/// How a function is written.
#[derive(Clone, Copy)]
enum FunctionForm {
    /// `<<a, b>>`, where the keys are 1, 2 and so on.
    Tuple,
    /// `[a |-> 1, b |-> 2]`, where each key can be a field.
    Record,
    /// `(k :> v @@ l :> w)`.
    Mapping,
}

/// How the function with these pairs is written.
fn form_of(list: Pairs<'_>) -> FunctionForm
    ensures { result ≡ writing.form_of (pairs (map pair_of (all_pairs list.entry))) }
{
    if is_sequence(list) {
        FunctionForm::Tuple
    } else if all_fields(list) {
        FunctionForm::Record
    } else {
        FunctionForm::Mapping
    }
}

/// The word before the pairs.
fn opening(form: FunctionForm) -> &'static [u8]
    ensures { result.now ≡ writing.opening form }
{
    match form {
        FunctionForm::Tuple => b"<<",
        FunctionForm::Record => b"[",
        FunctionForm::Mapping => b"(",
    }
}

/// The word behind the pairs.
fn closing(form: FunctionForm) -> &'static [u8]
    ensures { result.now ≡ writing.closing form }
{
    match form {
        FunctionForm::Tuple => b">>",
        FunctionForm::Record => b"]",
        FunctionForm::Mapping => b")",
    }
}

/// The word between two pairs.
fn between(form: FunctionForm) -> &'static [u8]
    ensures { result.now ≡ writing.between form }
{
    match form {
        FunctionForm::Tuple => b", ",
        FunctionForm::Record => b", ",
        FunctionForm::Mapping => b" @@ ",
    }
}

/// Adds the word between two parts, before each but the first.
fn push_between(bytes: &mut Vec<u8>, word: &[u8], place: usize) -> Result<(), AllocError>
    ensures { IfOk result (λ _. bytes.new.items ≡ bytes.old.items ++ writing.before word.now place) }
{
    if place == 0 {
        return Ok(());
    }
    bytes.extend_from_slice(word)
}

/// Adds a value.
#[cycle(push)]
fn push_value(bytes: &mut Vec<u8>, value: &Value) -> Result<(), AllocError>
    ensures { IfOk result (λ _. bytes.new.items ≡ bytes.old.items ++ spec.value_text (data_of value.now)) }
{
    match value {
        Value::Bool(true) => bytes.extend_from_slice(b"TRUE"),
        Value::Bool(false) => bytes.extend_from_slice(b"FALSE"),
        Value::Int(z) => push_integer(bytes, *z),
        Value::Str(s) => push_string(bytes, s.as_bytes()),
        Value::Model(x) => bytes.extend_from_slice(x.as_bytes()),
        Value::Set(s) => push_set(bytes, s.members()),
        Value::Fun(f) => push_function(bytes, f.pairs()),
    }
}

/// Adds a set.
#[cycle(push)]
fn push_set(bytes: &mut Vec<u8>, members: &[Value]) -> Result<(), AllocError>
    ensures { IfOk result (λ _. bytes.new.items ≡ bytes.old.items ++ writing.set_text (map data_of members.now)) }
{
    bytes.push(b'{')?;
    for (i, m) in members.iter().enumerate() {
        push_between(bytes, b", ", i)?;
        push_value(bytes, m)?;
    }
    bytes.push(b'}')?;
    Ok(())
}

/// Adds a function.
#[cycle(push)]
fn push_function(bytes: &mut Vec<u8>, list: Pairs<'_>) -> Result<(), AllocError>
    ensures { IfOk result (λ _. bytes.new.items ≡ bytes.old.items ++ writing.function_text (map pair_of (all_pairs list.entry))) }
{
    let form = form_of(list);
    bytes.extend_from_slice(opening(form))?;
    push_pairs(bytes, list, form)?;
    bytes.extend_from_slice(closing(form))
}

/// Adds pairs in this form.
#[cycle(push)]
fn push_pairs(bytes: &mut Vec<u8>, list: Pairs<'_>, form: FunctionForm) -> Result<(), AllocError>
    ensures { IfOk result (λ _. bytes.new.items ≡ bytes.old.items ++ writing.pairs_text form (map pair_of (all_pairs list.entry))) }
{
    for i in 0..list.len() {
        let p = list.at(i);
        push_between(bytes, between(form), i)?;
        push_key(bytes, &p.0, form)?;
        push_value(bytes, &p.1)?;
    }
    Ok(())
}

/// Adds the key of a pair in this form, with the arrow behind it.
#[cycle(push)]
fn push_key(bytes: &mut Vec<u8>, key: &Value, form: FunctionForm) -> Result<(), AllocError>
    ensures { IfOk result (λ _. bytes.new.items ≡ bytes.old.items ++ writing.key_text form (data_of key.now)) }
{
    match form {
        FunctionForm::Tuple => Ok(()),
        FunctionForm::Record => {
            push_field(bytes, key)?;
            bytes.extend_from_slice(b" |-> ")
        }
        FunctionForm::Mapping => {
            push_value(bytes, key)?;
            bytes.extend_from_slice(b" :> ")
        }
    }
}
