// The operators of the modules Sequences, FiniteSets and TLC that are called by name.
ghost use Rattle.std.specs.Prelude.{◌≡◌, map, option_map, IfOk};
ghost use Rattle.pgo_base.specs.Lookup.{find};
ghost use Rattle.pgo_base.specs.View.{data_of};
ghost use Rattle.pgo_model.specs.Sequences.{operators, on_one, on_two, on_three, len, head, tail, append, sub_seq, print};
ghost use Rattle.pgo_model.specs.Operators.{cardinality};

use crate::words::is_word;
use pgo_base::text::Text;
use pgo_base::value::Value;
use pgo_sets::answers::value_or_none;
use pgo_sets::sequences::{append, head, len, sub_seq, tail};
use pgo_sets::set_operators::cardinality;
use std::alloc::{AllocError, Global};

/// What the operator of this name gives on these arguments; none where x is no such operator, and none inside where the
/// operator has no value.
pub fn called(alloc: Global, x: &Text, args: &[Value]) -> Result<Option<Option<Value>>, AllocError>
    ensures { IfOk result (λ o. option_map (λ v. option_map data_of v) o ≡ option_map (λ f. f (map data_of args.now)) (find x.now operators)) }
{
    if is_word(x, b"Len") {
        Ok(Some(len_of(args)?))
    } else if is_word(x, b"Head") {
        Ok(Some(head_of(alloc, args)?))
    } else if is_word(x, b"Tail") {
        Ok(Some(tail_of(alloc, args)?))
    } else if is_word(x, b"Append") {
        Ok(Some(append_of(alloc, args)?))
    } else if is_word(x, b"SubSeq") {
        Ok(Some(sub_seq_of(alloc, args)?))
    } else if is_word(x, b"Cardinality") {
        Ok(Some(cardinality_of(args)?))
    } else if is_word(x, b"PrintT") {
        Ok(Some(print_of(args)))
    } else {
        Ok(None)
    }
}

/// `Len(s)`.
fn len_of(args: &[Value]) -> Result<Option<Value>, AllocError>
    ensures { IfOk result (λ o. option_map data_of o ≡ on_one len (map data_of args.now)) }
{
    match args {
        [s] => value_or_none(len(s)),
        _ => Ok(None),
    }
}

/// `Head(s)`.
fn head_of(alloc: Global, args: &[Value]) -> Result<Option<Value>, AllocError>
    ensures { IfOk result (λ o. option_map data_of o ≡ on_one head (map data_of args.now)) }
{
    match args {
        [s] => value_or_none(head(alloc, s)),
        _ => Ok(None),
    }
}

/// `Tail(s)`.
fn tail_of(alloc: Global, args: &[Value]) -> Result<Option<Value>, AllocError>
    ensures { IfOk result (λ o. option_map data_of o ≡ on_one tail (map data_of args.now)) }
{
    match args {
        [s] => value_or_none(tail(alloc, s)),
        _ => Ok(None),
    }
}

/// `Append(s, x)`.
fn append_of(alloc: Global, args: &[Value]) -> Result<Option<Value>, AllocError>
    ensures { IfOk result (λ o. option_map data_of o ≡ on_two append (map data_of args.now)) }
{
    match args {
        [s, x] => value_or_none(append(alloc, s, x)),
        _ => Ok(None),
    }
}

/// `SubSeq(s, m, n)`.
fn sub_seq_of(alloc: Global, args: &[Value]) -> Result<Option<Value>, AllocError>
    ensures { IfOk result (λ o. option_map data_of o ≡ on_three sub_seq (map data_of args.now)) }
{
    match args {
        [s, m, n] => value_or_none(sub_seq(alloc, s, m, n)),
        _ => Ok(None),
    }
}

/// `Cardinality(s)`.
fn cardinality_of(args: &[Value]) -> Result<Option<Value>, AllocError>
    ensures { IfOk result (λ o. option_map data_of o ≡ on_one cardinality (map data_of args.now)) }
{
    match args {
        [s] => value_or_none(cardinality(s)),
        _ => Ok(None),
    }
}

/// `PrintT(v)`: TRUE. It prints nothing.
fn print_of(args: &[Value]) -> Option<Value>
    ensures { option_map data_of result ≡ on_one print (map data_of args.now) }
{
    match args {
        [_] => Some(Value::Bool(true)),
        _ => None,
    }
}
