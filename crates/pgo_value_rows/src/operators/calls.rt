// The operators by their names.
use crate::operators::operands::{copied, elements, fields, pairs, truth};
use pgo_base::value::Value;
use pgo_sets::build::{function_of, set_of};
use pgo_sets::errors::EvalStop;
use pgo_sets::function_sets::{
    functions, is_in_functions, is_in_product, is_in_records, product, product_of, records,
};
use pgo_sets::functions::{apply, domain, except, merge, single};
use pgo_sets::lookup::{at, is_in_power, is_in_range, member, subset};
use pgo_sets::powers::power;
use pgo_sets::ranges::range;
use pgo_sets::sequences::{append, concat, head, len, sequence_of, sub_seq, tail};
use pgo_sets::set_operators::{cardinality, flatten, intersect, minus, union};
use std::alloc::{AllocError, Global};

type Answer = Result<Value, EvalStop>;

/// What the operator of a name gives; none where there is no such operator.
pub fn called(alloc: Global, name: &str, x: &Value, y: &Value, z: &Value) -> Option<Answer> {
    if let Some(answer) = on_sets(alloc, name, x, y) {
        return Some(answer);
    }
    if let Some(answer) = on_functions(alloc, name, x, y, z) {
        return Some(answer);
    }
    if let Some(answer) = on_sequences(alloc, name, x, y, z) {
        return Some(answer);
    }
    if let Some(answer) = built(alloc, name, x, y) {
        return Some(answer);
    }
    asked(alloc, name, x, y, z)
}

fn on_sets(alloc: Global, name: &str, x: &Value, y: &Value) -> Option<Answer> {
    match name {
        "union" => Some(union(alloc, x, y)),
        "intersect" => Some(intersect(alloc, x, y)),
        "minus" => Some(minus(alloc, x, y)),
        "range" => Some(range(alloc, x, y)),
        "power" => Some(power(alloc, x)),
        "flatten" => Some(flatten(alloc, x)),
        "cardinality" => Some(cardinality(x)),
        _ => None,
    }
}

fn on_functions(alloc: Global, name: &str, x: &Value, y: &Value, z: &Value) -> Option<Answer> {
    match name {
        "apply" => Some(apply(alloc, x, y)),
        "at" => Some(copied(alloc, at(x, y))),
        "domain" => Some(domain(alloc, x)),
        "merge" => Some(merge(alloc, x, y)),
        "except" => Some(except(alloc, x, y, z)),
        "single" => Some(single(alloc, x, y)),
        _ => None,
    }
}

fn on_sequences(alloc: Global, name: &str, x: &Value, y: &Value, z: &Value) -> Option<Answer> {
    match name {
        "len" => Some(len(x)),
        "append" => Some(append(alloc, x, y)),
        "concat" => Some(concat(alloc, x, y)),
        "head" => Some(head(alloc, x)),
        "tail" => Some(tail(alloc, x)),
        "sub_seq" => Some(sub_seq(alloc, x, y, z)),
        _ => None,
    }
}

/// Those that build a value from many, or a set of functions.
fn built(alloc: Global, name: &str, x: &Value, y: &Value) -> Option<Answer> {
    match name {
        "product" => Some(product(alloc, x, y)),
        "functions" => Some(functions(alloc, x, y)),
        "function_of" => Some(built_function(alloc, x)),
        "records" => Some(built_records(alloc, x)),
        _ => built_from(alloc, name, elements(alloc, x)),
    }
}

/// Those that build a value from a list of values.
fn built_from(alloc: Global, name: &str, list: Result<Vec<Value>, AllocError>) -> Option<Answer> {
    let Ok(list) = list else {
        return Some(Err(EvalStop::NoMemory));
    };
    match name {
        "set_of" => Some(set_of(list)),
        "sequence_of" => Some(sequence_of(alloc, list)),
        "product_of" => Some(product_of(alloc, list.as_slice())),
        _ => None,
    }
}

fn built_function(alloc: Global, x: &Value) -> Answer {
    function_of(pairs(alloc, x)?)
}

fn built_records(alloc: Global, x: &Value) -> Answer {
    records(alloc, fields(alloc, x)?)
}

/// Those that give a truth.
fn asked(alloc: Global, name: &str, x: &Value, y: &Value, z: &Value) -> Option<Answer> {
    match name {
        "member" => Some(truth(member(x, y))),
        "subset" => Some(truth(subset(x, y))),
        "is_in_power" => Some(truth(is_in_power(x, y))),
        "is_in_range" => Some(truth(is_in_range(x, y, z))),
        "is_in_functions" => Some(truth(is_in_functions(x, y, z))),
        "is_in_product" => Some(in_product(alloc, x, y)),
        "is_in_records" => Some(in_records(alloc, x, y)),
        _ => None,
    }
}

fn in_product(alloc: Global, x: &Value, y: &Value) -> Answer {
    let factors = elements(alloc, y)?;
    truth(is_in_product(alloc, x, factors.as_slice())?)
}

fn in_records(alloc: Global, x: &Value, y: &Value) -> Answer {
    truth(is_in_records(alloc, x, fields(alloc, y)?)?)
}
