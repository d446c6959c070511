// Lists of turns.
ghost use Rattle.std.specs.Prelude.{◌≡◌, ◌≤◌, ◌++◌, IfOk, length};
ghost use Rattle.pgo_words.specs.Turns.{most_turns};
ghost use Rattle.pgo_words.specs.Items.{ReadsItem, ReadsSingle, ReadsRepeated, turns_of, AddsItem, SpelledOnly};

use crate::cuts::cut;
use crate::numbers::number;
use crate::request::Turns;
use std::alloc::{AllocError, Global};

/// The most turns of a list.
const MOST_TURNS: usize = 1_000_000;

/// So many turns of one instance.
#[derive(Clone, Copy)]
struct Item {
    instance: u32,
    count: u32,
}

/// `instance*count`, with a count of at least 1.
fn read_repeated(instance: &str, count: &str) -> Option<Item>
    ensures { ReadsRepeated instance.now count.now result }
{
    let instance = number(instance)?;
    let count = number(count)?;
    if count == 0 {
        None
    } else {
        Some(Item { instance, count })
    }
}

/// `instance`, once.
fn read_single(instance: &str) -> Option<Item>
    ensures { ReadsSingle instance.now result }
{
    match number(instance) {
        Some(instance) => Some(Item { instance, count: 1 }),
        None => None,
    }
}

/// `k`, or `k*n` with n of at least 1.
fn read_item(text: &str) -> Option<Item>
    ensures { ReadsItem text.now result }
{
    match cut(text, '*') {
        None => read_single(text),
        Some((instance, count)) => read_repeated(instance, count),
    }
}

/// The item's turns behind the others, where there are at most 1,000,000 then.
fn add_item(turns: &mut Vec<u32>, text: &str) -> Result<bool, AllocError>
    requires { length turns.old.items ≤ most_turns }
    ensures { IfOk result (λ b. AddsItem turns.old.items text.now b turns.new.items) }
{
    match read_item(text) {
        Some(item) => {
            if item.count as usize > MOST_TURNS - turns.len() {
                return Ok(false);
            }
            repeat(turns, item)?;
            Ok(true)
        }
        None => Ok(false),
    }
}

/// So many turns of the instance behind the others.
fn repeat(turns: &mut Vec<u32>, item: Item) -> Result<(), AllocError>
    ensures { IfOk result (λ _. turns.new.items ≡ turns.old.items ++ turns_of item) }
{
    for _ in 0..item.count {
        turns.push(item.instance)?;
    }
    Ok(())
}

/// The turns of a list, where it is one of at most 1,000,000 turns.
pub fn read_list(alloc: Global, text: &str) -> Result<Option<Turns>, AllocError>
    ensures { IfOk result (λ o. SpelledOnly text.now o) }
{
    let mut turns = Vec::new(alloc);
    let mut rest = text;
    while let Some((first, later)) = cut(rest, ',') {
        if !add_item(&mut turns, first)? {
            return Ok(None);
        }
        rest = later;
    }
    if add_item(&mut turns, rest)? {
        Ok(Some(Turns::from_vec(turns)))
    } else {
        Ok(None)
    }
}
