// Lists of pre-commits that fail.
ghost use Rattle.std.specs.Prelude.{IfOk, Some};
ghost use Rattle.pgo_words.specs.FailureItems.{FailuresOnly, ReadsFailure, ReadsPair};
ghost use Rattle.pgo_words.specs.Parts.{now_of};

use crate::cuts::cut;
use crate::numbers::number;
use pgo_syntax::records::Down;
use std::alloc::{AllocError, Global};

/// The numbers of a resource and of a pre-commit, of a text each.
fn read_pair(resource: &str, place: &str) -> Option<(u32, u32)>
    ensures { ReadsPair resource.now place.now result }
{
    let resource = number(resource)?;
    let place = number(place)?;
    Some((resource, place))
}

/// `resource:number`.
fn read_failure(text: &str) -> Option<(u32, u32)>
    ensures { ReadsFailure text.now result }
{
    match cut(text, ':') {
        None => None,
        Some((resource, place)) => read_pair(resource, place),
    }
}

/// The pairs of a list, in order.
fn read_failures(alloc: Global, text: &str) -> Result<Option<Down>, AllocError>
    ensures { IfOk result (λ o. FailuresOnly (Some text.now) o) }
{
    let mut pairs = Vec::new(alloc);
    let mut rest = text;
    while let Some((first, later)) = cut(rest, ',') {
        match read_failure(first) {
            Some(pair) => pairs.push(pair)?,
            None => return Ok(None),
        }
        rest = later;
    }
    match read_failure(rest) {
        Some(pair) => {
            pairs.push(pair)?;
            Ok(Some(Down::from_vec(pairs)))
        }
        None => Ok(None),
    }
}

/// The pairs of this list, none where no list is given.
pub fn failures_of(alloc: Global, list: Option<&str>) -> Result<Option<Down>, AllocError>
    ensures { IfOk result (λ o. FailuresOnly (now_of list.entry) o) }
{
    match list {
        Some(text) => read_failures(alloc, text),
        None => Ok(Some(Down::new(alloc))),
    }
}
