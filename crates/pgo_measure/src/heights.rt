// Heights up to the most that is told apart.
ghost use Rattle.std.specs.Prelude.{◌≡◌, List, suc, Option, Some, None, IfOk};
ghost use Rattle.pgo_base.specs.Lookup.{Name, same_name};
ghost use Rattle.pgo_model.specs.Written.{pc};
ghost use Rattle.pgo_measure.specs.Heights.{capped, join, end_height, assigned_height, change_height};
ghost use Rattle.pgo_measure.specs.NameRows.{changed_rows, name_rows};

use pgo_base::text::Text;
use pgo_uses::names::Names;
use std::alloc::{AllocError, Global};

/// The most that is told apart, one more than the greatest height of a specification.
pub const MOST_HEIGHT: u64 = 513;

/// One more.
pub fn one_higher(height: u64) -> u64
    ensures { result ≡ capped (suc height) }
{
    if height < MOST_HEIGHT {
        height + 1
    } else {
        MOST_HEIGHT
    }
}

/// Of a conjunction with one more item behind those so far.
pub fn joined(before: Option<u64>, height: u64) -> u64
    ensures { result ≡ capped (join before height) }
{
    match before {
        None => height.min(MOST_HEIGHT),
        Some(a) => one_higher(a.max(height)),
    }
}

/// These names, of which one is found without going over them.
fn rows_of_names(alloc: Global, names: &[Text]) -> Result<Names, AllocError>
    ensures { IfOk result (λ rows. rows ≡ name_rows names.now) }
{
    let mut rows = Names::new(alloc);
    for name in names {
        rows.push(alloc, name, 0)?;
    }
    Ok(rows)
}

/// The variables that are changed, of which one is found without going over them.
fn rows_of_changes(alloc: Global, changes: &[(Text, Text)]) -> Result<Names, AllocError>
    ensures { IfOk result (λ rows. rows ≡ changed_rows changes.now) }
{
    let mut rows = Names::new(alloc);
    for change in changes {
        rows.push(alloc, &change.0, 0)?;
    }
    Ok(rows)
}

/// Of the assignment of a variable but `pc`: of a global as a whole, or of another at `self`.
fn height_of_assignment(x: &Text, globals: &Names) -> u64
    ensures { (gs : List Name) → globals.now ≡ name_rows gs → result ≡ assigned_height gs x.now }
{
    if globals.has(x) { 2 } else { 3 }
}

fn is_pc(x: &Text) -> bool
    ensures { result ≡ same_name x.now pc }
{
    x.as_bytes().cmp(b"pc".as_slice()).is_eq()
}

/// Of the assignment of x, if it has one.
fn height_of_change(x: &Text, globals: &Names, changes: &Names) -> Option<u64>
    ensures { (gs : List Name) (cs : List (Name × Name)) → globals.now ≡ name_rows gs → changes.now ≡ changed_rows cs → result ≡ change_height gs cs x.now }
{
    if is_pc(x) {
        return Some(3);
    }
    if changes.has(x) {
        Some(height_of_assignment(x, globals))
    } else {
        None
    }
}

/// Of an end behind the items so far.
///
/// Err only where there is no memory.
pub fn height_of_end(
    alloc: Global,
    variables: &[Text],
    globals: &[Text],
    changes: &[(Text, Text)],
    before: Option<u64>,
) -> Result<u64, AllocError>
    ensures { IfOk result (λ h. h ≡ capped (end_height globals.now variables.now before changes.now)) }
{
    let whole = rows_of_names(alloc, globals)?;
    let changed = rows_of_changes(alloc, changes)?;
    let mut so_far = before;
    let mut kept = false;
    for x in variables {
        match height_of_change(x, &whole, &changed) {
            Some(height) => so_far = Some(joined(so_far, height)),
            None => kept = true,
        }
    }
    if kept {
        return Ok(joined(so_far, 1));
    }
    Ok(joined(None, so_far.unwrap_or(1)))
}
