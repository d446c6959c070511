// Statements and parts of statements with their depths.
ghost use Rattle.std.specs.Prelude.{◌≡◌, IfOk};
ghost use Rattle.pgo_mpcal_read.specs.ReadingStatements as spec;

use pgo_base::expr::Sub;
use pgo_syntax::name::PlacedName;
use pgo_syntax::statement::{Alternatives, Block, Branches, Nested};
use std::alloc::AllocError;

/// Something that was read, with the depth of its deepest statement, macros in the place of their calls.
#[derive(Drop)]
pub struct WithDepth<T: Drop> {
    pub depth: u32,
    pub part: T,
}

/// One branch of an `if` more.
pub fn push_branch(
    all: &mut WithDepth<Branches>,
    r: WithDepth<(u32, (Sub, Nested))>,
) -> Result<(), AllocError>
    ensures { IfOk result (λ _. all.new ≡ spec.added all.old r) }
{
    all.depth = all.depth.max(r.depth);
    let (place, (condition, nested)) = r.part;
    all.part.push(place, condition, nested)
}

/// One statement of an `either` more.
pub fn push_statement(
    all: &mut WithDepth<Alternatives>,
    r: WithDepth<Nested>,
) -> Result<(), AllocError>
    ensures { IfOk result (λ _. all.new ≡ spec.added all.old r) }
{
    all.depth = all.depth.max(r.depth);
    all.part.push(r.part)
}

/// One statement of a block more.
pub fn push_row(
    all: &mut WithDepth<Block>,
    r: WithDepth<(Option<PlacedName>, Nested)>,
) -> Result<(), AllocError>
    ensures { IfOk result (λ _. all.new ≡ spec.added all.old r) }
{
    all.depth = all.depth.max(r.depth);
    let (label, nested) = r.part;
    all.part.push(label, nested)
}
