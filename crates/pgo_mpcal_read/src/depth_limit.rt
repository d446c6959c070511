// How deep statements are, with macros in the place of their calls.
ghost use Rattle.std.specs.Prelude.{nat_le, map};
ghost use Rattle.pgo_syntax.specs.Statement.{statements, labeled, guarded};
ghost use Rattle.pgo_syntax.specs.StatementView.{statement, labeled_pair, branch_parts};
ghost use Rattle.pgo_mpcal_read.specs.Depths.{depth, statements_depth, labeled_depth, guarded_depth};
ghost use Rattle.pgo_mpcal_read.specs.DepthLimit.{Tells};

use crate::depths::{MacroDepths, depth_of};
use pgo_syntax::statement::{Branch, Labeled, Stmt};

/// The place of a statement in this one, or of this one, at which it is deeper than the limit; none where it isn't.
#[cycle(depth_limit)]
#[tactic(auto, using(crate::proofs::DepthLimits::tells_deeper))]
pub fn too_deep(macros: &MacroDepths, s: &Stmt, limit: u32) -> Option<u32>
    ensures { Tells (nat_le (depth macros.now (statement s.now)) limit) result }
{
    if limit == 0 {
        return Some(s.place());
    }
    match s {
        Stmt::If(_, branches) => branches_too_deep(macros, branches.as_slice(), limit - 1),
        Stmt::IfElse(_, branches, last) => {
            let found = branches_too_deep(macros, branches.as_slice(), limit - 1);
            if found.is_some() {
                return found;
            }
            too_deep(macros, last.get(), limit - 1)
        }
        Stmt::While(_, _, body) => too_deep(macros, body.get(), limit - 1),
        Stmt::Either(_, list) => any_too_deep(macros, list.as_slice(), limit - 1),
        Stmt::With(_, _, body) => too_deep(macros, body.get(), limit - 1),
        Stmt::Call(place, name, _) => {
            if depth_of(macros, &name.name) < limit {
                None
            } else {
                Some(*place)
            }
        }
        Stmt::Block(_, rows) => rows_too_deep(macros, rows.as_slice(), limit - 1),
        _ => None,
    }
}

/// The same of the statements of an `either`.
#[cycle(depth_limit)]
#[tactic(auto, using(crate::proofs::DepthLimits::first_fits, crate::proofs::DepthLimits::first_is_too_deep))]
fn any_too_deep(macros: &MacroDepths, list: &[Stmt], limit: u32) -> Option<u32>
    ensures { Tells (nat_le (statements_depth macros.now (statements (map statement list.now))) limit) result }
{
    for s in list {
        let found = too_deep(macros, s, limit);
        if found.is_some() {
            return found;
        }
    }
    None
}

/// The same of the statements of a block.
#[cycle(depth_limit)]
#[tactic(auto, using(crate::proofs::DepthLimits::first_fits, crate::proofs::DepthLimits::first_is_too_deep))]
pub fn rows_too_deep(macros: &MacroDepths, list: &[Labeled], limit: u32) -> Option<u32>
    ensures { Tells (nat_le (labeled_depth macros.now (labeled (map labeled_pair list.now))) limit) result }
{
    for row in list {
        let found = too_deep(macros, &row.statement, limit);
        if found.is_some() {
            return found;
        }
    }
    None
}

/// The same of the branches of an `if`.
#[cycle(depth_limit)]
#[tactic(auto, using(crate::proofs::DepthLimits::first_fits, crate::proofs::DepthLimits::first_is_too_deep))]
fn branches_too_deep(macros: &MacroDepths, list: &[Branch], limit: u32) -> Option<u32>
    ensures { Tells (nat_le (guarded_depth macros.now (guarded (map branch_parts list.now))) limit) result }
{
    for b in list {
        let found = too_deep(macros, &b.statement, limit);
        if found.is_some() {
            return found;
        }
    }
    None
}
