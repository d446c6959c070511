// A specification whose labels are expanded.
ghost use Rattle.std.specs.Prelude.{◌≡◌, IfOk};
ghost use Rattle.pgo_base.specs.Tree.{set_of, no_trees, more_trees};
ghost use Rattle.pgo_pluscal.specs.PlusCalOf.{ids_tree};

use crate::part::Part;
use pgo_base::expr::{Expr, Exprs, Sub};
use pgo_base::items::Items;
use pgo_base::text::Text;
use pgo_syntax::binding::Origin;
use pgo_syntax::declaration::{Declarations, Definitions};
use pgo_syntax::name::PlacedNames;
use std::alloc::{AllocError, Global};

/// Labels by their written names, each with what it becomes, in the order of the text.
pub type Trees = Items<(Text, Part)>;

/// A process whose labels are expanded.
#[derive(Drop)]
pub struct ExpandedProcess {
    pub name: Text,
    /// the set of its identifiers
    pub ids: Sub,
    /// its value parameters and then its locals, by their written names, each with what it starts with. The place is
    /// that of the parameter or the local in the text of the specification.
    pub variables: Declarations,
    pub trees: Trees,
}

/// Processes in the order of the text.
pub type ExpandedProcesses = Items<ExpandedProcess>;

/// What a module has before its algorithm. The text of a specification whose labels are expanded has none of it.
#[derive(Drop)]
pub struct Header {
    /// the module's name
    pub name: Text,
    /// its declared constants
    pub constants: PlacedNames,
    /// the definitions before the algorithm
    pub definitions: Definitions,
}

/// A specification whose labels are expanded: its header, its heads, and one tree for each label.
///
/// `pluscal_of` of `specs/PlusCalOf` says which one a specification has.
#[derive(Drop)]
pub struct PlusCal {
    pub header: Header,
    /// the algorithm's name
    pub name: Text,
    pub globals: Declarations,
    /// the definitions of `define`, if it stands there
    pub define: Option<Definitions>,
    pub processes: ExpandedProcesses,
}

/// The set of the identifiers: `{e}` for `= e`, and e for `\in e`. `AllocError` comes where there is no memory.
///
/// Source: this project's choice.
pub fn set_of_ids(alloc: Global, ids: &Origin) -> Result<Sub, AllocError>
    ensures { IfOk result (λ s. s ≡ ids_tree ids.now) }
{
    match ids {
        Origin::In(e) => e.copy(alloc),
        Origin::Equals(e) => set_of_one(alloc, e),
    }
}

/// `{e}`
fn set_of_one(alloc: Global, e: &Sub) -> Result<Sub, AllocError>
    ensures { IfOk result (λ s. s ≡ set_of (more_trees e.now no_trees)) }
{
    let mut members = Exprs::new(alloc);
    members.push(e.copy(alloc)?)?;
    Sub::new(alloc, Expr::SetOf(members))
}
