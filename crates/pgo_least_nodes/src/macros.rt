// The counts of macros, and of an archetype that calls them.
ghost use Rattle.std.specs.Prelude.{◌≡◌, IfOk};
ghost use Rattle.pgo_base.specs.Lookup.{find};
ghost use Rattle.pgo_least_nodes.specs.Counts as spec;

use crate::count::{Count, jump, step, then};
use crate::statements::row_counts;
use pgo_base::text::Text;
use pgo_rewrite::newest::Newest;
use pgo_syntax::archetype::Archetype;
use pgo_syntax::macros::Macro;
use std::alloc::{AllocError, Global};

/// What the bodies of macros come to, each with the macros before it in the place of their calls, by their names. The last macro of a
/// name counts; it is found without going over the macros.
pub type MacroCounts = Newest<Count>;

/// Of a macro's call, which is walked itself; of one that isn't declared nothing is done.
pub(crate) fn called(macros: &MacroCounts, name: &Text) -> Count
    ensures { result ≡ spec.called (find name.now macros.now) }
{
    match macros.find(name) {
        None => step(0),
        Some(count) => then(step(1), *count),
    }
}

/// The counts of macros.
///
/// Err where there is no memory.
pub fn macro_counts(alloc: Global, macros: &[Macro]) -> Result<MacroCounts, AllocError>
    ensures { IfOk result (λ v. v ≡ spec.macro_counts macros.now) }
{
    let mut counts = Newest::new(alloc);
    for m in macros {
        let count = row_counts(&counts, m.body.as_slice()).own;
        counts.push(m.name.name.copy(alloc)?, count)?;
    }
    Ok(counts)
}

/// Nodes that the expansions of an archetype's labels have at least, up to 2^64 - 1.
pub fn least_nodes(macros: &MacroCounts, archetype: &Archetype) -> u64
    ensures { result ≡ spec.least_nodes macros.now archetype.now }
{
    let all = row_counts(macros, archetype.body.as_slice());
    then(all.labels, jump()).nodes
}
