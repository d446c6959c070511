// Whether a specification is too wide already by a count over its text.
ghost use Rattle.std.specs.Prelude.{◌≡◌, ◌≤◌, true, None, IfOk};
ghost use Rattle.pgo_bound.specs.State.{variables_of};
ghost use Rattle.pgo_expand.specs.Limits.{most_nodes, nodes_in};
ghost use Rattle.pgo_least_nodes.specs.Counts.{macro_counts as counts_of};
ghost use Rattle.pgo_meaning.specs.Expansions.{expansions_of, process_bindings, process_expansions, trees_of};
ghost use Rattle.pgo_sizes.specs.Left.{left_after};

use crate::labels::bindings;
use pgo_heads::indexed_spec::IndexedSpec;
use pgo_least_nodes::macros::{MacroCounts, least_nodes, macro_counts};
use pgo_put_sizes::passes::all_pass;
use pgo_syntax::archetype::Archetype;
use pgo_syntax::process::Process;
use pgo_syntax::spec::Spec;
use std::alloc::{AllocError, Global};

/// Nodes that the trees of a process that runs an archetype have at least. 0 where the blocks of a mapping macro have no path to a
/// `yield`.
fn least_of_archetype(
    alloc: Global,
    spec: &IndexedSpec<'_>,
    macros: &MacroCounts,
    process: &Process,
    archetype: &Archetype,
) -> Result<u64, AllocError>
    requires { macros.now ≡ counts_of spec.now.macros }
    ensures { IfOk result (λ n. n ≤ nodes_in (expansions_of (variables_of spec.now) spec.now.macros process.now.name.name archetype.now (process_bindings spec.now process.now archetype.now))) }
{
    let bindings = bindings(alloc, spec, process, archetype)?;
    if all_pass(bindings.as_slice()) {
        Ok(least_nodes(macros, archetype))
    } else {
        Ok(0)
    }
}

/// Nodes that the trees of a process have at least.
fn least_of_process(
    alloc: Global,
    spec: &IndexedSpec<'_>,
    macros: &MacroCounts,
    process: &Process,
) -> Result<u64, AllocError>
    requires macros { macros.now ≡ counts_of spec.now.macros }
    ensures { IfOk result (λ n. n ≤ nodes_in (process_expansions spec.now process.now)) }
{
    match spec.archetype_named(&process.archetype.name) {
        None => Ok(0),
        Some(archetype) => least_of_archetype(alloc, spec, macros, process, archetype),
    }
}

/// Whether the trees of a specification have more than 1,048,576 nodes already by a count over its text: one node for each statement and
/// one for its expression, once for each path that leads to it. It doesn't go along the paths.
///
/// False where the count is no more, as it may be where the trees have more. Err where there is no memory.
pub fn is_wide(alloc: Global, spec: &Spec) -> Result<bool, AllocError>
    ensures { IfOk result (λ b. b ≡ true → left_after most_nodes (nodes_in (trees_of spec.now)) ≡ None) }
{
    let macros = macro_counts(alloc, spec.macros.as_slice())?;
    let indexed = IndexedSpec::new(alloc, spec)?;
    let mut least: u64 = 0;
    for process in spec.processes.as_slice() {
        let more = least_of_process(alloc, &indexed, &macros, process)?;
        least = least.saturating_add(more);
        if least > 1_048_576 {
            return Ok(true);
        }
    }
    Ok(false)
}
