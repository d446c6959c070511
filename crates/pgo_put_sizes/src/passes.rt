// Whether the statements of mapping macros have a path to a `yield`.
ghost use Rattle.std.specs.Prelude.{◌≡◌, ◌&&◌, List, ℕ};
ghost use Rattle.pgo_meaning.specs.Parameters.{all_mapped, mapped_of, writes_by};
ghost use Rattle.pgo_put_sizes.specs.Leads as spec;
ghost use Rattle.pgo_put_sizes.specs.Least.{yields as has_yield};
ghost use Rattle.pgo_sections.specs.Access.{MappedNames};

use crate::blocks::{reads_yield, row_leads};
use pgo_syntax::bound::{Binding, Mapping, Target};

/// Whether what a write does has a path to a `yield`.
fn writes_yield(mapping: &Mapping) -> bool
    ensures { result ≡ has_yield (writes_by mapping.now) }
{
    match mapping {
        Mapping::Identity => true,
        Mapping::Macro(m) => row_leads(m.write.as_slice()).yields,
    }
}

/// Whether the read and the write of a mapped parameter with this target have such a path, if it is one.
fn target_passes(target: &Target) -> bool
    ensures { (x : List ℕ) (rest : MappedNames) → spec.all_pass (mapped_of x target.now rest) ≡ (result && spec.all_pass rest) }
{
    match target {
        Target::Global {
            mapping: Some(mapping),
            ..
        } => reads_yield(mapping) && writes_yield(mapping),
        _ => true,
    }
}

/// Whether the read and the write of each mapped parameter have a path to a `yield`.
pub fn all_pass(bindings: &[Binding]) -> bool
    ensures { result ≡ spec.all_pass (all_mapped bindings.now) }
{
    for binding in bindings {
        if !target_passes(&binding.target) {
            return false;
        }
    }
    true
}
