// The mapped parameters of a process.
ghost use Rattle.std.specs.Prelude.{◌≡◌, option_map};
ghost use Rattle.pgo_meaning.specs.Parameters.{by_element};
ghost use Rattle.pgo_rewrite.specs.Views.{mapped_view, of_target};

use pgo_base::text::Text;
use pgo_syntax::archetype::Extent;
use pgo_syntax::bound::{Mapping, Target};

/// What a mapped parameter is: a global, whether it is by element, and what a read and a write of it do.
#[derive(Clone, Copy)]
pub struct Mapped<'a> {
    pub global: &'a Text,
    pub by_element: bool,
    pub mapping: &'a Mapping,
}

/// Whether it speaks of one element at a time.
fn is_by_element(extent: Extent) -> bool
    ensures { result ≡ by_element extent }
{
    match extent {
        Extent::Whole => false,
        Extent::Element => true,
    }
}

/// The mapped parameter that stands behind a target, if one does.
pub(crate) fn mapped_target<'a>(target: &'a Target) -> Option<Mapped<'a>>
    ensures { option_map mapped_view result ≡ of_target target.entry.now }
{
    match target {
        Target::Global {
            name,
            extent,
            mapping: Some(mapping),
        } => Some(Mapped {
            global: name,
            by_element: is_by_element(*extent),
            mapping,
        }),
        _ => None,
    }
}
