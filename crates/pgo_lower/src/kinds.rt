// How the instances bind a global.
ghost use Rattle.std.specs.Prelude.{◌≡◌};
ghost use Rattle.std.specs.List.{filter_map};
ghost use Rattle.pgo_bound.specs.Kinds.{all_extents, with_extent as extended};
ghost use Rattle.pgo_bound.specs.State.{kind_in, target_extent as extent_in};

use pgo_base::text::Text;
use pgo_bound::kinds::Kind;
use pgo_syntax::archetype::Extent;
use pgo_syntax::bound::{Binding, Bound, Target};

/// The kind with one binding more.
fn with_extent(kind: Kind, extent: Extent) -> Kind
    ensures { result ≡ extended kind extent }
{
    match (kind, extent) {
        (Kind::AsWhole, _) => Kind::AsWhole,
        (_, Extent::Whole) => Kind::AsWhole,
        (_, Extent::Element) => Kind::ByElement,
    }
}

/// How a parameter binds this global.
fn target_extent(g: &Text, target: &Target) -> Option<Extent>
    ensures { result ≡ extent_in g.now target.now }
{
    match target {
        Target::Value(_) => None,
        Target::Global { name, extent, .. } => { if g.is(name) { Some(*extent) } else { None } }
    }
}

/// The kind with these bindings more.
fn kind_with(kind: Kind, g: &Text, bindings: &[Binding]) -> Kind
    ensures { result ≡ all_extents kind (filter_map (λ x. extent_in g.now x.target) bindings.now) }
{
    let mut so_far = kind;
    for b in bindings {
        match target_extent(g, &b.target) {
            None => continue,
            Some(extent) => {
                so_far = with_extent(so_far, extent);
                continue;
            }
        }
    }
    so_far
}

/// What a global is among the resources.
pub(crate) fn kind_of(bound: &Bound, g: &Text) -> Kind
    ensures { result ≡ kind_in bound.now g.now }
{
    let mut kind = Kind::Unbound;
    for i in bound.instances.as_slice() {
        kind = kind_with(kind, g, i.bindings.as_slice());
    }
    kind
}
