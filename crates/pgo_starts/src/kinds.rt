// Which globals a reliable channel reads and writes.
ghost use Rattle.std.specs.Prelude.{◌≡◌, ◌&&◌, ◌||◌, IfOk, is_some, option_map};
ghost use Rattle.std.specs.List.{list_any};
ghost use Rattle.pgo_base.specs.Lookup.{Name, same_name};
ghost use Rattle.pgo_base.specs.NameMaps.{has_name};
ghost use Rattle.pgo_bound.specs.Sound.{index_in};
ghost use Rattle.pgo_starts.specs.Mailboxes as specs;

use pgo_base::name_map::NameMap;
use pgo_base::text::Text;
use pgo_mailbox::channel::{BoxKind, recognise};
use pgo_syntax::archetype::Extent;
use pgo_syntax::bound::{Binding, Bound, Instance, Mapping, Resource, Target};
use pgo_syntax::macros::MappingMacro;
use std::alloc::{AllocError, Global};

/// By the name of each global that some binding maps by element by a reliable channel, the channel's kind.
pub(crate) fn kinds(alloc: Global, instances: &[Instance]) -> Result<NameMap<BoxKind>, AllocError>
    ensures { IfOk result (λ k. (g : Name) → has_name k g ≡ specs.some_by_channel g instances.now) }
{
    let mut kinds = NameMap::new(alloc);
    for instance in instances {
        add_all(alloc, &mut kinds, instance.bindings.as_slice())?;
    }
    Ok(kinds)
}

/// Those of the bindings of an instance.
fn add_all(
    alloc: Global,
    kinds: &mut NameMap<BoxKind>,
    bindings: &[Binding],
) -> Result<(), AllocError>
    ensures { IfOk result (λ _. (g : Name) → has_name kinds.new g ≡ (has_name kinds.old g || list_any (λ b. specs.is_by_channel g b.target) bindings.now)) }
{
    for binding in bindings {
        add(alloc, kinds, &binding.target)?;
    }
    Ok(())
}

/// The global that a parameter stands for by element, and its macro.
fn mapped_by_element(target: &Target) -> Option<(&Text, &MappingMacro)>
    ensures { option_map (λ p. (p.0.now, p.1.now)) result ≡ specs.mapped_by_element target.now }
{
    match target {
        Target::Global {
            name,
            extent: Extent::Element,
            mapping: Some(Mapping::Macro(m)),
        } => Some((name, m)),
        _ => None,
    }
}

/// That of one parameter, where it stands for a global by a reliable channel.
fn add(alloc: Global, kinds: &mut NameMap<BoxKind>, target: &Target) -> Result<(), AllocError>
    ensures { IfOk result (λ _. (g : Name) → has_name kinds.new g ≡ (has_name kinds.old g || specs.is_by_channel g target.now)) }
{
    match mapped_by_element(target) {
        Some((global, m)) => add_mapped(alloc, kinds, global, m),
        None => Ok(()),
    }
}

/// That of one macro, where it is a reliable channel.
fn add_mapped(
    alloc: Global,
    kinds: &mut NameMap<BoxKind>,
    global: &Text,
    m: &MappingMacro,
) -> Result<(), AllocError>
    ensures { IfOk result (λ _. (g : Name) → has_name kinds.new g ≡ (has_name kinds.old g || (same_name g global.now && specs.is_channel m.now))) }
{
    let kind = recognise(alloc, m)?;
    match kind {
        Some(kind) => kinds.set(alloc, global, kind),
        None => Ok(()),
    }
}

/// The kind of the channel of a resource: of an element of a global, which every binding maps by element.
pub(crate) fn kind_of<'a>(kinds: &'a NameMap<BoxKind>, resource: &Resource) -> Option<&'a BoxKind>
    ensures { is_some result ≡ (is_some (index_in resource.now) && has_name kinds.entry.now resource.now.global) }
{
    match &resource.index {
        Some(_) => kinds.get(&resource.global),
        None => None,
    }
}
