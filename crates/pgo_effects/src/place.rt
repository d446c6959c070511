// The variable that a name stands for.
ghost use Rattle.std.specs.Prelude.{◌≡◌, option_map, IfOk};
ghost use Rattle.pgo_base.specs.Lookup.{find};
ghost use Rattle.pgo_effects.specs.PlaceView.{place_view, target_place_of};
ghost use Rattle.pgo_effects.specs.SettingView.{setting_view};
ghost use Rattle.pgo_meaning.specs.Parameters.{local_places, parameter_places, places_of};
ghost use Rattle.pgo_sections.specs.Code.{content_places};

use crate::indexed_archetype::IndexedArchetype;
use crate::setting::Setting;
use pgo_base::text::Text;
use pgo_rewrite::indexed_bindings::IndexedBindings;
use pgo_syntax::bound::Target;
use pgo_syntax::name::written_name;
use std::alloc::{AllocError, Global};

/// A variable as a whole, or its part at `self`.
#[derive(Drop)]
pub enum Place {
    Whole(Text),
    Own(Text),
}

impl Place {
    /// The same place once more.
    pub fn copy(&self, alloc: Global) -> Result<Place, AllocError>
        ensures { IfOk result (λ p. p ≡ self.now) }
    {
        match self {
            Place::Whole(x) => Ok(Place::Whole(x.copy(alloc)?)),
            Place::Own(x) => Ok(Place::Own(x.copy(alloc)?)),
        }
    }
}

/// The place of a parameter that stands for this; none of a mapped one.
fn target_place(
    alloc: Global,
    process: &Text,
    parameter: &Text,
    target: &Target,
) -> Result<Option<Place>, AllocError>
    ensures { IfOk result (λ p. option_map place_view p ≡ target_place_of process.now parameter.now target.now) }
{
    match target {
        Target::Value(_) => {
            let x = written_name(alloc, process.as_bytes(), parameter)?;
            Ok(Some(Place::Own(x)))
        }
        Target::Global {
            name,
            mapping: None,
            ..
        } => Ok(Some(Place::Whole(name.copy(alloc)?))),
        _ => Ok(None),
    }
}

/// The place of a parameter.
fn parameter_place(
    alloc: Global,
    process: &Text,
    bindings: &IndexedBindings<'_>,
    x: &Text,
) -> Result<Option<Place>, AllocError>
    ensures { IfOk result (λ p. option_map place_view p ≡ find x.now (parameter_places process.now bindings.now)) }
{
    match bindings.unmapped_named(x) {
        Some(target) => target_place(alloc, process, x, target),
        None => Ok(None),
    }
}

/// The place of a local.
#[tactic(auto, using(crate::proofs::LocalLaws::local_found))]
fn local_place(
    alloc: Global,
    process: &Text,
    archetype: &IndexedArchetype<'_>,
    x: &Text,
) -> Result<Option<Place>, AllocError>
    ensures { IfOk result (λ p. option_map place_view p ≡ find x.now (local_places process.now archetype.now.locals)) }
{
    if archetype.has_local(x) {
        let x = written_name(alloc, process.as_bytes(), x)?;
        return Ok(Some(Place::Own(x)));
    }
    Ok(None)
}

/// The place of a name of a process.
fn process_place(
    alloc: Global,
    process: &Text,
    archetype: &IndexedArchetype<'_>,
    bindings: &IndexedBindings<'_>,
    x: &Text,
) -> Result<Option<Place>, AllocError>
    ensures { IfOk result (λ p. option_map place_view p ≡ find x.now (places_of process.now archetype.now bindings.now)) }
{
    let found = parameter_place(alloc, process, bindings, x)?;
    if found.is_some() {
        return Ok(found);
    }
    local_place(alloc, process, archetype, x)
}

/// The place of a name of a mapping macro's block: the content.
fn block_place(alloc: Global, x: &Text) -> Result<Option<Place>, AllocError>
    ensures { IfOk result (λ p. option_map place_view p ≡ find x.now content_places) }
{
    let content = Text::from_slice(alloc, b"$variable")?;
    if x.is(&content) {
        Ok(Some(Place::Whole(content)))
    } else {
        Ok(None)
    }
}

/// The place that a name stands for: an unmapped parameter's global, the variable of a value parameter or of a local, and in a
/// block the content. Of two that have the name, the parameter.
pub fn place_named(
    alloc: Global,
    setting: Setting<'_, '_>,
    x: &Text,
) -> Result<Option<Place>, AllocError>
    ensures { IfOk result (λ p. option_map place_view p ≡ find x.now (setting_view setting.entry).places) }
{
    match setting {
        Setting::Process {
            name,
            archetype,
            bindings,
        } => process_place(alloc, name, archetype, bindings, x),
        Setting::Block => block_place(alloc, x),
    }
}
