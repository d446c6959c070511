// A section before its first effect.
ghost use Rattle.std.specs.Prelude.{◌≡◌, List, IfOk};
ghost use Rattle.pgo_base.specs.Lookup.{Name};
ghost use Rattle.pgo_section_list.specs.Sections.{section_view};
ghost use Rattle.pgo_effects.specs.SettingView.{setting_view};
ghost use Rattle.pgo_sections.specs.Expand.{expansion};
ghost use Rattle.pgo_walk.specs.Emitted.{left_in};
ghost use Rattle.pgo_walk.specs.SettingPlaces.{places_in};

use pgo_effects::setting::Setting;
use pgo_section_list::sections::Section;
use pgo_walk::frames::State;
use pgo_walk::made::Made;
use pgo_walk::pushes::{push_code, push_codes};
use pgo_walk::stack::Stack;
use std::alloc::{AllocError, Global};

/// A section of which nothing is done: what is still to be done has its expansion.
///
/// Err where there is no memory.
pub fn start<'a, 'i>(
    alloc: Global,
    setting: Setting<'a, 'i>,
    section: &Section<'a>,
) -> Result<State<'a, 'i>, AllocError>
    ensures { IfOk result (λ s. (vs : List Name) → left_in vs s ≡ expansion vs (places_in setting.entry) (section_view (setting_view setting.entry) section.now).1) }
{
    let none = Made::new(alloc);
    let mut frames = Stack::new(alloc);
    push_code(alloc, &mut frames, setting, &none, &section.end)?;
    push_codes(alloc, &mut frames, setting, &none, section.todos.as_slice())?;
    Ok(State {
        frames,
        current: none,
        bound: 0,
    })
}
