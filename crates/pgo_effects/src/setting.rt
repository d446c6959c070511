// What the names of statements are: those of a process, or those of a mapping macro's block.
ghost use Rattle.std.specs.Prelude.{◌≡◌, option_map};
ghost use Rattle.pgo_base.specs.Lookup.{find};
ghost use Rattle.pgo_effects.specs.SettingView.{setting_view};
ghost use Rattle.pgo_meaning.specs.Parameters.{all_mapped};
ghost use Rattle.pgo_rewrite.specs.Views.{mapped_view};

use crate::indexed_archetype::IndexedArchetype;
use pgo_base::text::Text;
use pgo_rewrite::indexed_bindings::IndexedBindings;
use pgo_rewrite::mapped::Mapped;
use pgo_syntax::bound::Binding;

/// Whose statements they are: those of a process that runs an archetype with these bindings, or those of a mapping macro.
#[derive(Clone, Copy)]
pub enum Setting<'a, 'i> {
    Process {
        name: &'a Text,
        archetype: &'i IndexedArchetype<'a>,
        bindings: &'i IndexedBindings<'a>,
    },
    Block,
}

impl<'a, 'i> Setting<'a, 'i> {
    /// The process's name, empty in a block.
    pub fn process(self) -> &'a [u8]
        ensures { result.now ≡ (setting_view self.entry).process }
    {
        match self {
            Setting::Process { name, .. } => name.as_bytes(),
            Setting::Block => b"",
        }
    }

    /// The bindings, none in a block.
    pub fn bindings(self) -> &'a [Binding]
        ensures { all_mapped result.now ≡ (setting_view self.entry).mapped }
    {
        match self {
            Setting::Process { bindings, .. } => bindings.as_slice(),
            Setting::Block => &[],
        }
    }

    /// The mapped parameter of a name, if it is one.
    pub fn mapped_named(self, x: &Text) -> Option<Mapped<'a>>
        ensures { option_map mapped_view result ≡ find x.now (setting_view self.entry).mapped }
    {
        match self {
            Setting::Process { bindings, .. } => bindings.mapped_named(x),
            Setting::Block => None,
        }
    }

    /// Whether the statements are a mapping macro's.
    pub fn is_block(self) -> bool
        ensures { result ≡ (setting_view self.entry).is_block }
    {
        match self {
            Setting::Process { .. } => false,
            Setting::Block => true,
        }
    }
}
