// What stands around a part of the text.
ghost use Rattle.std.specs.Prelude.{◌≡◌, [], None, IfOk};
ghost use Rattle.pgo_effects.specs.Around.{around_view};
ghost use Rattle.pgo_meaning.specs.MacrosPlaced.{bodies};

use crate::indexed_macros::IndexedMacros;
use pgo_base::text::Text;
use pgo_rewrite::arguments::Arguments;
use std::alloc::{AllocError, Global};
use std::rc::Rc;

/// What stands around a part of the text: the arguments of the macros in whose bodies it is, the innermost macro's first; the
/// macros that may be called there; and the label of the last one above.
#[derive(Drop)]
pub struct Around<'a> {
    pub layers: Rc<Vec<Arguments>>,
    pub macros: IndexedMacros<'a>,
    pub label: Option<&'a Text>,
}

impl<'a> Around<'a> {
    /// Around a part of an archetype's or a mapping macro's text: no macro's arguments, and no label above.
    pub fn new(alloc: Global, macros: IndexedMacros<'a>) -> Result<Around<'a>, AllocError>
        ensures { IfOk result (λ a. around_view a ≡ record { layers = []; bodies = bodies macros.entry; label = None }) }
    {
        let layers = Rc::new(alloc, Vec::new(alloc))?;
        Ok(Around {
            layers,
            macros,
            label: None,
        })
    }

    /// The same once more.
    pub fn copy(&self) -> Result<Around<'a>, AllocError>
        ensures { IfOk result (λ a. around_view a ≡ around_view self.now) }
    {
        let layers = self.layers.clone()?;
        let macros = self.macros.copy()?;
        Ok(Around {
            layers,
            macros,
            label: self.label,
        })
    }
}
