// The depths of macros.
ghost use Rattle.std.specs.Prelude.{◌≡◌, [], ◌∷◌, ◌++◌, IfOk, OnErr};
ghost use Rattle.pgo_mpcal_read.specs.Depths as spec;

use pgo_base::name_map::NameMap;
use pgo_base::text::Text;
use std::alloc::{AllocError, Global};
use std::marker::Model;

/// How deep the statements of a macro's body nest, with macros in the place of their calls.
#[derive(Drop)]
pub struct MacroDepth {
    pub name: Text,
    pub depth: u32,
}

/// The depths of macros in the order of the text. The first of a name is found without going over the list.
#[derive(Drop)]
pub struct MacroDepths {
    list: Vec<MacroDepth>,
    first: NameMap<u32>,
}

impl Model for MacroDepths {
    ghost use Rattle.std.specs.Prelude.{◌≡◌, List};
    ghost use Rattle.pgo_base.specs.Lookup.{Name};
    ghost use Rattle.pgo_base.specs.NameMaps.{found};
    ghost use Rattle.pgo_mpcal_read.specs.declared.depths.MacroDepth.{MacroDepth};
    ghost use Rattle.pgo_mpcal_read.specs.Depths.{first_depth};

    ghost Value = { List MacroDepth };

    ghost view = { λ l. l.list.items };

    ghost invariant = { λ l. (n : Name) → found l.first n ≡ first_depth l.list.items n };
}

impl MacroDepths {
    /// No macro.
    pub fn new(alloc: Global) -> MacroDepths
        ensures { result ≡ [] }
    {
        MacroDepths {
            list: Vec::new(alloc),
            first: NameMap::new(alloc),
        }
    }

    /// One macro more, at the end. Where there is no memory for it, there are those that there were.
    pub fn push(&mut self, alloc: Global, depth: MacroDepth) -> Result<(), AllocError>
        ensures added { IfOk result (λ _. self.new ≡ self.old ++ depth ∷ []) }
        ensures kept { OnErr result (self.new ≡ self.old) }
    {
        self.list.reserve(1)?;
        self.first.set_first(alloc, &depth.name, depth.depth)?;
        self.list.push_reserved(depth);
        Ok(())
    }
}

/// The depth of the body of the first macro of this name, 0 where there is none.
pub fn depth_of(macros: &MacroDepths, name: &Text) -> u32
    ensures { result ≡ spec.depth_of macros.now name.now }
{
    match macros.first.get(name) {
        Some(depth) => *depth,
        None => 0,
    }
}
