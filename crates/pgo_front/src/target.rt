// What a specification is translated to.

/// What a specification is translated to. This project's choice.
#[derive(Clone, Copy)]
pub enum Target {
    /// `expand`: its expansion, in PlusCal.
    Expansion,
    /// `compile`: its module, in TLA+.
    Module,
}
