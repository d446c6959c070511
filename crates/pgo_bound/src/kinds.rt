// What a global is among the resources.

/// What a global is among the resources.
#[derive(Clone, Copy)]
pub enum Kind {
    /// No instance binds it: it is none.
    Unbound,
    /// It is one resource as a whole.
    AsWhole,
    /// It is one resource for each of its elements.
    ByElement,
}
