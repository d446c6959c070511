// The names that stand in a specification, each with what is known at its place.
use pgo_base::expr::Exprs;
use pgo_base::text::Text;

/// Where a name stands: the number of a definition, a global, a macro or an archetype is its place in the list of those
/// of its kind, from 0.
#[derive(Clone, Copy)]
pub enum Home {
    /// a definition: its parameters and its body
    Definition(usize),
    /// the initial value of a global, or the set of its `\in`
    Global(usize),
    /// a macro: its parameters and its body
    Macro(usize),
    /// the blocks of a mapping macro
    Mapping,
    /// the initial value of a local variable of an archetype
    Initial(usize),
    /// the set of the `\in` of a local variable of an archetype
    InitialSet(usize),
    /// an archetype: its parameters, its local variables and its body
    Body(usize),
    /// the identifiers of a process
    Process,
    /// a value argument of a process
    Argument,
}

/// What is known at a place of a text beside the names in scope.
#[derive(Clone, Copy)]
pub struct Around {
    pub home: Home,
    /// the offset of the last thing that has a place of its own
    pub place: u32,
    /// under a binder, in an arm or a later guard of IF or CASE, or in a LET
    pub hidden: bool,
    /// directly before one index
    pub indexed: bool,
    /// in an argument of a macro's call
    pub passed: bool,
}

/// How a left side goes on behind its name, or behind an argument that is put in its place.
#[derive(Clone, Copy, PartialEq, Eq)]
pub enum Shape {
    /// nothing follows
    Bare,
    /// one index, `[i]`
    OneIndex,
    /// a field, or several steps
    Further,
}

/// How a name stands.
#[derive(Drop)]
pub enum Form {
    /// `x`
    Alone,
    /// `Op(a, b)`, with so many arguments
    Applied(usize),
    /// a name that an expression binds, or a definition's parameter
    Bound,
    /// a name that a `with` binds, a macro's parameter, a parameter or a local variable of an archetype
    Named,
    /// the name of a left side, before a path
    Assigned(Shape),
    /// a macro's call, with its arguments
    Called(Exprs),
    /// the field of a record
    Field,
    /// a label
    Label,
    /// the name after `goto`
    Target,
}

/// A name that stands in the text.
#[derive(Drop)]
pub struct Use {
    pub name: Text,
    pub form: Form,
    /// whether a binder, a `with` or the head of its unit gives the name a meaning there
    pub inner: bool,
    pub around: Around,
}
