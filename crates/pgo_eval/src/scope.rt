// What an expression sees while it is evaluated.
use pgo_base::bindings::Bindings;
use pgo_base::module::Defs;
use pgo_base::scope::Around;
use pgo_base::value::Value;

/// The most levels of expressions that are open at once, across definitions.
pub const MOST_LEVELS: usize = 640;

/// The names in scope, what `@` stands for, the states around, the definitions, the newest last, how many of them
/// are seen, the first ones, and how many more levels of expressions may be opened.
#[derive(Clone, Copy)]
pub struct Scope<'names, 'part, 'around> {
    pub names: &'names Bindings<'names>,
    pub part: Option<&'part Value>,
    pub around: Around<'around>,
    pub defs: &'around Defs,
    pub seen: usize,
    pub left: usize,
}
