// Expressions with others in the place of their names, and with their mapped reads hoisted out of them.
//
// One walk does both. At a name that the expression itself binds around its place nothing happens. Another name gives way to what
// stands for it, if anything does; the name of a mapped parameter as a whole, and an index on one by element, give way to the name
// under which the value that is read will stand. Reads come in the order of the text, each index before its read.
//
// A walk takes the operands of an expression (`pgo_operands`), rewrites each in turn with the names that are bound around it, and
// builds the form anew from what came of them. So it has one loop and one call, whatever the number of forms. It recurses to the
// height of the expression.
#![tactic(auto)]

pub mod arguments;
pub mod bound_names;
pub mod indexed_bindings;
pub mod indexed_names;
mod lists;
pub mod mapped;
pub mod newest;
mod parts;
pub mod reads;
mod rebuild;
pub mod rewrite;
pub mod scopes;
pub mod shared;
pub mod substitution;
mod walk;
