// Specifications as they are read, and what they are bound to.
#![tactic(auto)]

pub mod archetype;
pub mod assignment;
pub mod binding;
pub mod bound;
pub mod declaration;
pub mod macros;
pub mod name;
pub mod process;
pub mod records;
pub mod spec;
pub mod statement;
