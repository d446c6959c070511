// Texts, values and expressions.
#![tactic(auto)]

pub mod bindings;
pub mod compare;
pub mod consts;
pub mod depth;
pub mod expr;
pub mod extent;
pub mod items;
pub mod last_place;
pub mod log;
pub mod module;
pub mod name_map;
pub mod named_values;
mod order;
pub mod pairs;
pub mod results;
pub mod scope;
pub mod slices;
pub mod text;
pub mod value;
pub mod word;
