// The rules of names of a specification, judged over the names that pgo_uses lists.
#![tactic(auto)]

mod arity;
mod assigned;
mod binders;
mod captures;
mod clash;
pub mod errors;
mod finding;
mod globals;
mod handed;
mod macro_table;
mod mapped;
mod module_names;
mod modules;
mod name_usage;
mod places;
mod rules;
pub mod scope;
mod targets;
mod twice;
mod underscores;
mod units;
mod unknown;
mod usage;
mod words;
