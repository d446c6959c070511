// The rules of labels.
#![tactic(auto)]

mod checker;
pub mod errors;
mod finding;
mod items;
mod label_here;
mod label_twice;
mod names;
mod needs_label;
mod reserved_done;
mod too_many_labels;
mod unknown_label;
mod yield_rule;

pub use checker::labels;
