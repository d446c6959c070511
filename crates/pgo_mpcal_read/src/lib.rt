// The reader of specifications.
#![tactic(auto)]

mod allowed;
mod assignments;
pub mod cursor;
mod declarations;
mod depth_limit;
mod depths;
pub mod header;
pub mod item;
mod lookahead;
mod names;
mod nesting;
mod parameters;
pub mod reader;
mod statements;
mod units;
mod whole_parts;
mod with_depth;
