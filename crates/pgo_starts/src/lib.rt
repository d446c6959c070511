// What instances and resources have as a run starts.
#![tactic(auto)]

pub mod alike;
pub mod boxed;
pub mod content;
pub mod contents;
mod indexed_state;
mod kinds;
pub mod own;
