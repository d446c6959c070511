// Where bytes come from and where they go.
#![tactic(auto)]

mod calls;
pub mod errors;
pub mod mem_sink;
pub mod mem_source;
pub mod read_all;
pub mod sink;
pub mod source;
pub mod standard;
pub mod sure_sink;
pub mod sure_source;
pub mod write_all;
