// A specification that is bound to constants: its instances, its resources and its starting state.
//
// What takes values as given stands in `pgo_heads`. Here expressions are evaluated: the identifiers of processes and what
// variables start with. On these stands `bind::bind`, with the laws of what it answers.
#![tactic(auto)]

pub mod bind;
pub mod errors;
mod findings;
mod globals;
mod init_empty;
mod init_no_value;
mod local_sets;
mod runs;
mod start;
mod used;
mod values;
