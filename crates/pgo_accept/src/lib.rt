// What a specification's text is bound to, its expansion, and the line of its refusal where it is refused.
#![tactic(auto)]

pub mod accept;
pub mod errors;
pub mod laws;
pub mod lines;
