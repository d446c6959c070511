// The definitions of the bound system: what a specification with its constants is bound to, its states, its declared starts,
// and when it is sound.
//
// They stand in a crate of their own, below the functions that compute them (`pgo_heads`, `pgo_bind`), so that what else
// speaks of a bound system stands beside these and not above them. Its one type is what a global is among the resources.
#![tactic(auto)]

pub mod kinds;
