// The names of a specification: those that it declares, those in the heads of its units, and those that stand in its texts,
// in order, each with what is known at its place. The rules of names judge them.
#![tactic(auto)]

pub mod all_uses;
pub mod heads;
pub mod names;
mod piece_lists;
mod pieces;
mod scopes;
mod statement_pieces;
mod statement_walk;
pub mod tables;
pub mod unit_uses;
pub mod uses;
pub mod walk;
