// The expansion of a section's code, one effect at a time, and over that the tree itself.
#![tactic(auto)]

pub mod binds;
pub mod blocks;
pub mod contents;
pub mod copies;
pub mod effects;
pub mod event;
pub mod frames;
pub mod last;
pub mod made;
pub mod make;
pub mod naming;
pub mod pushes;
pub mod stack;
pub mod turn;
