// The picture of a bundle.
#![tactic(auto)]

mod drawing;
mod ends;
mod lanes;
mod layout;
mod marks;
mod noted;
pub mod picture;
