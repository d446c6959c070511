// The text that explains a bundle.
#![tactic(auto)]

mod action;
mod alike;
mod causes;
mod counts;
mod instance;
mod last;
mod phrases;
mod places;
pub mod shown;
mod texts;
mod values;
mod walk;
