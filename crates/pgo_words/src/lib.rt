// The words of the command line.
//
// - `request`: what they ask for.
// - `read`: what words ask for, or that they ask for nothing that there is.
// - `commands`, `options`, `park`, `settings`, `failures`, `turns`, `constants`: the parts of the words.
// - `numbers`, `cuts`: the parts of one word.
#![tactic(auto)]

mod commands;
mod constants;
mod cuts;
pub mod errors;
mod failures;
mod numbers;
mod options;
mod park;
pub mod read;
pub mod request;
mod settings;
mod turns;
