// The value of an expression.
#![tactic(auto)]

mod answers;
mod arithmetic;
mod binders;
mod built;
mod calls;
mod choice;
mod control;
mod definitions;
pub mod eval;
mod evaluate;
mod evaluated;
mod function;
mod held;
mod leaves;
mod members;
mod names;
mod one_name;
mod operations;
mod operators;
mod paths;
mod places;
mod quantifiers;
mod scope;
mod states;
mod truths;
mod updates;
mod words;
