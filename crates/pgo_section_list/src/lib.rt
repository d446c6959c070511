// The sections of a process's labels, each as what is to be done one after the other.
#![tactic(auto)]

mod inner;
pub mod sections;
