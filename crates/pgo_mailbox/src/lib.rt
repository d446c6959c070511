// Bounded mailboxes as queues.
#![tactic(auto)]

pub mod alike;
mod capacity;
pub mod channel;
pub mod mailbox;
mod queue;
