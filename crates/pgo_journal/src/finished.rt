// What a run that has ended leaves.
use crate::journal::Journal;
use pgo_base::items::Items;
use pgo_syntax::records::{End, Records};

/// The records of an instance in order, and why it makes no more attempts; none where it was stopped before.
#[derive(Drop)]
pub struct Account {
    pub records: Records,
    pub end: Option<End>,
}

/// Accounts by the numbers of their instances.
pub type Accounts = Items<Account>;

/// The journal, and the account of each instance.
#[derive(Drop)]
pub struct Finished {
    pub journal: Journal,
    pub accounts: Accounts,
}
