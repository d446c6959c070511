// The table that threads share.
ghost use Rattle.std.specs.Prelude.{◌≡◌, ◌+◌, ◌≤◌, ◌<◌, length};
ghost use Rattle.pgo_model.specs.Accounts.{journal};
ghost use Rattle.pgo_workers.specs.Worlds.{IsLayout, HasAll};

use atomic_table::Table;
use pgo_resource::resource::Resource;
use pgo_table::rule::Rule;
use pgo_table::slots::{Stored, TableView, Terms};
use std::alloc::Global;

/// Contents, holds and a journal that threads share.
#[derive(Drop)]
pub struct Shared<R: Resource> {
    pub(crate) table: Table<Option<Stored<R>>, TableView, Terms, Rule<R>, Global>,
    /// how many resources there are; the journal's word and slot come behind theirs
    pub(crate) count: usize,
    ghost sized: { (table.shared.table_id.slots ≡ count + 1) × (table.shared.table_id.words ≡ count + 1) × (count ≡ length table.shared.key.layout.resources) },
    ghost proper: { IsLayout table.shared.key.layout × HasAll table.shared.key.layout table.shared.key.layout.start },
    ghost few: { (count ≤ journal) × (0 < length table.shared.key.layout.ids) × (length table.shared.key.layout.ids ≤ 64) },
}
