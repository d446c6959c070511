// A value that mapping macros read and write.
ghost use Rattle.std.specs.Prelude.{◌≡◌, option_map, unwrap_or};
ghost use Rattle.pgo_base.specs.View.{data_of};

use crate::part::{read_part, write_part};
use pgo_base::compare::compare;
use pgo_base::depth::is_deeper;
use pgo_base::value::Value;
use pgo_resource::picks::Picks;
use pgo_resource::resource::{LinkDown, MacroEnv, OpStop, Resource};
use pgo_syntax::bound::Mapping;
use pgo_syntax::records::Down;
use std::alloc::{AllocError, Global};

/// A content in memory: its base, what it is now, where that was written, and its count of pre-commits. It has no number, so that
/// no pre-commit is refused.
#[derive(Drop)]
pub struct Cell {
    base: Value,
    written: Option<Value>,
    count: u64,
}

impl Cell {
    ghost use Rattle.pgo_workers.specs.View.{Shown};
    ghost use Rattle.pgo_cells.specs.CellView.{cell_view, start_of};

    /// A cell whose base is v, and that is v now, with the count 0. It takes no memory.
    pub fn new(v: Value) -> Cell
        ensures { cell_view result ≡ start_of (data_of v) }
    {
        Cell {
            base: v,
            written: None,
            count: 0,
        }
    }

    /// What it is now.
    fn content(&self) -> &Value
        ensures { data_of result.now ≡ (cell_view self.now).current }
    {
        match &self.written {
            Some(v) => v,
            None => &self.base,
        }
    }

    /// It is this value now, where there is one.
    fn change(&mut self, v: Option<Value>)
        ensures { cell_view self.new ≡ record (cell_view self.old) { current = unwrap_or (option_map data_of v) (cell_view self.old).current } }
    {
        if v.is_some() {
            self.written = v;
        }
    }
}

impl Resource for Cell {
    ghost use Rattle.pgo_cells.specs.CellView.{cell_view};

    ghost shows = { cell_view };

    fn read(
        &mut self,
        alloc: Global,
        m: &Mapping,
        env: MacroEnv<'_>,
        at: Option<&Value>,
        picks: &mut Picks,
    ) -> Result<Value, OpStop> {
        let (value, content) = read_part(alloc, m, env, at, self.content(), picks)?;
        self.change(content);
        Ok(value)
    }

    fn write(
        &mut self,
        alloc: Global,
        m: &Mapping,
        env: MacroEnv<'_>,
        at: Option<&Value>,
        v: Value,
        picks: &mut Picks,
    ) -> Result<(), OpStop> {
        let content = write_part(alloc, m, env, at, self.content(), v, picks)?;
        self.written = Some(content);
        Ok(())
    }

    fn pre_commit(&mut self, _down: &Down) -> Result<(), LinkDown> {
        if self.count < u64::MAX {
            self.count += 1;
        }
        Ok(())
    }

    fn commit(&mut self) {
        if let Some(v) = self.written.take() {
            self.base = v;
        }
    }

    fn abort(&mut self) {
        self.written = None;
    }

    fn value(&self, alloc: Global) -> Result<Value, AllocError> {
        self.content().copy(alloc)
    }

    fn count(&self) -> u64 {
        self.count
    }

    fn is_changed(&self) -> bool {
        match &self.written {
            Some(v) => !compare(&self.base, v).is_eq(),
            None => false,
        }
    }

    fn is_deeper(&self, limit: usize) -> bool {
        is_deeper(self.content(), limit)
    }
}
