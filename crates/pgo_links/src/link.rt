// A content with its resource's number.
ghost use Rattle.std.specs.Prelude.{◌≡◌, Some, None, if◌then◌else◌};
ghost use Rattle.pgo_model.specs.Core.{is_listed};

use pgo_base::value::Value;
use pgo_resource::picks::Picks;
use pgo_resource::resource::{LinkDown, MacroEnv, OpStop, Resource};
use pgo_syntax::bound::Mapping;
use pgo_syntax::records::Down;
use std::alloc::{AllocError, Global};

/// A content that stands for a resource of this number: its pre-commits fail where a list says so. It is the content inside it but
/// for its number and its count of pre-commits.
///
/// Source: this project's choice.
pub struct Link<R> {
    inner: R,
    number: u32,
    count: u64,
}

impl<R: Drop> Drop for Link<R> {
    fn drop(self) {
        let Link {
            inner,
            number,
            count,
        } = self;
    }
}

impl<R: Resource> Link<R> {
    ghost use Rattle.pgo_links.specs.LinkView.{link_view, numbered};

    /// A content of this number, with the count 0, that is what the inner one is, whose own count and number are shown nowhere. It
    /// takes no memory.
    pub fn new(inner: R, number: u32) -> Link<R>
        ensures { link_view R.shows result ≡ numbered number (R.shows inner) }
    {
        Link {
            inner,
            number,
            count: 0,
        }
    }
}

/// The number of a pre-commit, as the list has it, where the list has one of this number at the resource.
fn listed(down: &Down, resource: u32, number: u64) -> Option<u32>
    ensures { result ≡ (if is_listed down.now resource number then Some number else None) }
{
    for pair in down.as_slice() {
        if pair.0 == resource && u64::from(pair.1) == number {
            return Some(pair.1);
        }
    }
    None
}

impl<R: Resource> Resource for Link<R> {
    ghost use Rattle.pgo_links.specs.LinkView.{link_view};

    ghost shows = { link_view R.shows };

    fn read(
        &mut self,
        alloc: Global,
        m: &Mapping,
        env: MacroEnv<'_>,
        at: Option<&Value>,
        picks: &mut Picks,
    ) -> Result<Value, OpStop> {
        self.inner.read(alloc, m, env, at, picks)
    }

    fn write(
        &mut self,
        alloc: Global,
        m: &Mapping,
        env: MacroEnv<'_>,
        at: Option<&Value>,
        v: Value,
        picks: &mut Picks,
    ) -> Result<(), OpStop> {
        self.inner.write(alloc, m, env, at, v, picks)
    }

    fn pre_commit(&mut self, down: &Down) -> Result<(), LinkDown> {
        if self.count < u64::MAX {
            self.count += 1;
        }
        match listed(down, self.number, self.count) {
            None => Ok(()),
            Some(operation) => Err(LinkDown { operation }),
        }
    }

    fn commit(&mut self) {
        self.inner.commit();
    }

    fn abort(&mut self) {
        self.inner.abort();
    }

    fn value(&self, alloc: Global) -> Result<Value, AllocError> {
        self.inner.value(alloc)
    }

    fn count(&self) -> u64 {
        self.count
    }

    fn is_changed(&self) -> bool {
        self.inner.is_changed()
    }

    fn is_deeper(&self, limit: usize) -> bool {
        self.inner.is_deeper(limit)
    }
}
