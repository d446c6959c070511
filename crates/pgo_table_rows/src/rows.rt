// Rows: a text, limits, what is done, and what is said.
ghost use Rattle.std.specs.Prelude.{IfOk, IfSome};
ghost use Rattle.pgo_table_rows.specs.Opened.{MayOpen};

use crate::accepted::accepted;
use crate::table::{Limits, at_once, one_by_one};
use pgo_sheet::answers::unless_same;
use pgo_sheet::sheet::{Subject, halves};
use pgo_sheet::template::Template;
use pgo_syntax::bound::Bound;
use std::alloc::{AllocError, Global};
use std::thread::Threads;

/// The text, the limits of the journal, and what is done: calls one after another, or so many commits by each instance at once.
#[derive(Drop)]
pub struct Rows {
    alloc: Global,
    text: Template,
    limits: Limits,
    calls: String,
    times: u32,
}

impl Rows {
    pub fn new(alloc: Global) -> Rows {
        Rows {
            alloc,
            text: Template::new(alloc),
            limits: Limits { steps: 4, notes: 4 },
            calls: String::new(alloc),
            times: 0,
        }
    }

    /// What the row's text is bound to.
    fn bound(&self) -> Result<Option<Bound>, AllocError>
        ensures { IfOk result (λ o. IfSome o MayOpen) }
    {
        let text = self.text.with_places(self.text.changed()?)?;
        accepted(self.alloc, text.as_str().as_bytes())
    }

    /// What is said of calls one after another.
    fn calls_said(&self) -> Result<String, AllocError> {
        let found = self.bound()?;
        let Some(bound) = &found else {
            return String::from_str(self.alloc, "not accepted");
        };
        if bound.instances.as_slice().is_empty() {
            return String::from_str(self.alloc, "no instance");
        }
        one_by_one(self.alloc, bound, self.limits, self.calls.as_str())
    }

    /// What is said of commits at once.
    fn times_said<T: Threads + Sync>(&self, rt: &T) -> Result<String, AllocError> {
        let found = self.bound()?;
        let Some(bound) = &found else {
            return String::from_str(self.alloc, "not accepted");
        };
        if bound.instances.as_slice().is_empty() {
            return String::from_str(self.alloc, "no instance");
        }
        at_once(rt, self.alloc, bound, self.limits, self.times)
    }

    /// Ends a row on threads. None: its answer is what is wanted; Some: this is its answer.
    pub fn end_at_once<T: Threads + Sync>(
        &mut self,
        rt: &T,
        wanted: &str,
    ) -> Result<Option<String>, AllocError> {
        let answer = self.times_said(rt)?;
        self.text.end_row();
        Ok(unless_same(answer, wanted))
    }

    fn take_limits(&mut self, text: &str) -> bool {
        let (steps, notes) = halves(text);
        let numbers = (steps.parse::<u32>(), notes.parse::<u32>());
        let (Ok(steps), Ok(notes)) = numbers else {
            return false;
        };
        self.limits = Limits { steps, notes };
        true
    }

    fn take_times(&mut self, text: &str) -> bool {
        let Ok(times) = text.parse::<u32>() else {
            return false;
        };
        self.times = times;
        true
    }
}

impl Subject for Rows {
    fn take(&mut self, key: &str, text: &str) -> Result<bool, AllocError> {
        match key {
            "limits" => return Ok(self.take_limits(text)),
            "at_once" => return Ok(self.take_times(text)),
            "do" => self.calls = String::from_str(self.alloc, text)?,
            _ => return self.text.take(key, text),
        }
        Ok(true)
    }

    fn end(&mut self, wanted: &str) -> Result<Option<String>, AllocError> {
        let answer = self.calls_said()?;
        self.text.end_row();
        Ok(unless_same(answer, wanted))
    }
}
