// A process with its archetype, its arguments and its identifiers.
ghost use Rattle.std.specs.Prelude.{◌≡◌, map, IfOk};
ghost use Rattle.pgo_base.specs.View.{data_of};
ghost use Rattle.pgo_bound.specs.Runs as specs;
ghost use Rattle.pgo_heads.specs.Views.{handed_view, run_view};

use pgo_base::value::Value;
use pgo_syntax::archetype::{Archetype, Parameter};
use pgo_syntax::process::{Argument, Process};
use std::alloc::{AllocError, Global};

/// A parameter and what it is handed, with the argument's number from 1.
#[derive(Clone, Copy)]
pub struct Handed<'a> {
    pub number: u64,
    pub parameter: &'a Parameter,
    pub argument: &'a Argument,
}

/// A process with its archetype and, where they have a value, its identifiers in value order.
#[derive(Drop)]
pub struct Run<'a> {
    pub process: &'a Process,
    pub archetype: &'a Archetype,
    pub handed: Vec<Handed<'a>>,
    pub ids: Option<Vec<Value>>,
}

impl<'a> Run<'a> {
    /// The identifiers with which it has instances.
    pub fn run_ids(&self) -> &[Value]
        ensures { map data_of result.now ≡ specs.run_ids (run_view self.now) }
    {
        match &self.ids {
            None => &[],
            Some(ids) => ids.as_slice(),
        }
    }

    /// Whether it has instances.
    pub fn has_ids(&self) -> bool
        ensures { result ≡ specs.has_ids (run_view self.now) }
    {
        !self.run_ids().is_empty()
    }
}

/// Parameters with their arguments.
pub fn matched<'a>(
    alloc: Global,
    params: &'a [Parameter],
    arguments: &'a [Argument],
) -> Result<Vec<Handed<'a>>, AllocError>
    ensures { IfOk result (λ v. map handed_view v.items ≡ specs.handed_from 1 params.now arguments.now) }
{
    let n = params.len().min(arguments.len());
    let mut list = Vec::with_capacity(alloc, n)?;
    for i in 0..n {
        list.push(Handed {
            number: i as u64 + 1,
            parameter: &params[i],
            argument: &arguments[i],
        })?;
    }
    Ok(list)
}
