// The resources that are elements of globals, found without going over all resources.
ghost use Rattle.std.specs.Prelude.{◌≡◌, ◌&&◌, if◌then◌else◌, None, Some, IfOk};
ghost use Rattle.pgo_base.specs.Lookup.{Name, same_name, or_that};
ghost use Rattle.pgo_base.specs.View.{data_of};
ghost use Rattle.pgo_base.specs.declared.value.Value.{Value as Index};
ghost use Rattle.pgo_model.specs.Core.{same_index};
ghost use Rattle.pgo_model.specs.Operators.{same_data};
ghost use Rattle.pgo_meaning.specs.System.{resource_of};
ghost use Rattle.pgo_code.specs.Elements.{AreAmong, element_in, numbered};

use pgo_base::name_map::NameMap;
use pgo_base::text::Text;
use pgo_base::value::Value;
use pgo_syntax::bound::{Bound, Resource};
use std::alloc::{AllocError, Global};
use std::collections::BTreeMap;

/// For each global, the numbers of the resources that are its elements, by their indices.
#[derive(Drop)]
pub struct Elements {
    map: NameMap<BTreeMap<Value, u32>>,
}

/// The index has the number, unless it has one already.
fn number_first(
    alloc: Global,
    numbers: &mut BTreeMap<Value, u32>,
    index: &Value,
    number: u32,
) -> Result<(), AllocError>
    ensures { IfOk result (λ _. (v : Index) → numbered numbers.new (data_of v) ≡ or_that (numbered numbers.old (data_of v)) (if same_data (data_of index.now) (data_of v) then Some number else None)) }
{
    if numbers.contains_key(index) {
        return Ok(());
    }
    let key = index.copy(alloc)?;
    numbers.insert(key, number)?;
    Ok(())
}

impl Elements {
    /// No element.
    fn new(alloc: Global) -> Elements
        ensures { (g : Name) (v : Index) → element_in result g (data_of v) ≡ None }
    {
        Elements {
            map: NameMap::new(alloc),
        }
    }

    /// The number of an element of a global, if there is one.
    pub fn number(&self, global: &Text, index: &Value) -> Option<u32>
        ensures { result ≡ element_in self.now global.now (data_of index.now) }
    {
        match self.map.get(global) {
            Some(numbers) => numbers.get(index).copied(),
            None => None,
        }
    }

    /// An element of a global, unless there is one already.
    fn add_element(
        &mut self,
        alloc: Global,
        global: &Text,
        index: &Value,
        number: u32,
    ) -> Result<(), AllocError>
        ensures { IfOk result (λ _. (g : Name) (v : Index) → element_in self.new g (data_of v) ≡ or_that (element_in self.old g (data_of v)) (if same_name global.now g && same_data (data_of index.now) (data_of v) then Some number else None)) }
    {
        let mut numbers = self.map.take(global).unwrap_or(BTreeMap::new(alloc));
        number_first(alloc, &mut numbers, index, number)?;
        self.map.set(alloc, global, numbers)?;
        Ok(())
    }

    /// The resource, where it is an element.
    fn add(&mut self, alloc: Global, resource: &Resource) -> Result<(), AllocError>
        ensures { IfOk result (λ _. (g : Name) (v : Index) → element_in self.new g (data_of v) ≡ or_that (element_in self.old g (data_of v)) (if same_name resource.now.global g && same_index (resource_of resource.now).index (Some (data_of v)) then Some resource.now.number else None)) }
    {
        match &resource.index {
            Some(index) => self.add_element(alloc, &resource.global, index, resource.number),
            None => Ok(()),
        }
    }
}

/// The elements among these resources.
fn elements_of(alloc: Global, resources: &[Resource]) -> Result<Elements, AllocError>
    ensures { IfOk result (AreAmong resources.now) }
{
    let mut elements = Elements::new(alloc);
    for r in resources {
        elements.add(alloc, r)?;
    }
    Ok(elements)
}

/// The elements among the resources of a bound specification.
pub fn elements_in(alloc: Global, bound: &Bound) -> Result<Elements, AllocError>
    ensures { IfOk result (AreAmong bound.now.resources) }
{
    elements_of(alloc, bound.resources.as_slice())
}
