// What a bound system has, as lines.
use pgo_base::value::Value;
use pgo_syntax::archetype::Extent;
use pgo_syntax::bound::{Binding, Bound, Instance, Mapping, Resource, Target};
use pgo_value_text::write::write_value;
use std::alloc::{AllocError, Global};

/// Bytes that are put together from pieces.
#[derive(Drop)]
struct Lines {
    alloc: Global,
    bytes: Vec<u8>,
}

impl Lines {
    fn push(&mut self, pieces: &[&[u8]]) -> Result<(), AllocError> {
        for piece in pieces {
            self.bytes.extend_from_slice(piece)?;
        }
        Ok(())
    }

    /// The canonical text of a value, between others.
    fn push_value(&mut self, before: &[u8], v: &Value, behind: &[u8]) -> Result<(), AllocError> {
        match write_value(self.alloc, v) {
            Ok(text) => self.push(&[before, text.as_bytes(), behind]),
            Err(_) => Err(AllocError),
        }
    }

    /// ` x ref g[_] via M`, ` x ref g unmapped` or ` x value`, each with a newline.
    fn push_binding(&mut self, binding: &Binding) -> Result<(), AllocError> {
        let parameter = binding.parameter.as_bytes();
        match &binding.target {
            Target::Value(_) => self.push(&[b" ", parameter, b" value\n"]),
            Target::Global {
                name,
                extent,
                mapping,
            } => {
                let elements: &[u8] = match extent {
                    Extent::Whole => b"",
                    Extent::Element => b"[_]",
                };
                self.push(&[b" ", parameter, b" ref ", name.as_bytes(), elements])?;
                self.push_mapping(mapping)
            }
        }
    }

    fn push_mapping(&mut self, mapping: &Option<Mapping>) -> Result<(), AllocError> {
        match mapping {
            None => self.push(&[b" unmapped\n"]),
            Some(Mapping::Identity) => self.push(&[b" via identity\n"]),
            Some(Mapping::Macro(m)) => self.push(&[b" via ", m.name.name.as_bytes(), b"\n"]),
        }
    }

    /// `instance 0 1 P A`: number, identifier, process and archetype; then a line for each binding.
    fn push_instance(&mut self, instance: &Instance) -> Result<(), AllocError> {
        let number = instance.number.to_string(self.alloc)?;
        let archetype = instance.archetype.name.name.as_bytes();
        self.push(&[b"instance ", number.as_bytes()])?;
        self.push_value(b" ", &instance.id, b" ")?;
        self.push(&[instance.process.as_bytes(), b" ", archetype, b"\n"])?;
        for binding in instance.bindings.as_slice() {
            self.push_binding(binding)?;
        }
        Ok(())
    }

    /// `resource 0 g[1]`, or `resource 0 g` of a global as a whole.
    fn push_resource(&mut self, resource: &Resource) -> Result<(), AllocError> {
        let number = resource.number.to_string(self.alloc)?;
        self.push(&[
            b"resource ",
            number.as_bytes(),
            b" ",
            resource.global.as_bytes(),
        ])?;
        match &resource.index {
            Some(index) => self.push_value(b"[", index, b"]\n"),
            None => self.push(&[b"\n"]),
        }
    }
}

/// Instances with their bindings, resources, and the start, in order.
pub fn described(alloc: Global, bound: &Bound) -> Result<String, AllocError> {
    let mut lines = Lines {
        alloc,
        bytes: Vec::new(alloc),
    };
    for instance in bound.instances.as_slice() {
        lines.push_instance(instance)?;
    }
    for resource in bound.resources.as_slice() {
        lines.push_resource(resource)?;
    }
    for p in bound.start.as_slice() {
        lines.push(&[p.0.as_bytes()])?;
        lines.push_value(b" = ", &p.1, b"\n")?;
    }
    String::from_utf8_lossy(alloc, lines.bytes.as_slice())
}
