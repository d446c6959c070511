// The text of a specification whose labels are expanded.
ghost use Rattle.std.specs.Prelude.{◌≡◌, ◌++◌, map, IfOk};
ghost use Rattle.std.specs.List.{flat_map};
ghost use Rattle.pgo_pluscal.specs.Text as text;

use crate::heads::{push_define, push_variables};
use crate::lines::push_part;
use crate::part::Part;
use crate::pluscal::{ExpandedProcess, PlusCal};
use crate::words::Word::{Bytes, Name, Whole};
use crate::words::push_line;
use pgo_base::expr::Names;
use pgo_base::text::Text;
use pgo_expr_write::errors::NoMemory;
use pgo_syntax::declaration::Declaration;
use std::alloc::Global;

/// The text of a specification whose labels are expanded, in PlusCal's syntax with braces: its heads, and for each label its
/// statements. Each block stands two blanks further in. Expressions are canonical text, and in a process's trees the name of
/// one of its variables stands for its part at `self`.
///
/// `NoMemory` comes only where there is no memory.
///
/// Source: the PlusCal manual for the statements, this project's choice for lines, blanks and parentheses.
pub fn write_pluscal(alloc: Global, p: &PlusCal) -> Result<Text, NoMemory>
    ensures { IfOk result (λ t. t ≡ text.pluscal_text p.now) }
{
    let mut bytes = Vec::new(alloc);
    push_pluscal(&mut bytes, alloc, p)?;
    Ok(Text::from_bytes(bytes)?)
}

/// Adds the whole text.
fn push_pluscal(bytes: &mut Vec<u8>, alloc: Global, p: &PlusCal) -> Result<(), NoMemory>
    ensures { IfOk result (λ _. bytes.new.items ≡ bytes.old.items ++ text.pluscal_text p.now) }
{
    push_line(
        bytes,
        alloc,
        0,
        &[Bytes(b"--algorithm "), Name(&p.name), Bytes(b" {")],
    )?;
    push_variables(bytes, alloc, p.globals.as_slice())?;
    push_define(bytes, alloc, &p.define)?;
    push_processes(bytes, alloc, p.processes.as_slice())?;
    push_line(bytes, alloc, 0, &[Bytes(b"}")])
}

/// Adds the lines of the processes.
fn push_processes(
    bytes: &mut Vec<u8>,
    alloc: Global,
    processes: &[ExpandedProcess],
) -> Result<(), NoMemory>
    ensures { IfOk result (λ _. bytes.new.items ≡ bytes.old.items ++ flat_map text.process_text processes.now) }
{
    for process in processes {
        push_process(bytes, alloc, process)?;
    }
    Ok(())
}

/// Adds the lines of a process.
fn push_process(bytes: &mut Vec<u8>, alloc: Global, p: &ExpandedProcess) -> Result<(), NoMemory>
    ensures { IfOk result (λ _. bytes.new.items ≡ bytes.old.items ++ text.process_text p.now) }
{
    push_line(
        bytes,
        alloc,
        1,
        &[
            Bytes(b"process ("),
            Name(&p.name),
            Bytes(b" \\in "),
            Whole(&p.ids),
            Bytes(b")"),
        ],
    )?;
    push_variables(bytes, alloc, p.variables.as_slice())?;
    push_line(bytes, alloc, 1, &[Bytes(b"{")])?;
    push_own_labels(bytes, alloc, p)?;
    push_line(bytes, alloc, 1, &[Bytes(b"}")])
}

/// Adds the lines of a process's labels.
fn push_own_labels(bytes: &mut Vec<u8>, alloc: Global, p: &ExpandedProcess) -> Result<(), NoMemory>
    ensures { IfOk result (λ _. bytes.new.items ≡ bytes.old.items ++ text.labels_text p.now) }
{
    let own = names_of(alloc, p.variables.as_slice())?;
    push_labels(bytes, alloc, &own, p.trees.as_slice())
}

/// The names of variables.
fn names_of(alloc: Global, variables: &[Declaration]) -> Result<Names, NoMemory>
    ensures { IfOk result (λ names. names ≡ map (λ d. d.name.name) variables.now) }
{
    let mut names = Names::new(alloc);
    for variable in variables {
        names.push(variable.name.name.copy(alloc)?)?;
    }
    Ok(names)
}

/// Adds the lines of labels.
fn push_labels(
    bytes: &mut Vec<u8>,
    alloc: Global,
    own: &Names,
    labels: &[(Text, Part)],
) -> Result<(), NoMemory>
    ensures { IfOk result (λ _. bytes.new.items ≡ bytes.old.items ++ flat_map (text.label_text own.now) labels.now) }
{
    for label in labels {
        push_line(bytes, alloc, 2, &[Name(&label.0), Bytes(b":")])?;
        push_part(bytes, alloc, own, 2, &label.1)?;
    }
    Ok(())
}
