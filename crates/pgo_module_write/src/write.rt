// The text of a module.
ghost use Rattle.std.specs.Prelude.{◌≡◌, ◌++◌, ◌∷◌, [], codes, map, IfOk};
ghost use Rattle.pgo_base.specs.ActionView.{action_pair};
ghost use Rattle.pgo_base.specs.View.{data_of};
ghost use Rattle.pgo_model.specs.ExprText.{names_text};
ghost use Rattle.pgo_model.specs.Module as written;
ghost use Rattle.pgo_model.specs.ModuleText as text;
ghost use Rattle.pgo_model.specs.ModuleView.{defined_view, module_view, process_view};
ghost use Rattle.pgo_model.specs.ValueText.{value_text};
ghost use Rattle.pgo_model.specs.Written.{default_init_value, proc_set as set_name, terminating};

use crate::bodies::push_definition;
use crate::lines::{listed, push_line};
use pgo_base::expr::Sub;
use pgo_base::module::{Action, Defined, Module, WrittenProcess};
use pgo_base::text::Text;
use pgo_base::value::Value;
use pgo_expr_write::errors::NoMemory;
use pgo_module_trees::further::{next_body, proc_set, process_body, terminating_body};
use pgo_value_text::write::write_value;
use std::alloc::{AllocError, Global};

/// Adds the lines of a definition of these parameters; parameters: with `( )`, or nothing.
fn push_with(
    bytes: &mut Vec<u8>,
    alloc: Global,
    name: &Text,
    parameters: &[u8],
    body: &Sub,
) -> Result<(), NoMemory>
    ensures { IfOk result (λ _. bytes.new.items ≡ bytes.old.items ++ text.flatten (text.definition_lines (name.now ++ parameters.now) body.now)) }
{
    let mut head = Vec::from_slice(alloc, name.as_bytes())?;
    head.extend_from_slice(parameters)?;
    push_definition(bytes, alloc, head.as_slice(), body)
}

/// Adds the lines of a definition with the parameter `self`.
fn push_with_self(
    bytes: &mut Vec<u8>,
    alloc: Global,
    name: &Text,
    body: &Sub,
) -> Result<(), NoMemory>
    ensures { IfOk result (λ _. bytes.new.items ≡ bytes.old.items ++ text.flatten (text.definition_lines (text.with_self name.now) body.now)) }
{
    push_with(bytes, alloc, name, b"(self)", body)
}

/// Adds the lines of label actions.
fn push_actions(bytes: &mut Vec<u8>, alloc: Global, actions: &[Action]) -> Result<(), NoMemory>
    ensures { IfOk result (λ _. bytes.new.items ≡ bytes.old.items ++ text.flatten (text.flat_lines (map text.action_lines (map action_pair actions.now)))) }
{
    for action in actions {
        push_with_self(bytes, alloc, &action.name, &action.body)?;
    }
    Ok(())
}

/// Adds the lines of a process.
fn push_process(bytes: &mut Vec<u8>, alloc: Global, p: &WrittenProcess) -> Result<(), NoMemory>
    ensures { IfOk result (λ _. bytes.new.items ≡ bytes.old.items ++ text.flatten (text.process_lines (process_view p.now))) }
{
    push_actions(bytes, alloc, p.actions.as_slice())?;
    let body = process_body(alloc, p)?;
    push_with_self(bytes, alloc, &p.name, &body)
}

/// Adds the lines of all processes.
fn push_processes(
    bytes: &mut Vec<u8>,
    alloc: Global,
    processes: &[WrittenProcess],
) -> Result<(), NoMemory>
    ensures { IfOk result (λ _. bytes.new.items ≡ bytes.old.items ++ text.flatten (text.flat_lines (map text.process_lines (map process_view processes.now)))) }
{
    for p in processes {
        push_process(bytes, alloc, p)?;
    }
    Ok(())
}

/// Names in `( )`.
fn enclosed(alloc: Global, names: &[Text]) -> Result<Vec<u8>, AllocError>
    ensures { IfOk result (λ v. v.items ≡ codes "(" ++ names_text names.now ++ codes ")") }
{
    let inside = listed(alloc, names)?;
    let mut bytes = Vec::from_slice(alloc, b"(")?;
    bytes.extend_from_slice(inside.as_slice())?;
    bytes.push(b')')?;
    Ok(bytes)
}

/// The parameters of a definition in `( )`, where there are some.
#[tactic(auto, using(crate::proofs::Joins::some_parameters))]
fn parameters(alloc: Global, names: &[Text]) -> Result<Vec<u8>, AllocError>
    ensures { IfOk result (λ v. v.items ≡ text.parameters_text names.now) }
{
    match names.split_first() {
        Some(_) => enclosed(alloc, names),
        None => Ok(Vec::new(alloc)),
    }
}

/// Adds the line of a constant with its value.
fn push_given(
    bytes: &mut Vec<u8>,
    alloc: Global,
    name: &Text,
    value: &Value,
) -> Result<(), NoMemory>
    ensures { IfOk result (λ _. bytes.new.items ≡ bytes.old.items ++ text.line (name.now ++ codes " == " ++ value_text (data_of value.now))) }
{
    match write_value(alloc, value) {
        Ok(written) => {
            push_line(bytes, &[name.as_bytes(), b" == ", written.as_bytes()])?;
            Ok(())
        }
        Err(_) => Err(NoMemory),
    }
}

/// Adds the lines of a definition.
fn push_defined(bytes: &mut Vec<u8>, alloc: Global, d: &Defined) -> Result<(), NoMemory>
    ensures { IfOk result (λ _. bytes.new.items ≡ bytes.old.items ++ text.flatten (text.defined_lines (defined_view d.now))) }
{
    match d {
        Defined::Given { name, value } => push_given(bytes, alloc, name, value),
        Defined::Means { name, params, body } => {
            let params = parameters(alloc, params.as_slice())?;
            push_with(bytes, alloc, name, params.as_slice(), body)
        }
    }
}

/// Adds the lines of definitions.
fn push_definitions(
    bytes: &mut Vec<u8>,
    alloc: Global,
    definitions: &[Defined],
) -> Result<(), NoMemory>
    ensures { IfOk result (λ _. bytes.new.items ≡ bytes.old.items ++ text.flatten (text.flat_lines (map text.defined_lines (map defined_view definitions.now)))) }
{
    for d in definitions {
        push_defined(bytes, alloc, d)?;
    }
    Ok(())
}

/// The declared constants and `defaultInitValue`, with commas between them.
fn constants(alloc: Global, m: &Module) -> Result<Vec<u8>, AllocError>
    ensures { IfOk result (λ v. v.items ≡ names_text (m.now.constants ++ (default_init_value ∷ []))) }
{
    let mut names = m.constants.copy(alloc)?;
    names.push(Text::from_slice(alloc, b"defaultInitValue")?)?;
    listed(alloc, names.as_slice())
}

/// Adds the lines up to the constants.
fn push_head(bytes: &mut Vec<u8>, alloc: Global, m: &Module) -> Result<(), NoMemory>
    ensures { IfOk result (λ _. bytes.new.items ≡ bytes.old.items ++ text.flatten (
        text.line (codes "---- MODULE " ++ m.now.name ++ codes " ----")
        ∷ text.line (codes "EXTENDS Integers, Sequences, FiniteSets, TLC")
        ∷ text.line (codes "CONSTANTS " ++ names_text (m.now.constants ++ (default_init_value ∷ [])))
        ∷ [])) }
{
    let constants = constants(alloc, m)?;
    push_line(bytes, &[b"---- MODULE ", m.name.as_bytes(), b" ----"])?;
    push_line(bytes, &[b"EXTENDS Integers, Sequences, FiniteSets, TLC"])?;
    push_line(bytes, &[b"CONSTANTS ", constants.as_slice()])?;
    Ok(())
}

/// Adds the lines of the variables.
fn push_variables(bytes: &mut Vec<u8>, alloc: Global, names: &[Text]) -> Result<(), NoMemory>
    ensures { IfOk result (λ _. bytes.new.items ≡ bytes.old.items ++ text.flatten (
        text.line (codes "VARIABLES " ++ names_text names.now)
        ∷ text.line (codes "vars == <<" ++ names_text names.now ++ codes ">>")
        ∷ [])) }
{
    let names = listed(alloc, names)?;
    push_line(bytes, &[b"VARIABLES ", names.as_slice()])?;
    push_line(bytes, &[b"vars == <<", names.as_slice(), b">>"])?;
    Ok(())
}

/// Adds the lines of ProcSet.
fn push_proc_set(bytes: &mut Vec<u8>, alloc: Global, m: &Module) -> Result<(), NoMemory>
    ensures { IfOk result (λ _. bytes.new.items ≡ bytes.old.items ++ text.flatten (text.definition_lines set_name (written.proc_set_of (module_view m.now)))) }
{
    let body = proc_set(alloc, m)?;
    push_definition(bytes, alloc, b"ProcSet", &body)
}

/// Adds the lines of Terminating.
fn push_terminating(bytes: &mut Vec<u8>, alloc: Global, m: &Module) -> Result<(), NoMemory>
    ensures { IfOk result (λ _. bytes.new.items ≡ bytes.old.items ++ text.flatten (text.definition_lines terminating (written.terminating_body (module_view m.now)))) }
{
    let body = terminating_body(alloc, m)?;
    push_definition(bytes, alloc, b"Terminating", &body)
}

/// Adds the lines of Next.
fn push_next(bytes: &mut Vec<u8>, alloc: Global, m: &Module) -> Result<(), NoMemory>
    ensures { IfOk result (λ _. bytes.new.items ≡ bytes.old.items ++ text.flatten (text.definition_lines (codes "Next") (written.next_body (module_view m.now)))) }
{
    let body = next_body(alloc, m)?;
    push_definition(bytes, alloc, b"Next", &body)
}

/// Adds the last lines.
fn push_end(bytes: &mut Vec<u8>) -> Result<(), NoMemory>
    ensures { IfOk result (λ _. bytes.new.items ≡ bytes.old.items ++ text.flatten (
        text.line (codes "Spec == Init /\\ [][Next]_vars")
        ∷ text.line (codes "====")
        ∷ [])) }
{
    push_line(bytes, &[b"Spec == Init /\\ [][Next]_vars"])?;
    push_line(bytes, &[b"===="])?;
    Ok(())
}

/// The canonical text of a module.
///
/// `NoMemory` comes where there is no memory.
///
/// Source: the translation of A PlusCal User's Manual for the lines, this project's choice for their layout.
pub fn write_module(alloc: Global, m: &Module) -> Result<Text, NoMemory>
    ensures { IfOk result (λ t. t ≡ text.Text (module_view m.now)) }
{
    let mut bytes = Vec::new(alloc);
    push_head(&mut bytes, alloc, m)?;
    push_definitions(&mut bytes, alloc, m.definitions.as_slice())?;
    push_variables(&mut bytes, alloc, m.variables.as_slice())?;
    push_proc_set(&mut bytes, alloc, m)?;
    push_definition(&mut bytes, alloc, b"Init", &m.init)?;
    push_processes(&mut bytes, alloc, m.processes.as_slice())?;
    push_terminating(&mut bytes, alloc, m)?;
    push_next(&mut bytes, alloc, m)?;
    push_end(&mut bytes)?;
    Ok(Text::from_bytes(bytes)?)
}
