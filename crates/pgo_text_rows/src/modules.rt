// Texts of modules, read or refused.
//
// A text that is read is answered with the module's name, how many constants and definitions it has, its variables, the
// operators of its first state, and its processes with their actions; with `the same`, where the module is written as the text that stands
// before it.
use crate::answer::Answer;
use crate::operators::operators;
use crate::texts::Asked;
use pgo_base::module::{Module, WrittenProcess};
use pgo_base::slices::first;
use pgo_base::text::Text;
use pgo_lexer::bytes::skip;
use pgo_module_read::read::read_module;
use pgo_module_write::write::write_module;
use std::alloc::{AllocError, Global};

pub fn answer(asked: &Asked<'_>) -> Result<Answer, AllocError> {
    let alloc = asked.alloc;
    match read_module(alloc, skip(asked.text, asked.start)) {
        Ok(m) => Ok(Answer::Read(described(asked, &m)?)),
        Err(stop) => Answer::refused(alloc, stop, 0),
    }
}

/// `the same`, where the module is written as what stands before the text, else what it declares.
fn described(asked: &Asked<'_>, m: &Module) -> Result<String, AllocError> {
    match write_module(asked.alloc, m) {
        Ok(text) if text.as_bytes() == first(asked.text, asked.start) => {
            String::from_str(asked.alloc, "the same")
        }
        Ok(_) => contents(asked.alloc, m),
        Err(_) => Err(AllocError),
    }
}

/// What a module declares.
fn contents(alloc: Global, m: &Module) -> Result<String, AllocError> {
    let constants = m.constants.as_slice().len();
    let definitions = m.definitions.as_slice().len();
    let mut words = String::new(alloc);
    push_name(alloc, &mut words, "", &m.name)?;
    write!(words, ", {constants} constants, {definitions} definitions")?;
    for variable in m.variables.as_slice() {
        push_name(alloc, &mut words, ", variable ", variable)?;
    }
    let init = operators(alloc, m.init.get())?;
    write!(words, ", init {init}")?;
    for process in m.processes.as_slice() {
        push_process(alloc, &mut words, process)?;
    }
    Ok(words)
}

/// A process and its actions.
fn push_process(
    alloc: Global,
    words: &mut String,
    process: &WrittenProcess,
) -> Result<(), AllocError> {
    push_name(alloc, words, ", process ", &process.name)?;
    for action in process.actions.as_slice() {
        push_name(alloc, words, " with action ", &action.name)?;
    }
    Ok(())
}

/// Adds a name, with a text before it.
fn push_name(
    alloc: Global,
    words: &mut String,
    before: &str,
    name: &Text,
) -> Result<(), AllocError> {
    let name = String::from_utf8_lossy(alloc, name.as_bytes())?;
    write!(words, "{before}{name}")
}
