// Reads and writes of a content, by a mapping macro.
use crate::mapping::mapping;
use crate::numbers::{copied, numbers};
use crate::values::{text_of, value};
use pgo_base::module::{Defined, Defs};
use pgo_base::text::Text;
use pgo_base::value::Value;
use pgo_cells::cell::Cell;
use pgo_mailbox::channel::{BoxKind, recognise};
use pgo_mailbox::mailbox::{Mailbox, NotABox};
use pgo_resource::picks::Picks;
use pgo_resource::resource::{MacroEnv, OpStop, Resource};
use pgo_sheet::answers::{push_word, unless_same};
use pgo_sheet::sheet::{Subject, halves};
use pgo_syntax::bound::Mapping;
use pgo_syntax::records::Down;
use std::alloc::{AllocError, Global};

/// The macro, another one, the constants that both see, the content and what it lies in, the index of the part that a macro works on,
/// the words of choice, and what is done, one after another.
#[derive(Drop)]
pub struct Operations {
    alloc: Global,
    mapping: Mapping,
    other: Mapping,
    defs: Defs,
    content: Value,
    in_mailbox: bool,
    at: Option<Value>,
    words: Vec<u32>,
    steps: String,
}

/// What is said in place of a value.
fn stopped(stop: OpStop) -> Result<&'static str, AllocError> {
    match stop {
        OpStop::Blocked => Ok("blocked"),
        OpStop::NoValue => Ok("no value"),
        OpStop::AssertFails => Ok("assert"),
        OpStop::NoMemory => Err(AllocError),
    }
}

impl Operations {
    pub fn new(alloc: Global) -> Operations {
        Operations {
            alloc,
            mapping: Mapping::Identity,
            other: Mapping::Identity,
            defs: Defs::new(alloc),
            content: Value::Bool(false),
            in_mailbox: false,
            at: None,
            words: Vec::new(alloc),
            steps: String::new(alloc),
        }
    }

    fn read<R: Resource>(
        &self,
        m: &Mapping,
        content: &mut R,
        picks: &mut Picks,
    ) -> Result<String, AllocError> {
        let id: Value = Value::Int(1);
        let env = MacroEnv {
            defs: &self.defs,
            id: &id,
        };
        match content.read(self.alloc, m, env, self.at.as_ref(), picks) {
            Ok(v) => text_of(self.alloc, &v),
            Err(stop) => String::from_str(self.alloc, stopped(stop)?),
        }
    }

    fn write<R: Resource>(
        &self,
        m: &Mapping,
        content: &mut R,
        v: Value,
        picks: &mut Picks,
    ) -> Result<String, AllocError> {
        let id: Value = Value::Int(1);
        let env = MacroEnv {
            defs: &self.defs,
            id: &id,
        };
        match content.write(self.alloc, m, env, self.at.as_ref(), v, picks) {
            Ok(()) => String::from_str(self.alloc, "written"),
            Err(stop) => String::from_str(self.alloc, stopped(stop)?),
        }
    }

    /// Writes the value of this text.
    fn write_text<R: Resource>(
        &self,
        m: &Mapping,
        content: &mut R,
        text: &str,
        picks: &mut Picks,
    ) -> Result<String, AllocError> {
        match value(self.alloc, text)? {
            Some(v) => self.write(m, content, v, picks),
            None => String::from_str(self.alloc, "no value text"),
        }
    }

    fn pre_commit<R: Resource>(&self, content: &mut R) -> Result<String, AllocError> {
        let down = Down::new(self.alloc);
        let said = match content.pre_commit(&down) {
            Ok(()) => "up",
            Err(_) => "down",
        };
        String::from_str(self.alloc, said)
    }

    /// What one step says.
    fn step<R: Resource>(
        &self,
        step: &str,
        content: &mut R,
        picks: &mut Picks,
    ) -> Result<String, AllocError> {
        let (word, rest) = halves(step);
        match word {
            "read" => self.read(&self.mapping, content, picks),
            "read-other" => self.read(&self.other, content, picks),
            "write" => self.write_text(&self.mapping, content, rest, picks),
            "write-other" => self.write_text(&self.other, content, rest, picks),
            _ => self.other_step(word, content),
        }
    }

    /// What a step says that is no read or write.
    fn other_step<R: Resource>(&self, word: &str, content: &mut R) -> Result<String, AllocError> {
        match word {
            "pre-commit" => self.pre_commit(content),
            "commit" => {
                content.commit();
                String::from_str(self.alloc, "committed")
            }
            "abort" => {
                content.abort();
                String::from_str(self.alloc, "aborted")
            }
            "changed" => format!(in self.alloc; "{}", content.is_changed()),
            "value" => text_of(self.alloc, &content.value(self.alloc)?),
            _ => String::from_str(self.alloc, "no step"),
        }
    }

    /// What each step on a content says, and what the content is then.
    fn told<R: Resource>(&self, content: R) -> Result<String, AllocError> {
        let mut content = content;
        let mut picks = Picks::of_words(self.alloc, copied(self.alloc, &self.words)?);
        let mut answer = String::new(self.alloc);
        for step in self.steps.as_str().split("; ") {
            let said = self.step(step, &mut content, &mut picks)?;
            push_word(&mut answer, "; ", said.as_str())?;
        }
        let left = text_of(self.alloc, &content.value(self.alloc)?)?;
        push_word(&mut answer, "; ", left.as_str())?;
        Ok(answer)
    }

    /// The same on a mailbox of this kind.
    fn told_boxed(&self, kind: BoxKind) -> Result<String, AllocError> {
        match Mailbox::new(self.alloc, self.content.copy(self.alloc)?, kind) {
            Ok(mailbox) => self.told(mailbox),
            Err(NotABox::Value(v)) => {
                let v = text_of(self.alloc, &v)?;
                format!(in self.alloc; "no box: {v}")
            }
            Err(NotABox::NoMemory) => Err(AllocError),
        }
    }

    /// What the row gives, on a cell or on a mailbox.
    fn answer(&self) -> Result<String, AllocError> {
        if !self.in_mailbox {
            return self.told(Cell::new(self.content.copy(self.alloc)?));
        }
        let kind = match &self.mapping {
            Mapping::Identity => None,
            Mapping::Macro(m) => recognise(self.alloc, m)?,
        };
        match kind {
            Some(kind) => self.told_boxed(kind),
            None => String::from_str(self.alloc, "no channel"),
        }
    }

    /// A constant with its value.
    fn take_constant(&mut self, text: &str) -> Result<bool, AllocError> {
        let (name, text) = halves(text);
        let Some(value) = value(self.alloc, text)? else {
            return Ok(false);
        };
        let name = Text::from_slice(self.alloc, name.as_bytes())?;
        self.defs.push(Defined::Given { name, value })?;
        Ok(true)
    }

    fn take_other(&mut self, text: &str) -> Result<bool, AllocError> {
        match mapping(self.alloc, text)? {
            Some(m) => self.other = m,
            None => return Ok(false),
        }
        Ok(true)
    }

    fn take_mapping(&mut self, text: &str) -> Result<bool, AllocError> {
        match mapping(self.alloc, text)? {
            Some(m) => self.mapping = m,
            None => return Ok(false),
        }
        Ok(true)
    }

    fn take_words(&mut self, text: &str) -> Result<bool, AllocError> {
        match numbers(self.alloc, text)? {
            Some(words) => self.words = words,
            None => return Ok(false),
        }
        Ok(true)
    }

    fn take_content(&mut self, text: &str) -> Result<bool, AllocError> {
        match value(self.alloc, text)? {
            Some(v) => self.content = v,
            None => return Ok(false),
        }
        Ok(true)
    }
}

impl Subject for Operations {
    fn take(&mut self, key: &str, text: &str) -> Result<bool, AllocError> {
        match key {
            "macro" => return self.take_mapping(text),
            "other" => return self.take_other(text),
            "constant" => return self.take_constant(text),
            "on" => self.in_mailbox = text == "mailbox",
            "content" => return self.take_content(text),
            "words" => return self.take_words(text),
            "at" => self.at = value(self.alloc, text)?,
            "whole" => self.at = None,
            "do" => self.steps = String::from_str(self.alloc, text)?,
            _ => return Ok(false),
        }
        Ok(true)
    }

    fn end(&mut self, wanted: &str) -> Result<Option<String>, AllocError> {
        Ok(unless_same(self.answer()?, wanted))
    }
}
