// The turns of one instance of a specification.
ghost use Rattle.std.specs.Prelude.{IfSome};
ghost use Rattle.pgo_turn_rows.specs.Runs.{Runs};

use crate::accepted::accepted;
use crate::alone::alone;
use pgo_base::consts::Consts;
use pgo_sheet::answers::unless_same;
use pgo_sheet::sheet::{Subject, halves};
use pgo_sheet::template::Template;
use pgo_syntax::bound::Bound;
use pgo_syntax::records::{Down, Settings};
use std::alloc::{AllocError, Global};

/// The text, the instance, its attempts, and what is done, one after another.
#[derive(Drop)]
pub struct Turns {
    alloc: Global,
    text: Template,
    instance: u32,
    attempts: u32,
    words: String,
}

impl Turns {
    pub fn new(alloc: Global) -> Turns {
        Turns {
            alloc,
            text: Template::new(alloc),
            instance: 0,
            attempts: 3,
            words: String::new(alloc),
        }
    }

    /// What is said of what a text is bound to.
    fn said(&self, found: &Option<Bound>) -> Result<String, AllocError>
        requires { IfSome found.now Runs }
    {
        let Some(bound) = found else {
            return String::from_str(self.alloc, "not accepted");
        };
        let settings = Settings {
            seed: 0,
            attempts: self.attempts,
            steps: 10,
            down: Down::new(self.alloc),
            park: false,
        };
        match alone(
            self.alloc,
            bound,
            self.instance,
            &settings,
            self.words.as_str(),
        )? {
            Some(said) => Ok(said),
            None => String::from_str(self.alloc, "no instance"),
        }
    }

    fn answer(&self, text: &str) -> Result<String, AllocError> {
        let consts = Consts::from_vec(Vec::new(self.alloc));
        let found = accepted(self.alloc, text.as_bytes(), &consts)?;
        self.said(&found)
    }

    fn take_numbers(&mut self, text: &str) -> bool {
        let (instance, attempts) = halves(text);
        let numbers = (instance.parse::<u32>(), attempts.parse::<u32>());
        let (Ok(instance), Ok(attempts)) = numbers else {
            return false;
        };
        self.instance = instance;
        self.attempts = attempts;
        true
    }
}

impl Subject for Turns {
    fn take(&mut self, key: &str, text: &str) -> Result<bool, AllocError> {
        match key {
            "instance" => return Ok(self.take_numbers(text)),
            "do" => self.words = String::from_str(self.alloc, text)?,
            _ => return self.text.take(key, text),
        }
        Ok(true)
    }

    fn end(&mut self, wanted: &str) -> Result<Option<String>, AllocError> {
        let text = self.text.with_places(self.text.changed()?)?;
        let answer = self.answer(text.as_str())?;
        self.text.end_row();
        Ok(unless_same(answer, wanted))
    }
}
