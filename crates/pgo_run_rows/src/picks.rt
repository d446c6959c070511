// Words of choice: which numbers they pick, in one leaf after another.
use crate::numbers::{copied, numbers};
use pgo_resource::picks::Picks;
use pgo_sheet::answers::{push_word, unless_same};
use pgo_sheet::sheet::Subject;
use std::alloc::{AllocError, Global};

/// The words, or the seed, the instance and the attempt that give them; among how many numbers each word picks; and how many leaves
/// are wanted at most.
#[derive(Drop)]
pub struct Picked {
    alloc: Global,
    words: Vec<u32>,
    seed: Option<(u64, u32, u32)>,
    among: Vec<u32>,
    leaves: u32,
}

/// A seed, an instance and an attempt.
fn seeded(text: &str) -> Option<(u64, u32, u32)> {
    let (seed, rest) = text.split_once(' ')?;
    let (instance, attempt) = rest.split_once(' ')?;
    Some((
        seed.parse().ok()?,
        instance.parse().ok()?,
        attempt.parse().ok()?,
    ))
}

impl Picked {
    pub fn new(alloc: Global) -> Picked {
        Picked {
            alloc,
            words: Vec::new(alloc),
            seed: None,
            among: Vec::new(alloc),
            leaves: 1,
        }
    }

    fn picks(&self) -> Result<Picks, AllocError> {
        match self.seed {
            Some((seed, instance, attempt)) => Ok(Picks::of_seed(
                self.alloc, seed, instance, attempt,
            )),
            None => Ok(Picks::of_words(self.alloc, copied(self.alloc, &self.words)?)),
        }
    }

    /// The numbers that are picked in this leaf.
    fn leaf(&self, picks: &mut Picks) -> Result<String, AllocError> {
        let mut answer = String::new(self.alloc);
        for n in &self.among {
            if *n > 0 {
                let picked = picks.next(*n)?;
                let picked = format!(in self.alloc; "{picked}")?;
                push_word(&mut answer, " ", picked.as_str())?;
            }
        }
        Ok(answer)
    }

    /// The leaves, and whether there are no more.
    fn answer(&self) -> Result<String, AllocError> {
        let mut picks = self.picks()?;
        let mut answer = self.leaf(&mut picks)?;
        for _ in 1..self.leaves {
            if !picks.next_leaf() {
                push_word(&mut answer, "; ", "no more")?;
                return Ok(answer);
            }
            push_word(&mut answer, "; ", self.leaf(&mut picks)?.as_str())?;
        }
        Ok(answer)
    }

    fn take_words(&mut self, text: &str) -> Result<bool, AllocError> {
        let Some(words) = numbers(self.alloc, text)? else {
            return Ok(false);
        };
        self.words = words;
        self.seed = None;
        Ok(true)
    }

    fn take_among(&mut self, text: &str) -> Result<bool, AllocError> {
        let Some(among) = numbers(self.alloc, text)? else {
            return Ok(false);
        };
        self.among = among;
        Ok(true)
    }
}

impl Subject for Picked {
    fn take(&mut self, key: &str, text: &str) -> Result<bool, AllocError> {
        match key {
            "words" => self.take_words(text),
            "among" => self.take_among(text),
            "seed" => {
                self.seed = seeded(text);
                Ok(self.seed.is_some())
            }
            "leaves" => {
                let leaves: Option<u32> = text.parse().ok();
                self.leaves = leaves.unwrap_or(1);
                Ok(leaves.is_some())
            }
            _ => Ok(false),
        }
    }

    fn end(&mut self, wanted: &str) -> Result<Option<String>, AllocError> {
        Ok(unless_same(self.answer()?, wanted))
    }
}
