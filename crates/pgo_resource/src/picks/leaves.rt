// What an attempt does with its words of choice.
ghost use Rattle.std.specs.Prelude.{◌≡◌, ◌<◌, ◌∷◌, [], length, IfOk, OnErr, Some, None, true, false, if◌then◌else◌};
ghost use Rattle.pgo_model.specs.Choice as choice;
ghost use Rattle.pgo_model.specs.Choice.{pick, word_at};
ghost use Rattle.pgo_tries.specs.Chosen.{turned};
ghost use Rattle.pgo_resource.specs.Picked.{attempt_words, path_of, words_of, points_of, choices_of};

use crate::picks::Picks;
use crate::points::{Point, Source, last_turn, word_of, write_path};
use std::alloc::{AllocError, Global};

impl Picks {
    /// These words, and 0 behind them. No choice is made. It takes no memory.
    pub fn of_words(alloc: Global, words: Vec<u32>) -> Picks
        ensures first { attempt_words result ≡ word_at words.items }
        ensures words { words_of result ≡ attempt_words result }
        ensures points { points_of result ≡ [] }
    {
        Picks {
            source: Source::Listed(words),
            path: Vec::new(alloc),
            points: Vec::new(alloc),
        }
    }

    /// The words of an attempt of an instance under a seed: those of PCG-XSH-RR 64/32, started at the seed plus the
    /// attempt, modulo 2^64, on the instance's stream. No choice is made. It takes no memory.
    ///
    /// Source: this project's choice, over PCG (O'Neill).
    pub fn of_seed(alloc: Global, seed: u64, instance: u32, attempt: u32) -> Picks
        ensures first { attempt_words result ≡ choice.words_of (choice.Seeded seed instance attempt) }
        ensures words { words_of result ≡ attempt_words result }
        ensures points { points_of result ≡ [] }
    {
        Picks {
            source: Source::Seeded {
                seed,
                instance,
                attempt,
            },
            path: Vec::new(alloc),
            points: Vec::new(alloc),
        }
    }

    /// The word that the next choice uses.
    fn word(&self) -> usize
        ensures { result ≡ words_of self.now (length (choices_of self.now)) }
    {
        let at = self.points.len();
        if at < self.path.len() {
            self.path[at]
        } else {
            word_of(&self.source, at as u64) as usize
        }
    }

    /// The number below n that the next word picks. The choice is kept.
    ///
    /// Err only where there is no memory; then nothing has changed.
    pub fn next_below(&mut self, n: usize) -> Result<usize, AllocError>
        requires { 0 < n }
        ensures picked { IfOk result (λ i. i ≡ pick (words_of self.old (length (choices_of self.old))) n) }
        ensures made { IfOk result (λ i. choices_of self.new ≡ record { count = n; taken = i } ∷ choices_of self.old) }
        ensures kept { OnErr result (choices_of self.new ≡ choices_of self.old) }
        ensures words { words_of self.new ≡ words_of self.old }
        ensures first { attempt_words self.new ≡ attempt_words self.old }
    {
        let taken = self.word() % n;
        self.path.reserve(self.points.len() + 1)?;
        self.points.push(Point { count: n, taken })?;
        Ok(taken)
    }

    /// The same where the number has 32 bits.
    pub fn next(&mut self, n: u32) -> Result<u32, AllocError>
        requires { 0 < n }
        ensures picked { IfOk result (λ i. i ≡ pick (words_of self.old (length (choices_of self.old))) n) }
        ensures made { IfOk result (λ i. choices_of self.new ≡ record { count = n; taken = i } ∷ choices_of self.old) }
        ensures kept { OnErr result (choices_of self.new ≡ choices_of self.old) }
        ensures words { words_of self.new ≡ words_of self.old }
        ensures first { attempt_words self.new ≡ attempt_words self.old }
    {
        let taken = self.next_below(n as usize)?;
        Ok(taken as u32)
    }

    /// Turns to the next leaf: at the last choice at which, under the same earlier picks, some pick wasn't made, the next one
    /// is, and behind it the attempt's words pick. Answers false, and nothing has changed, exactly where there is no such
    /// choice. It takes no memory.
    ///
    /// Source: this project's choice.
    pub fn next_leaf(&mut self) -> bool
        ensures turns { (if result then Some (path_of self.new) else None) ≡ turned (attempt_words self.old) 0 (points_of self.old) }
        ensures begins { result ≡ true → points_of self.new ≡ [] }
        ensures same { result ≡ false → self.new ≡ self.old }
        ensures first { attempt_words self.new ≡ attempt_words self.old }
    {
        match last_turn(&self.source, &self.points) {
            None => false,
            Some(turn) => {
                write_path(&mut self.path, &self.points, turn);
                self.points.clear();
                true
            }
        }
    }
}
