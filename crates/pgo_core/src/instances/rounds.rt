// Rounds, until all instances have ended.
ghost use Rattle.std.specs.Prelude.{◌≡◌, ◌≤◌, ◌<◌, ◌+◌, ℕ, List, vec_len, IfOk, OnOk};
ghost use Rattle.pgo_core.specs.Cores.{AllEnded, HadEnded};

use super::{Core, counted, has_turned};
use pgo_resource::resource::Resource;
use pgo_resource::sections::Sections;
use std::alloc::{AllocError, Global};

impl<S: Sections + Drop, R: Resource> Core<S, R> {
    ghost use Rattle.pgo_core.specs.Instances.{Safe, IsSame, StandsAt, MadeFrom, MadeRound, ComesToEnd, workers_in, turns_left};

    /// One turn of instance k: how many turns were made, none where it had ended.
    fn turn_if(&mut self, alloc: Global, k: usize) -> Result<usize, AllocError>
        requires there { k < vec_len self.old.workers }
        requires safe { Safe self.old }
        ensures safe { Safe self.new }
        ensures same { IsSame self.old self.new }
        ensures one { IfOk result (λ n. n ≤ 1) }
        ensures stands { IfOk result (λ n. (before : List ℕ) → StandsAt before self.old → MadeFrom before k 1 n self.new) }
        ensures ended { IfOk result (λ n. n ≡ 0 → HadEnded k (workers_in self.old) (workers_in self.new)) }
        ensures left { OnOk result (turns_left self.new < turns_left self.old) }
    {
        let turn = self.turn(alloc, k as u32);
        if has_turned(turn) {
            Ok(counted(turn))
        } else {
            Err(AllocError)
        }
    }

    /// One turn to each instance that hasn't ended, in order: how many turns were made.
    fn round(&mut self, alloc: Global) -> Result<usize, AllocError>
        requires safe { Safe self.old }
        ensures safe { Safe self.new }
        ensures same { IsSame self.old self.new }
        ensures stands { IfOk result (λ n. (before : List ℕ) → StandsAt before self.old → MadeRound before n self.new) }
        ensures ended { IfOk result (λ n. n ≡ 0 → AllEnded (workers_in self.new)) }
        ensures left { IfOk result (λ n. turns_left self.new + n ≤ turns_left self.old) }
    {
        let mut made = 0;
        for k in 0..self.workers.len() {
            made += self.turn_if(alloc, k)?;
        }
        Ok(made)
    }

    /// Rounds, in each of which every instance that hasn't ended makes one turn, in order, until all have ended. It stops
    /// where memory is wanting.
    pub fn rounds(&mut self, alloc: Global) -> Result<(), AllocError>
        requires safe { Safe self.old }
        ensures safe { Safe self.new }
        ensures same { IsSame self.old self.new }
        ensures stands { IfOk result (λ _. (before : List ℕ) → StandsAt before self.old → ComesToEnd before self.new) }
    {
        loop {
            if self.round(alloc)? == 0 {
                return Ok(());
            }
        }
    }
}
