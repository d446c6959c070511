// What the words of a command ask for.
ghost use Rattle.std.specs.Prelude.{◌≡◌, ℕ, List};

use pgo_base::consts::Consts;
use pgo_syntax::records::Settings;
use std::marker::Model;

/// The turns of a list, in order: the number of an instance each.
#[derive(Drop)]
pub struct Turns {
    list: Vec<u32>,
}

impl Model for Turns {
    ghost use Rattle.std.specs.Prelude.{List, ℕ};

    ghost Value = { List ℕ };

    ghost view = { λ t. t.list.items };
}

impl Turns {
    /// These turns.
    pub fn from_vec(list: Vec<u32>) -> Turns
        ensures { result ≡ list.items }
    {
        Turns { list }
    }

    /// The numbers, without memory.
    pub fn into_vec(self) -> Vec<u32>
        ensures { result.items ≡ self }
    {
        self.list
    }
}

/// A command. This project's choice.
#[derive(Drop)]
pub enum Command {
    /// `compile`: the module of a specification, in TLA+.
    Compile,
    /// `expand`: the expansion of a specification, in PlusCal.
    Expand,
    /// `step`: a run of a specification under a list of turns, at most 1,000,000.
    Step { turns: Turns },
    /// `run`: a run of a specification that goes on until each instance has ended.
    Run,
    /// `check`: whether the log of a bundle is a run of its module.
    Check,
    /// `migrate`: a bundle of version 1, brought over to version 2.
    Migrate,
    /// `load`: the run of a specification made from a number, from 1 to 32, and its check.
    Load { size: u32 },
}

/// A command, the values of constants, and the settings of a run. This project's choice.
#[derive(Drop)]
pub struct Request {
    pub command: Command,
    pub consts: Consts,
    pub settings: Settings,
}
