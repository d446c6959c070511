// What a command has to do.
ghost use Rattle.std.specs.Prelude.{ℕ, List, IfOk, IfErr, ◌≡◌};
ghost use Rattle.pgo_words.specs.View.{request_view};
ghost use Rattle.pgo_front.specs.Answers.{AsksNothing};
ghost use Rattle.pgo_words.specs.Asks.{AsksOnly};
ghost use Rattle.pgo_front.specs.Makes.{AsksFor};

use crate::mode::Mode;
use crate::target::Target;
use pgo_base::consts::Consts;
use pgo_base::word::Word;
use pgo_execute::schedule::Schedule;
use pgo_syntax::records::Settings;
use pgo_words::errors::WordStop;
use pgo_words::read::read_words;
use pgo_words::request::{Command, Request};
use std::alloc::Global;

/// What a command has to do.
#[derive(Drop)]
pub enum Task {
    /// A run of this kind, with these values of constants and these settings.
    Execute(Mode, Consts, Settings),
    /// The check of a bundle.
    Check,
    /// A bundle of version 1, brought over to version 2.
    Migrate,
    /// This translation of a specification, with these values of constants.
    Translate(Target, Consts),
    /// The load of this size.
    Load(u32),
}

/// What the words ask for.
pub fn read_task(alloc: Global, words: &[Word]) -> Result<Task, WordStop>
    ensures asks { IfOk result (AsksFor words.now) }
    ensures usage { IfErr result (λ e. e ≡ WordStop.Usage → AsksNothing words.now) }
{
    match read_words(alloc, words) {
        Ok(request) => Ok(task_of(request)),
        Err(stop) => Err(stop),
    }
}

/// What a request has a command do.
fn task_of(request: Request) -> Task
    ensures { (words : List (List ℕ)) → AsksOnly words (request_view request) → AsksFor words result }
{
    let Request {
        command,
        consts,
        settings,
    } = request;
    match command {
        Command::Step { turns } => Task::Execute(
            Mode::OneThread(Schedule::Turns(turns.into_vec())),
            consts,
            settings,
        ),
        Command::Run => Task::Execute(Mode::Threads, consts, settings),
        Command::Check => Task::Check,
        Command::Migrate => Task::Migrate,
        Command::Expand => Task::Translate(Target::Expansion, consts),
        Command::Compile => Task::Translate(Target::Module, consts),
        Command::Load { size } => Task::Load(size),
    }
}
