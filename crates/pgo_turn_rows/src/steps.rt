// What the steps of a worker say, over any sections.
ghost use Rattle.std.specs.Prelude.{◌≡◌, ◌<◌, length};
ghost use Rattle.pgo_model.specs.Core.{Settings as SettingsView};
ghost use Rattle.pgo_resource.specs.PlainBoards.{board_layout, shows_of};
ghost use Rattle.pgo_section.specs.Programs.{RunsSystem};
ghost use Rattle.pgo_section.specs.Turns.{IsFresh, Met};
ghost use Rattle.pgo_syntax.specs.RecordView.{settings_view};
ghost use Rattle.pgo_workers.specs.Worlds.{layout_of, own_in};

use crate::told::told;
use pgo_base::scope::State;
use pgo_resource::plain_board::PlainBoard;
use pgo_resource::resource::Resource;
use pgo_resource::sections::Sections;
use pgo_section::worker::Worker;
use pgo_sheet::answers::push_word;
use pgo_syntax::records::Settings;
use std::alloc::{AllocError, Global};

/// What one step says: a turn, a stop, or how many entries or records there are.
fn step<S: Sections, R: Resource>(
    alloc: Global,
    sections: &S,
    board: &mut PlainBoard<R>,
    worker: &mut Worker<S::Place>,
    word: &str,
) -> Result<String, AllocError>
    requires layout { board_layout board.old ≡ layout_of (S.system sections.now) }
    requires runs { (s : SettingsView) → RunsSystem (S.system sections.now) (S.tree sections.now) s }
    requires met { Met (S.system sections.now) (S.tree sections.now) (S.walk sections.now) worker.old (shows_of board.old) }
    ensures layout { board_layout board.new ≡ layout_of (S.system sections.now) }
    ensures met { Met (S.system sections.now) (S.tree sections.now) (S.walk sections.now) worker.new (shows_of board.new) }
{
    if word == "turn" {
        return told(alloc, worker.turn(alloc, sections, board));
    }
    if word == "stop" {
        worker.stop(sections, board);
    }
    let (entries, records) = (board.entries().len(), worker.records().len());
    format!(in alloc; "{entries} entries, {records} records")
}

/// What all steps say.
fn steps<S: Sections, R: Resource>(
    alloc: Global,
    sections: &S,
    board: &mut PlainBoard<R>,
    worker: &mut Worker<S::Place>,
    words: &str,
) -> Result<String, AllocError>
    requires layout { board_layout board.old ≡ layout_of (S.system sections.now) }
    requires runs { (s : SettingsView) → RunsSystem (S.system sections.now) (S.tree sections.now) s }
    requires met { Met (S.system sections.now) (S.tree sections.now) (S.walk sections.now) worker.old (shows_of board.old) }
{
    let mut answer = String::new(alloc);
    for word in words.split("; ") {
        let said = step(alloc, sections, board, worker, word)?;
        push_word(&mut answer, "; ", said.as_str())?;
    }
    Ok(answer)
}

/// What these steps of an instance say, on a board that was just opened.
pub fn steps_on<S: Sections, R: Resource>(
    alloc: Global,
    sections: &S,
    own: State,
    board: PlainBoard<R>,
    instance: u32,
    resources: u32,
    settings: &Settings,
    words: &str,
) -> Result<String, AllocError>
    requires instance { instance < length (S.system sections.now).members }
    requires own { own ≡ own_in (layout_of (S.system sections.now)) (S.system sections.now).start instance }
    requires resources { resources ≡ length (S.system sections.now).resources }
    requires layout { board_layout board ≡ layout_of (S.system sections.now) }
    requires runs { (s : SettingsView) → RunsSystem (S.system sections.now) (S.tree sections.now) s }
    requires fresh { IsFresh (S.system sections.now) (settings_view settings.now) instance (shows_of board) }
{
    let mut board = board;
    let mut worker = Worker::open(alloc, sections, own, resources, instance, settings)?;
    steps(alloc, sections, &mut board, &mut worker, words)
}
