// One instance at work, on a board of its own.
ghost use Rattle.std.specs.Prelude.{◌≡◌, ◌<◌, length, [], None, IfOk};
ghost use Rattle.pgo_model.specs.Core.{Settings as SettingsView};
ghost use Rattle.pgo_bound.specs.State.{AreDifferent, variables_of};
ghost use Rattle.pgo_meaning.specs.System.{system_of};
ghost use Rattle.pgo_places.specs.Trees.{tree_in};
ghost use Rattle.pgo_resource.specs.PlainBoards.{board_layout, shows_of};
ghost use Rattle.pgo_section.specs.Programs.{RunsSystem};
ghost use Rattle.pgo_turn_rows.specs.Runs.{Runs};
ghost use Rattle.pgo_workers.specs.Worlds.{layout_of};

use crate::steps::steps_on;
use pgo_base::results::both;
use pgo_definitions::sections::evaluated_for_sections;
use pgo_lower::lower::lower;
use pgo_places::program::Runnable;
use pgo_programs::programs_run;
use pgo_resource::layout::BoardLayout;
use pgo_resource::plain_board::PlainBoard;
use pgo_starts::content::Content;
use pgo_starts::contents::contents;
use pgo_starts::own::own_at_start;
use pgo_syntax::bound::Bound;
use pgo_syntax::records::Settings;
use std::alloc::{AllocError, Global};

/// The sections of what is bound, to be run.
fn sections<'a>(alloc: Global, bound: &'a Bound) -> Result<Runnable<'a>, AllocError>
    requires { Runs bound.now }
    ensures bound { IfOk result (λ p. p.program.bound.now ≡ bound.entry.now) }
    ensures runs { IfOk result (λ p. (s : SettingsView) → RunsSystem (system_of p.program.bound.now) (tree_in p.program) s) }
{
    programs_run();
    let definitions = evaluated_for_sections(alloc, bound)?;
    let program = lower(alloc, bound, definitions)?;
    let runnable = Runnable::new(alloc, program)?;
    Ok(runnable)
}

/// A board for an instance.
fn board(
    alloc: Global,
    bound: &Bound,
    instance: u32,
    settings: &Settings,
) -> Result<PlainBoard<Content>, AllocError>
    requires runs { Runs bound.now }
    requires instance { instance < length bound.now.instances }
    ensures layout { IfOk result (λ b. board_layout b ≡ layout_of (system_of bound.now)) }
    ensures view { IfOk result (λ b. shows_of b ≡ record { instance = instance; resources = length bound.now.resources; steps = settings.now.steps; share = settings.now.attempts; held = []; entries = []; notes = []; told = None; last = None }) }
{
    let contents = contents(alloc, bound)?;
    PlainBoard::open(
        alloc,
        bound,
        instance,
        contents,
        settings.steps,
        settings.attempts,
    )
}

/// What these steps of an instance say, with the sections of what is bound.
fn steps_in(
    alloc: Global,
    bound: &Bound,
    sections: &Runnable<'_>,
    instance: u32,
    settings: &Settings,
    words: &str,
) -> Result<String, AllocError>
    requires bound { sections.now.program.bound.now ≡ bound.now }
    requires runs { Runs bound.now }
    requires workers { (s : SettingsView) → RunsSystem (system_of sections.now.program.bound.now) (tree_in sections.now.program) s }
    requires instance { instance < length bound.now.instances }
{
    let resources = bound.resources.as_slice().len() as u32;
    let layout = BoardLayout::of(alloc, bound)?;
    let own = own_at_start(alloc, &layout, instance as usize);
    let (own, board) = both(own, board(alloc, bound, instance, settings))?;
    steps_on(
        alloc, sections, own, board, instance, resources, settings, words,
    )
}

/// What these steps of an instance say.
fn at_work(
    alloc: Global,
    bound: &Bound,
    instance: u32,
    settings: &Settings,
    words: &str,
) -> Result<String, AllocError>
    requires runs { Runs bound.now }
    requires instance { instance < length bound.now.instances }
{
    let sections = sections(alloc, bound)?;
    steps_in(alloc, bound, &sections, instance, settings, words)
}

/// What these steps of an instance say, its board's journal empty before; none where no instance has the number.
pub fn alone(
    alloc: Global,
    bound: &Bound,
    instance: u32,
    settings: &Settings,
    words: &str,
) -> Result<Option<String>, AllocError>
    requires { Runs bound.now }
{
    if instance as usize >= bound.instances.as_slice().len() {
        return Ok(None);
    }
    Ok(Some(at_work(alloc, bound, instance, settings, words)?))
}
