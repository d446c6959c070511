// Notes by how many entries stand before them.
ghost use Rattle.std.specs.Prelude.{◌≡◌, map, suc, IfOk};
ghost use Rattle.pgo_syntax.specs.RecordView.{note_view};
ghost use Rattle.pgo_bundle.specs.Noted.{place_of};
ghost use Rattle.pgo_bundle.specs.PositionView.{place_view, places_view};
ghost use Rattle.pgo_bundle.specs.Positions as spec;
ghost use Rattle.pgo_bundle.specs.View.{logged_note_view};

use crate::log::{LoggedNote, LoggedNotes};
use pgo_syntax::records::Note;
use std::alloc::{AllocError, Global};

/// So many empty lists.
fn empty_places(alloc: Global, count: usize) -> Result<Vec<LoggedNotes>, AllocError>
    ensures { IfOk result (λ v. places_view v ≡ spec.empty_places count) }
{
    let mut places = Vec::new(alloc);
    for _turn in 0..count {
        places.push(LoggedNotes::new(alloc))?;
    }
    Ok(places)
}

/// One note more at its place, if it is there.
fn place(places: &mut Vec<LoggedNotes>, note: Note) -> Result<(), AllocError>
    ensures { IfOk result (λ _. places_view places.new ≡ spec.place (note_view note) (places_view places.old)) }
{
    let p = note.position as usize;
    if p < places.len() {
        places[p].push(LoggedNote {
            instance: note.instance,
            attempt: note.attempt,
            kind: note.kind,
        })?;
    }
    Ok(())
}

/// The list at this place; an empty one where there is none.
pub fn place_at<'a>(places: &'a [LoggedNotes], place: usize) -> &'a [LoggedNote]
    ensures { map logged_note_view result.now ≡ place_of place (map place_view places.now) }
{
    match places.get(place) {
        Some(notes) => notes.as_slice(),
        None => &[],
    }
}

/// The notes with no entry before them, those with one, and so on, up to so many entries; each list in the order of the notes.
#[tactic(auto, unfolding(crate::specs::Positions::place_all))]
pub fn by_position(
    alloc: Global,
    notes: &[Note],
    entries: u32,
) -> Result<Vec<LoggedNotes>, AllocError>
    ensures { IfOk result (λ v. places_view v ≡ spec.by_position 0 (suc entries) (map note_view notes.now)) }
{
    let mut places = empty_places(alloc, entries as usize + 1)?;
    for n in notes {
        place(&mut places, *n)?;
    }
    Ok(places)
}
