// Which variables an entry leaves as they are.
ghost use Rattle.std.specs.Prelude.{◌≡◌, map};
ghost use Rattle.pgo_base.specs.NameMaps.{found};
ghost use Rattle.pgo_model.specs.LogView.{change_view};
ghost use Rattle.pgo_check.specs.Elsewhere.{noted, noted_all};

use pgo_base::log::Change;
use pgo_base::name_map::NameMap;
use pgo_base::text::Text;

/// Notes whether a variable is kept, at its place.
fn note(places: &NameMap<usize>, name: &Text, is_kept: bool, kept: &mut [bool])
    ensures { kept.new ≡ noted is_kept (found places.now name.now) kept.old }
{
    let Some(place) = places.get(name).copied() else {
        return;
    };
    if place < kept.len() {
        kept[place] = is_kept;
    }
}

/// Notes of each variable that these changes touch whether it is kept.
pub(crate) fn note_all(
    places: &NameMap<usize>,
    changes: &[Change],
    is_kept: bool,
    kept: &mut [bool],
)
    ensures { kept.new ≡ noted_all is_kept places.now (map change_view changes.now) kept.old }
{
    for c in changes {
        note(places, &c.component.variable, is_kept, kept);
    }
}
