// Findings: a name where a test is true, and the one that stands first in the text.
ghost use Rattle.std.specs.Prelude.{◌≡◌, option_map};
ghost use Rattle.pgo_heads.specs.Findings as findings;
ghost use Rattle.pgo_heads.specs.Views.{finding_view};

use pgo_heads::findings::Finding;
use pgo_syntax::name::PlacedName;

/// The one that stands first in the text.
pub fn earlier<'a>(a: Option<Finding<'a>>, b: Option<Finding<'a>>) -> Option<Finding<'a>>
    ensures { option_map finding_view result ≡ findings.earlier (option_map finding_view a.entry) (option_map finding_view b.entry) }
{
    match (a, b) {
        (None, _) => b,
        (Some(_), None) => a,
        (Some(x), Some(y)) => { if y.place < x.place { b } else { a } }
    }
}

/// A name, where the test is true.
pub fn where_true<'a>(test: bool, name: &'a PlacedName) -> Option<Finding<'a>>
    ensures { option_map finding_view result ≡ findings.where_true test (findings.at_place name.now) }
{
    if test {
        Some(Finding {
            place: name.place,
            name: &name.name,
        })
    } else {
        None
    }
}
