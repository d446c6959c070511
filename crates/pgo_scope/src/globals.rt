// Rule 4: a global's name stands where it means the global and may not stand.
ghost use Rattle.std.specs.Prelude.{◌≡◌};
ghost use Rattle.pgo_scope.specs.Globals as spec;

use pgo_uses::tables::Tables;
use pgo_uses::uses::{Form, Use};

/// Whether the name means a global.
pub fn is_global(t: &Tables, u: &Use) -> bool
    ensures { result ≡ spec.is_global t.now u.now u.now.form }
{
    match &u.form {
        Form::Alone | Form::Applied(_) | Form::Assigned(_) => !u.inner && t.globals.has(&u.name),
        Form::Called(_) | Form::Bound | Form::Named | Form::Field | Form::Label | Form::Target =>
            false,
    }
}
