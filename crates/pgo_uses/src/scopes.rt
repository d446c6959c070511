// The names in scope.
ghost use Rattle.std.specs.Prelude.{◌≡◌, []};
ghost use Rattle.pgo_model.specs.Names.{is_among};
ghost use Rattle.pgo_uses.specs.Pieces.{within};
ghost use Rattle.pgo_uses.specs.Scopes.{in_scope, row_names};

use crate::names::Names;
use pgo_base::text::Text;
use std::marker::Model;

/// The names in scope. A name is found without going over those that were bound together.
#[cycle(scopes)]
#[derive(Drop)]
pub struct Scope<'a> {
    link: Link<'a>,
}

/// No name, these names, or the first so many of these names within others.
#[cycle(scopes)]
#[derive(Clone, Copy)]
enum Link<'a> {
    Empty,
    All(&'a Names),
    Within(&'a Names, usize, &'a Scope<'a>),
}

impl<'a> Model for Scope<'a> {
    ghost use Rattle.std.specs.Prelude.{List, ℕ, length};
    ghost use Rattle.pgo_uses.specs.Scopes.{coded_groups};

    ghost Value = { List (List (List ℕ)) };

    ghost coded = { coded_groups };

    ghost use Rattle.pgo_uses.specs.ScopeView.{groups_of};

    ghost view = { λ s. groups_of s.link };

    ghost size = { length };

    ghost use Rattle.pgo_uses.specs.ScopesFall.{link_falls};

    ghost size_decreases = { λ a h. link_falls a.link };
}

impl<'a> Scope<'a> {
    /// No name.
    pub fn new() -> Scope<'a>
        ensures { result ≡ [] }
    {
        Scope { link: Link::Empty }
    }

    /// These names.
    pub fn of(names: &'a Names) -> Scope<'a>
        ensures { in_scope result ≡ row_names names.entry.now }
    {
        Scope {
            link: Link::All(names),
        }
    }

    /// The names of `outer`, and the first so many of these.
    pub fn within(outer: &'a Scope<'a>, names: &'a Names, count: usize) -> Scope<'a>
        ensures { in_scope result ≡ within (in_scope outer.entry.now) (row_names names.entry.now) count }
    {
        if count == 0 {
            return Scope { link: outer.link };
        }
        Scope {
            link: Link::Within(names, count, outer),
        }
    }
}

impl<'a> Scope<'a> {
    /// Whether this is one of the names.
    pub fn has(&self, name: &Text) -> bool
        ensures { result ≡ is_among name.now (in_scope self.now) }
    {
        match &self.link {
            Link::Empty => false,
            Link::All(names) => names.has(name),
            Link::Within(names, count, outer) => names.is_earlier(*count, name) || outer.has(name),
        }
    }
}
