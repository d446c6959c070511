// The names that an expression binds around a place in it.
ghost use Rattle.std.specs.Prelude.{◌≡◌, [], ◌∷◌, take};
ghost use Rattle.pgo_rewrite.specs.Scopes.{in_scope};
ghost use Rattle.pgo_model.specs.Names.{is_among};

use crate::indexed_names::IndexedNames;
use pgo_base::text::Text;
use std::marker::Model;

/// Names that are bound around an expression, as groups of names, the innermost group first.
#[cycle(scopes)]
#[derive(Drop)]
pub struct Scope<'a> {
    link: Link<'a>,
}

/// No name, or the first so many of these names within others.
#[cycle(scopes)]
#[derive(Clone, Copy)]
enum Link<'a> {
    Empty,
    Within(&'a IndexedNames, usize, &'a Scope<'a>),
}

impl<'a> Model for Scope<'a> {
    ghost use Rattle.std.specs.Prelude.{List, ℕ, length};
    ghost use Rattle.pgo_rewrite.specs.Scopes.{coded_groups};

    ghost Value = { List (List (List ℕ)) };

    ghost coded = { coded_groups };

    ghost use Rattle.pgo_rewrite.specs.ScopeView.{groups_of};

    ghost view = { λ s. groups_of s.link };

    ghost size = { length };

    ghost use Rattle.pgo_rewrite.specs.ScopesFall.{link_falls};

    ghost size_decreases = { λ a h. link_falls a.link };
}

impl<'a> Scope<'a> {
    /// No name.
    pub fn new() -> Scope<'a>
        ensures { result ≡ [] }
    {
        Scope { link: Link::Empty }
    }

    /// The names of `outer`, and within them the first `count` of these, or all where there are fewer.
    pub fn within(outer: &'a Scope<'a>, names: &'a IndexedNames, count: usize) -> Scope<'a>
        ensures { result ≡ take count names.entry.now ∷ outer.entry.now }
    {
        Scope {
            link: Link::Within(names, count, outer),
        }
    }
}

impl<'a> Scope<'a> {
    /// Whether this is one of the names. It recurses once for each group.
    pub fn has(&self, name: &Text) -> bool
        ensures { result ≡ is_among name.now (in_scope self.now) }
    {
        match &self.link {
            Link::Empty => false,
            Link::Within(names, count, outer) => {
                names.has_before(*count, name) || outer.has(name)
            }
        }
    }
}
