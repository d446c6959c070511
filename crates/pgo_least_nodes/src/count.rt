// Nodes of what some code comes to, and of what follows it.
ghost use Rattle.std.specs.Prelude.{◌≡◌};
ghost use Rattle.pgo_least_nodes.specs.Counts as spec;

/// At least so many nodes, and those of what follows once for each of so many paths that lead to it; 2^64 - 1 stands for more.
#[derive(Clone, Copy)]
pub struct Count {
    pub nodes: u64,
    pub paths: u64,
}

/// Of a statement, and of the labels' sections in it, which end with what follows the statement.
#[derive(Clone, Copy)]
pub struct Counts {
    pub own: Count,
    pub labels: Count,
}

/// Nothing, and nothing of what follows.
pub(crate) fn none() -> Count
    ensures { result ≡ spec.none }
{
    Count { nodes: 0, paths: 0 }
}

/// So many nodes, and then what follows.
pub(crate) fn step(nodes: u64) -> Count
    ensures { result ≡ spec.step nodes }
{
    Count { nodes, paths: 1 }
}

/// A jump, whatever follows.
pub(crate) fn jump() -> Count
    ensures { result ≡ spec.jump }
{
    Count { nodes: 1, paths: 0 }
}

/// The one and the other.
pub(crate) fn both(a: Count, b: Count) -> Count
    ensures { result ≡ spec.both a b }
{
    Count {
        nodes: a.nodes.saturating_add(b.nodes),
        paths: a.paths.saturating_add(b.paths),
    }
}

/// The one, and then the other.
pub(crate) fn then(a: Count, b: Count) -> Count
    ensures { result ≡ spec.then' a b }
{
    Count {
        nodes: a.nodes.saturating_add(a.paths.saturating_mul(b.nodes)),
        paths: a.paths.saturating_mul(b.paths),
    }
}

/// A statement with no label in it.
pub(crate) fn plain(own: Count) -> Counts
    ensures { result ≡ spec.plain own }
{
    Counts {
        own,
        labels: none(),
    }
}

/// A statement, with this before it.
pub(crate) fn behind(before: Count, a: Counts) -> Counts
    ensures { result ≡ spec.behind before a }
{
    Counts {
        own: then(before, a.own),
        labels: a.labels,
    }
}

/// A statement, behind which comes a jump.
pub(crate) fn ended(a: Counts) -> Counts
    ensures { result ≡ spec.ended a }
{
    Counts {
        own: then(a.own, jump()),
        labels: then(a.labels, jump()),
    }
}

/// The one statement or the other.
pub(crate) fn either_of(a: Counts, b: Counts) -> Counts
    ensures { result ≡ spec.either_of a b }
{
    Counts {
        own: both(a.own, b.own),
        labels: both(a.labels, b.labels),
    }
}

/// A statement, and then those behind it.
pub(crate) fn in_row(a: Counts, rest: Counts) -> Counts
    ensures { result ≡ spec.in_row a rest }
{
    Counts {
        own: then(a.own, rest.own),
        labels: both(then(a.labels, rest.own), rest.labels),
    }
}

/// The same where the statement has a label, so that what comes before it ends there.
pub(crate) fn labelled(a: Counts, rest: Counts) -> Counts
    ensures { result ≡ spec.labelled a rest }
{
    let row = in_row(a, rest);
    Counts {
        own: jump(),
        labels: both(row.own, row.labels),
    }
}
