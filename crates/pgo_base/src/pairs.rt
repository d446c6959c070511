// The pairs of a function, as they are lent.
ghost use Rattle.std.specs.Prelude.{◌≡◌, ◌<◌, [], ◌++◌, length, slice_index_or};
ghost use Rattle.pgo_base.specs.PairsView.{all_pairs};

use crate::value::Value;

/// The pairs of a function in the order of the keys: those of the front, which several functions may share, and those behind
/// them. Contracts see them as one list (`all_pairs`).
#[derive(Clone, Copy)]
pub struct Pairs<'a> {
    front: &'a [(Value, Value)],
    back: &'a [(Value, Value)],
}

impl<'a> Pairs<'a> {
    /// No pair.
    pub fn none() -> Pairs<'a>
        ensures { all_pairs result ≡ [] }
    {
        Pairs {
            front: &[],
            back: &[],
        }
    }

    /// Those of the front, and the others behind them.
    pub(crate) fn of(front: &'a [(Value, Value)], back: &'a [(Value, Value)]) -> Pairs<'a>
        ensures { all_pairs result ≡ front.now ++ back.now }
    {
        Pairs { front, back }
    }

    /// How many there are.
    pub fn len(self) -> usize
        ensures { result ≡ length (all_pairs self.entry) }
    {
        self.front.len() + self.back.len()
    }

    /// The one at this place, from 0.
    pub fn at(self, place: usize) -> &'a (Value, Value)
        requires { place < length (all_pairs self) }
        ensures { result.now ≡ slice_index_or (all_pairs self.entry) place result.now }
    {
        if place < self.front.len() {
            &self.front[place]
        } else {
            &self.back[place - self.front.len()]
        }
    }
}
