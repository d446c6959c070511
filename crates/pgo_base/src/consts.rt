// The values of constants.
ghost use Rattle.std.specs.Prelude.{◌≡◌, [], map};
ghost use Rattle.pgo_base.specs.View.{named_data};

use crate::text::Text;
use crate::value::Value;
use std::alloc::Global;
use std::marker::Model;

/// The value of each constant, in order.
pub struct Consts {
    list: Vec<(Text, Value)>,
}

impl Drop for Consts {
    fn drop(self) {
        let Consts { list } = self;
    }
}

impl Model for Consts {
    ghost use Rattle.std.specs.Prelude.{List, ℕ, map};
    ghost use Rattle.pgo_base.specs.Data.{Data};
    ghost use Rattle.pgo_base.specs.Code.{coded_state};

    ghost Value = { List (List ℕ × Data) };

    ghost coded = { coded_state };

    ghost use Rattle.pgo_base.specs.View.{named_data};

    ghost view = { λ c. map named_data c.list.items };
}

impl Consts {
    /// No constant.
    pub fn new(alloc: Global) -> Consts
        ensures { result ≡ [] }
    {
        Consts {
            list: Vec::new(alloc),
        }
    }

    /// These constants.
    pub fn from_vec(list: Vec<(Text, Value)>) -> Consts
        ensures { result ≡ map named_data list.items }
    {
        Consts { list }
    }

    /// Each constant with its value, in order.
    pub fn as_slice(&self) -> &[(Text, Value)]
        ensures { map named_data result.now ≡ self.now }
    {
        self.list.as_slice()
    }
}
