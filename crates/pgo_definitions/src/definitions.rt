// Definitions with others that mean the same.
ghost use Rattle.std.specs.Prelude.{◌≡◌};
ghost use Rattle.pgo_definitions.specs.Meant.{meant};

use pgo_base::module::Defs;
use std::marker::Model;

/// Definitions, and others that mean the same, in which some that have no parameters are given by their values. So these are
/// evaluated once, and not at each use. Contracts see the definitions as they are written.
#[derive(Drop)]
pub struct EvaluatedDefinitions {
    written: Defs,
    by_value: Defs,
}

impl Model for EvaluatedDefinitions {
    ghost use Rattle.std.specs.Prelude.{◌≡◌, List};
    ghost use Rattle.pgo_base.specs.declared.module.Defined.{Defined};
    ghost use Rattle.std.specs.Coded.{codes};
    ghost use Rattle.pgo_base.specs.Code.{coded_data};
    ghost use Rattle.pgo_base.specs.TreeCode.{coded_tree};

    ghost Value = { List Defined };

    ghost coded = { Prim.hlevel (codes, coded_data, coded_tree) };

    ghost view = { λ s. s.written };

    ghost use Rattle.pgo_definitions.specs.Meant.{meant};

    ghost invariant = { λ s. meant s.by_value ≡ meant s.written };
}

impl EvaluatedDefinitions {
    /// These definitions, and others that mean the same.
    pub fn new(written: Defs, by_value: Defs) -> EvaluatedDefinitions
        requires { meant by_value ≡ meant written }
        ensures { result ≡ written }
    {
        EvaluatedDefinitions { written, by_value }
    }

    /// Definitions that mean the same, of which some are given by their values.
    pub fn by_value(&self) -> &Defs
        ensures { meant result.now ≡ meant self.now }
    {
        &self.by_value
    }

    /// The definitions as they are written, without memory.
    pub fn into_written(self) -> Defs
        ensures { result ≡ self }
    {
        self.written
    }
}
