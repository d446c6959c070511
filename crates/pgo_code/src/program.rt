// The sections of all instances.
ghost use Rattle.std.specs.Prelude.{◌≡◌};
ghost use Rattle.std.proofs.Props.{props};
ghost use Rattle.pgo_base.specs.Code.{coded_data};
ghost use Rattle.pgo_model.specs.Val.{Meaning};
ghost use Rattle.pgo_definitions.specs.Meant.{meant};
ghost use Rattle.pgo_code.specs.Elements.{AreAmong, are_among_prop};

use crate::elements::Elements;
use crate::instruction::Instruction;
use pgo_base::module::Defs;
use pgo_base::text::Text;
use pgo_syntax::bound::Bound;

/// The section of a label: its written name, and its instructions.
#[derive(Drop)]
pub struct Section<'a> {
    pub label: Text,
    pub instructions: Vec<Instruction<'a>>,
}

/// What a name in an archetype stands for: a variable of the instance, by its written name; or a global as a whole, where there is
/// none.
#[derive(Drop)]
pub struct Variable {
    pub name: Text,
    pub own: Option<Text>,
}

/// What an instance runs: what the names of its unmapped parameters, value parameters and locals stand for, in their order, and the
/// section of each label, in the order of the text.
#[derive(Drop)]
pub struct Code<'a> {
    pub variables: Vec<Variable>,
    pub sections: Vec<Section<'a>>,
}

/// The sections of all instances of a bound specification, by their numbers; definitions that mean the same as its own, of which some
/// are given by their values, so that these are evaluated once; and its resources that are elements, so that each is found at once.
#[derive(Drop)]
pub struct Program<'a> {
    pub bound: &'a Bound,
    pub definitions: Defs,
    pub elements: Elements,
    pub codes: Vec<Code<'a>>,
    ghost same: { meant definitions ≡ meant bound.now.defs } by { Prim.hlevel (props, coded_data) },
    ghost are_among: { AreAmong bound.now.resources elements } by { are_among_prop bound.now.resources elements },
}
