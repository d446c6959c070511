// Lowered programs do what their sections do.
#![tactic(auto)]

ghost use Rattle.std.specs.Prelude.{◌≡◌, ℕ};
ghost use Rattle.pgo_model.specs.Core.{Settings};
ghost use Rattle.pgo_syntax.specs.declared.bound.Bound.{Bound};
ghost use Rattle.pgo_bound.specs.Sound.{IsNumbered};
ghost use Rattle.pgo_meaning.specs.System.{system_of};
ghost use Rattle.pgo_workers.specs.Walk.{Own};
ghost use Rattle.pgo_accesses.specs.Programs.{tree_of};
ghost use Rattle.pgo_section.specs.Programs.{RunsSystem};
ghost use Rattle.pgo_code.specs.declared.program.Program.{Program};
ghost use Rattle.pgo_places.specs.Trees.{tree_in};
ghost use Rattle.pgo_lower.specs.Agree.{AreLowered};

/// A program of a bound specification that is lowered (`AreLowered` of pgo_lower) does what the specification's sections do.
///
/// - `trees`: what an attempt of an instance does under a seed is the tree of accesses of the section of its label, whatever the own
///   components are.
/// - `runs` (`RunsSystem` of pgo_section): so what workers ask of the trees of the sections is so of the program's.
///
/// What is asked of the bound specification is that its resources are numbered in order (`IsNumbered`, which `Sound` has), since a
/// program makes no access of a resource that there isn't.
///
/// Source: this project's choice.
pub fn programs_run()
    ensures trees { (b : Bound) (p : Program) → p.bound.now ≡ b → IsNumbered b → AreLowered b b.instances p.codes.items → (seed k a : ℕ) (own : Own) → tree_in p seed k a own ≡ tree_of b seed k a own }
    ensures runs { (b : Bound) (p : Program) (settings : Settings) → p.bound.now ≡ b → IsNumbered b → AreLowered b b.instances p.codes.items → RunsSystem (system_of b) (tree_of b) settings → RunsSystem (system_of p.bound.now) (tree_in p) settings }
{}
