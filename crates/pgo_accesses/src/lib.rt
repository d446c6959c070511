// A section, and an attempt at it, as the accesses that are made, one after the other; laws of these.
#![tactic(auto)]

ghost use Rattle.std.specs.Prelude.{◌≡◌, ◌<◌, ℕ, suc, true, false, List, [], take};
ghost use Rattle.pgo_base.specs.Data.{Data};
ghost use Rattle.pgo_base.specs.Lookup.{Vars};
ghost use Rattle.pgo_model.specs.Core.{Settings, Reaches};
ghost use Rattle.pgo_model.specs.Outcome.{Kind, Next, Stuck};
ghost use Rattle.pgo_model.specs.SystemState.{IsSystemState};
ghost use Rattle.pgo_syntax.specs.declared.bound.Bound.{Bound};
ghost use Rattle.pgo_meaning.specs.System.{system_of};
ghost use Rattle.pgo_workers.specs.Sentences.{IsOwn, Runs, changes_at};
ghost use Rattle.pgo_workers.specs.Walk.{Own, Goes, Sticks, Within, visits, ending, final, taken_after};
ghost use Rattle.pgo_accesses.specs.Frame.{AgreeOn, SameEnd};
ghost use Rattle.pgo_accesses.specs.Programs.{program_of, world_at};
ghost use Rattle.pgo_accesses.specs.Runnable.{Runnable, IsRunState};

/// An attempt is the tree of its accesses: on each state of the system it does what the tree says.
///
/// - `trace`: it accesses what the tree visits on the resources' values.
/// - `stuck`: of an instance that is at a label, where the tree ends in a note, so does the attempt. At Done, and where there is no
///   such instance, an attempt has no end.
/// - `next`: where the tree goes on, the attempt leads to the state behind the entry that a worker makes of the accessed resources and
///   of the own components, and prints the same.
/// - `done`: an instance is at Done where its own components are.
/// - `within`: whatever is found, a tree accesses resources of the globals that the instance is bound to, and keeps the names of the
///   own components.
/// - `reaches`: what an instance may access are resources.
/// - `start`: the start is a good state.
/// - `runs` (`Runs` of pgo_workers): so what workers ask of a program is so of `program_of`, in the world of the specification.
///
/// What is asked of the bound specification is `Runnable`.
///
/// Source: this project's choice.
pub fn sections_are_accesses()
    ensures trace { (b : Bound) (settings : Settings) (k a : ℕ) (s : Vars) → Runnable b → IsSystemState (system_of b) s → ((program_of b settings).sect k a s).trace ≡ visits ((program_of b settings).tree k a ((world_at b).own s k)) ((world_at b).value s) }
    ensures stuck { (b : Bound) (settings : Settings) (k a : ℕ) (s : Vars) (kind : Kind) → Runnable b → IsRunState b s → k < (program_of b settings).instances → (program_of b settings).at_done k s ≡ false → ending ((program_of b settings).tree k a ((world_at b).own s k)) ((world_at b).value s) ≡ Sticks kind → ((program_of b settings).sect k a s).end ≡ Stuck kind }
    ensures next { (b : Bound) (settings : Settings) (k a : ℕ) (s : Vars) (o : Own) (ps : List Data) → Runnable b → IsSystemState (system_of b) s → ending ((program_of b settings).tree k a ((world_at b).own s k)) ((world_at b).value s) ≡ Goes o ps → ((program_of b settings).sect k a s).end ≡ Next ((world_at b).patched s ((program_of b settings).effect k ((world_at b).own s k) o (changes_at (taken_after (visits ((program_of b settings).tree k a ((world_at b).own s k)) ((world_at b).value s)) []) ((world_at b).value s) (final ((program_of b settings).tree k a ((world_at b).own s k)) ((world_at b).value s))) ps)) ps }
    ensures done { (b : Bound) (settings : Settings) (k : ℕ) (s : Vars) → Runnable b → IsSystemState (system_of b) s → (program_of b settings).at_done k s ≡ (program_of b settings).is_done k ((world_at b).own s k) }
    ensures within { (b : Bound) (settings : Settings) (k a : ℕ) (o : Own) → Runnable b → IsOwn (world_at b) k o → Within (Reaches (system_of b) k) (IsOwn (world_at b) k) ((program_of b settings).tree k a o) }
    ensures reaches { (b : Bound) (k r : ℕ) → Reaches (system_of b) k r → (world_at b).is_resource r ≡ true }
    ensures start { (b : Bound) → Runnable b → IsRunState b b.start }
    ensures runs { (b : Bound) (settings : Settings) → Runnable b → Runs (world_at b) (program_of b settings) (Reaches (system_of b)) (IsRunState b) }
{}

/// The frame law: what an attempt does hangs on the instance's own components and on what it accesses alone. Of two states of the
/// system that agree on the own components:
///
/// - `front`: where they agree on the first j accesses on the one, the first j accesses are the same on both, and so is the next
///   one, or there is none on either.
/// - `trace`: where they agree on all accesses on the one, the accesses are the same on both.
/// - `end`: and so are the kind of the end, the prints and the own components there; and the ends agree on each resource on which
///   the states agree, which each accessed one is.
///
/// Source: this project's choice.
pub fn accesses_frame()
    ensures front { (b : Bound) (settings : Settings) (k a j : ℕ) (s t : Vars) → Runnable b → IsSystemState (system_of b) s → IsSystemState (system_of b) t → (world_at b).own s k ≡ (world_at b).own t k → AgreeOn (take j ((program_of b settings).sect k a s).trace) ((world_at b).value s) ((world_at b).value t) → take (suc j) ((program_of b settings).sect k a s).trace ≡ take (suc j) ((program_of b settings).sect k a t).trace }
    ensures trace { (b : Bound) (settings : Settings) (k a : ℕ) (s t : Vars) → Runnable b → IsSystemState (system_of b) s → IsSystemState (system_of b) t → (world_at b).own s k ≡ (world_at b).own t k → AgreeOn ((program_of b settings).sect k a s).trace ((world_at b).value s) ((world_at b).value t) → ((program_of b settings).sect k a s).trace ≡ ((program_of b settings).sect k a t).trace }
    ensures end { (b : Bound) (settings : Settings) (k a : ℕ) (s t : Vars) → Runnable b → IsSystemState (system_of b) s → IsSystemState (system_of b) t → (world_at b).own s k ≡ (world_at b).own t k → AgreeOn ((program_of b settings).sect k a s).trace ((world_at b).value s) ((world_at b).value t) → SameEnd (world_at b) k s t ((program_of b settings).sect k a s).end ((program_of b settings).sect k a t).end }
{}
