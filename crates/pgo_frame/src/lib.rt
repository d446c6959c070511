// What a section does hangs on its own components and on what it accesses alone: laws of this.
#![tactic(auto)]

ghost use Rattle.std.specs.Prelude.{◌≡◌, ℕ, suc, false, List, [], ◌++◌, Some, take};
ghost use Rattle.pgo_base.specs.Data.{Data};
ghost use Rattle.pgo_base.specs.Lookup.{Vars};
ghost use Rattle.pgo_model.specs.Core.{Settings};
ghost use Rattle.pgo_model.specs.Machine.{nth};
ghost use Rattle.pgo_model.specs.Outcome.{Kind, Next, Stuck};
ghost use Rattle.pgo_model.specs.System.{Words};
ghost use Rattle.pgo_syntax.specs.declared.bound.Bound.{Bound};
ghost use Rattle.pgo_syntax.specs.declared.bound.Instance.{Instance};
ghost use Rattle.pgo_bound.specs.Sound.{IsAtLabel};
ghost use Rattle.pgo_bound.specs.State.{IsState};
ghost use Rattle.pgo_meaning.specs.Attempt.{SectTry};
ghost use Rattle.pgo_meaning.specs.Sect.{Sect};
ghost use Rattle.pgo_workers.specs.Sentences.{OthersAt, ReachedAfter, Shows, Ends, changes_at};
ghost use Rattle.pgo_workers.specs.View.{Hold, Taking, EachHold, IsSteady, resources_of, values_of, nows_of};
ghost use Rattle.pgo_workers.specs.Walk.{Own, Walk, Stop, Goes, Sticks, At, Agrees, Along, visits, visits_from, ending, final, taken_after};
ghost use Rattle.pgo_workers.specs.Worker.{changes_of};
ghost use Rattle.pgo_accesses.specs.Programs.{program_of, world_at};
ghost use Rattle.pgo_accesses.specs.Runnable.{Runnable};
ghost use Rattle.pgo_frame.specs.Agreement.{AgreeFor, AgreeOn, SameEnd};
ghost use Rattle.pgo_frame.specs.Found.{HasFound, HasHeld};
ghost use Rattle.pgo_frame.specs.WellBound.{WellBound};

/// The frame law, over the meaning of sections itself: what a section does hangs on the instance's own components, on the domains
/// of the globals that are bound by element, and on what it accesses. Of two states that agree on the former (`AgreeFor`), for all
/// words of choice:
///
/// - `front`: where they agree on the first j accesses on the one, the first j accesses are the same on both, and so is the next
///   one, or there is none on either.
/// - `trace`: where they agree on all accesses on the one, the accesses are the same on both.
/// - `end`: and so are the kind of the end and the prints; and whatever component the states agree on, the ends agree on, which is
///   each own component of the instance and each one that was accessed.
/// - `attempt_front`, `attempt_trace`, `attempt_end`: the same of an attempt, which tries the choices of its section one after another: of
///   the accesses of all leaves that it tries, and of its end.
/// - `runnable`: what is asked of the bound specification is so of each that can be run.
///
/// That both are states is needed: the end would see a value that is too deep for a state, and an own variable that is no function,
/// whether it is accessed or not. What is needed of the bound specification is `WellBound`.
///
/// Source: this project's choice.
pub fn frame_law()
    ensures front { (b : Bound) (k j : ℕ) (s t : Vars) (d : Words) → WellBound b → IsState b s → IsState b t → AgreeFor b k s t → AgreeOn s t (take j (Sect b k s d).trace) → take (suc j) (Sect b k s d).trace ≡ take (suc j) (Sect b k t d).trace }
    ensures trace { (b : Bound) (k : ℕ) (s t : Vars) (d : Words) → WellBound b → IsState b s → IsState b t → AgreeFor b k s t → AgreeOn s t (Sect b k s d).trace → (Sect b k s d).trace ≡ (Sect b k t d).trace }
    ensures end { (b : Bound) (k : ℕ) (s t : Vars) (d : Words) → WellBound b → IsState b s → IsState b t → AgreeFor b k s t → AgreeOn s t (Sect b k s d).trace → SameEnd s t (Sect b k s d).end (Sect b k t d).end }
    ensures attempt_front { (b : Bound) (k j : ℕ) (s t : Vars) (d : Words) → WellBound b → IsState b s → IsState b t → AgreeFor b k s t → AgreeOn s t (take j (SectTry b k s d).trace) → take (suc j) (SectTry b k s d).trace ≡ take (suc j) (SectTry b k t d).trace }
    ensures attempt_trace { (b : Bound) (k : ℕ) (s t : Vars) (d : Words) → WellBound b → IsState b s → IsState b t → AgreeFor b k s t → AgreeOn s t (SectTry b k s d).trace → (SectTry b k s d).trace ≡ (SectTry b k t d).trace }
    ensures attempt_end { (b : Bound) (k : ℕ) (s t : Vars) (d : Words) → WellBound b → IsState b s → IsState b t → AgreeFor b k s t → AgreeOn s t (SectTry b k s d).trace → SameEnd s t (SectTry b k s d).end (SectTry b k t d).end }
    ensures runnable { (b : Bound) → Runnable b → WellBound b }
{}

/// What workers run is attempts at the sections, on every state that agrees with what they found: with the instance's own components, and with
/// the contents of the resources that are accessed. The other instances may be anywhere, and what isn't accessed may be anything.
///
/// - `front`: where a state agrees with the first j accesses, the attempt's first j accesses are these, and so is the next one, or
///   there is none.
/// - `trace`: where it agrees with all, the attempt accesses these.
/// - `stuck`: where the tree ends in a note, so does the attempt of an instance that is at a label. At Done, and where there is no
///   such instance, an attempt has no end.
/// - `next`: where the tree goes on, the attempt leads to the state behind the entry that the worker makes of what it found and
///   what it leaves, and prints the same.
///
/// Source: this project's choice.
pub fn programs_are_sections()
    ensures front { (b : Bound) (settings : Settings) (k a j : ℕ) (own : Own) (found : ℕ → Data) (s : Vars) → Runnable b → HasFound b k own (take j (visits ((program_of b settings).tree k a own) found)) found s → take (suc j) ((program_of b settings).sect k a s).trace ≡ take (suc j) (visits ((program_of b settings).tree k a own) found) }
    ensures trace { (b : Bound) (settings : Settings) (k a : ℕ) (own : Own) (found : ℕ → Data) (s : Vars) → Runnable b → HasFound b k own (visits ((program_of b settings).tree k a own) found) found s → ((program_of b settings).sect k a s).trace ≡ visits ((program_of b settings).tree k a own) found }
    ensures stuck { (b : Bound) (settings : Settings) (k a : ℕ) (own : Own) (found : ℕ → Data) (s : Vars) (i : Instance) (kind : Kind) → Runnable b → HasFound b k own (visits ((program_of b settings).tree k a own) found) found s → nth b.instances k ≡ Some i → IsAtLabel i s → (program_of b settings).at_done k s ≡ false → ending ((program_of b settings).tree k a own) found ≡ Sticks kind → ((program_of b settings).sect k a s).end ≡ Stuck kind }
    ensures next { (b : Bound) (settings : Settings) (k a : ℕ) (own after : Own) (found : ℕ → Data) (s : Vars) (ps : List Data) → Runnable b → HasFound b k own (visits ((program_of b settings).tree k a own) found) found s → ending ((program_of b settings).tree k a own) found ≡ Goes after ps → ((program_of b settings).sect k a s).end ≡ Next ((world_at b).patched s ((program_of b settings).effect k own after (changes_at (taken_after (visits ((program_of b settings).tree k a own) found) []) found (final ((program_of b settings).tree k a own) found)) ps)) ps }
{}

/// The same of what a worker holds: what is done of an attempt is what it does on every state that has the instance's own
/// components, and the values with which the held resources were taken.
///
/// - `front`: where an attempt stands behind some accesses (`Along`), it makes these first on the state, and then those of what stands
///   there, where contents that are put back are as the state has them.
/// - `stuck`: where it stands at a note, it ends so, of an instance that is at a label.
/// - `next`: where it stands at its end, it leads to the state behind the entry that the worker commits, which is made of
///   what it holds, and prints the same.
/// - `reached`: what an answered take shows of the attempt (`Shows`) is so on the state: it accesses that resource, after the
///   others that were then held.
/// - `ends`: an attempt that ends without a note (`Ends`) leads to a state.
///
/// Source: this project's choice.
pub fn attempts_are_sections()
    ensures front { (b : Bound) (settings : Settings) (k a : ℕ) (own : Own) (held nows : List At) (accesses : List ℕ) (rest : Walk) (s : Vars) → Runnable b → HasHeld b k own held s → Along ((program_of b settings).tree k a own) held accesses rest nows → (now : ℕ → Data) × (((program_of b settings).sect k a s).trace ≡ accesses ++ visits_from ((world_at b).value s) rest now) × Agrees nows now }
    ensures stuck { (b : Bound) (settings : Settings) (k a : ℕ) (own : Own) (held nows : List At) (accesses : List ℕ) (s : Vars) (i : Instance) (kind : Kind) → Runnable b → HasHeld b k own held s → Along ((program_of b settings).tree k a own) held accesses (Stop (Sticks kind)) nows → nth b.instances k ≡ Some i → IsAtLabel i s → (program_of b settings).at_done k s ≡ false → ((program_of b settings).sect k a s).end ≡ Stuck kind }
    ensures next { (b : Bound) (settings : Settings) (k a : ℕ) (own after : Own) (held : List Hold) (accesses : List ℕ) (s : Vars) (ps : List Data) → Runnable b → HasHeld b k own (values_of held) s → EachHold IsSteady held → Along ((program_of b settings).tree k a own) (values_of held) accesses (Stop (Goes after ps)) (nows_of held) → taken_after accesses [] ≡ resources_of held → ((program_of b settings).sect k a s).end ≡ Next ((world_at b).patched s ((program_of b settings).effect k own after (changes_of held) ps)) ps }
    ensures reached { (b : Bound) (settings : Settings) (k a : ℕ) (own : Own) (taking : Taking) (s : Vars) → Runnable b → HasHeld b k own taking.held s → Shows ((program_of b settings).tree k a own) taking → (others : List ℕ) × OthersAt taking others × ReachedAfter taking.resource others ((program_of b settings).sect k a s).trace }
    ensures ends { (b : Bound) (settings : Settings) (k a : ℕ) (own : Own) (held : List At) (s : Vars) → Runnable b → HasHeld b k own held s → Ends ((program_of b settings).tree k a own) held → (t : Vars) × (ps : List Data) × (((program_of b settings).sect k a s).end ≡ Next t ps) }
{}
