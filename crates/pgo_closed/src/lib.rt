// Laws of runs whose boards are closed.
#![tactic(auto)]

ghost use Rattle.std.specs.Prelude.{◌≡◌, ◌≤◌, ◌<◌, true, false, ℕ, List, length};
ghost use Rattle.pgo_model.specs.Accounts.{Accounts, EntriesMade, JointAccounts, at};
ghost use Rattle.pgo_model.specs.Core.{Reaches, Settings, end_of, is_at_done, rules_of};
ghost use Rattle.pgo_model.specs.Log.{Effect};
ghost use Rattle.pgo_model.specs.Machine.{Entry, Note, last_ends};
ghost use Rattle.pgo_model.specs.System.{System};
ghost use Rattle.pgo_workers.specs.CoreStands.{Differs};
ghost use Rattle.pgo_workers.specs.Grown.{opened};
ghost use Rattle.pgo_workers.specs.Sentences.{Meets};
ghost use Rattle.pgo_workers.specs.View.{Others, Told, View};
ghost use Rattle.pgo_workers.specs.Worker.{Turn, Turned, Worker};
ghost use Rattle.pgo_section.specs.Programs.{IsGood, RunsSystem, Trees};
ghost use Rattle.pgo_closed.specs.ClosedRuns.{ComesTo};
ghost use Rattle.pgo_closed.specs.MadeEntries.{Stays};
ghost use Rattle.pgo_closed.specs.SystemRuns.{EachHasEnd, IsClosedRun, SystemPremises, end_seen, left, program, world};

/// What a worker keeps beside its relation to its board (`Stays`): each of its entries that was made on a good state is the difference
/// between the states before and after it, and where its last record ends it, it isn't at Done.
///
/// - `opened`: a worker just opened has it, over a board whose journal has no entry of its instance.
/// - `kept`: each turn keeps it.
///
/// Source: this project's choice.
pub fn made_entries_stay()
    ensures opened { (y : System) (tree : Trees) (settings : Settings) (runs : RunsSystem y tree settings) (k : ℕ) (b : View Effect) → Others k b.entries → Stays (world y tree settings) (program y tree settings) (IsGood y) (opened (world y tree settings) (program y tree settings) (Reaches y) (IsGood y) runs k) b }
    ensures kept { (y : System) (tree : Trees) (settings : Settings) (runs : RunsSystem y tree settings) → Differs (world y tree settings) (program y tree settings) (Reaches y) (IsGood y) runs → (w : Worker) (b : View Effect) (v : Worker) (c : View Effect) (t : Turn) → Turned (world y tree settings) (program y tree settings) w b v c t → Meets (world y tree settings) (program y tree settings) (Reaches y) (IsGood y) w b → Stays (world y tree settings) (program y tree settings) (IsGood y) w b → Stays (world y tree settings) (program y tree settings) (IsGood y) v c }
{}

/// The law of a run whose boards are closed, of every system, whatever trees its workers run and whatever the schedule was: where the worker of
/// each instance has ended over its board (`IsClosedRun`), of what is left (`left`)
///
/// - `reached`: each state along the entries is one that a run comes to.
/// - `made`: each entry is a step of its instance's section, and records what differs.
/// - `accounts`: the records of an instance number its attempts from 1, and each says what became of its attempt; a refusal names another
///   instance, and the journal may have been held.
/// - `joint`: over all instances no failing pre-commit is answered twice, the number of a `Full` is the journal's length, and each refusal has
///   its cause among the recorded attempts.
/// - `ended`: each instance has ended: it is at Done in the last state, its last record ends it, or it has made all its attempts.
/// - `ends`: and its end is the one that its worker knows, from its own components and its records (`end_seen`).
/// - `undone`: none that its last record ends is at Done in the last state.
///
/// Its premises (`SystemPremises`): on good states the trees do what the sections do, each state that a run comes to is good, and no resource has
/// the number that stands for the journal.
///
/// Source: this project's choice.
pub fn closed_runs_are_accounted()
    ensures reached { (y : System) (tree : Trees) (settings : Settings) (entries : List (Entry Effect)) (notes : List Note) (ws : ℕ → Worker) (bs : ℕ → View Effect) (told : ℕ → Told) → SystemPremises y tree settings → IsClosedRun y tree settings entries notes ws bs told → (p : ℕ) → p ≤ length entries → ComesTo (world y tree settings) (program y tree settings) (at (rules_of y settings) (left y tree settings entries notes ws) p) }
    ensures made { (y : System) (tree : Trees) (settings : Settings) (entries : List (Entry Effect)) (notes : List Note) (ws : ℕ → Worker) (bs : ℕ → View Effect) (told : ℕ → Told) → SystemPremises y tree settings → IsClosedRun y tree settings entries notes ws bs told → EntriesMade (rules_of y settings) (left y tree settings entries notes ws) }
    ensures accounts { (y : System) (tree : Trees) (settings : Settings) (entries : List (Entry Effect)) (notes : List Note) (ws : ℕ → Worker) (bs : ℕ → View Effect) (told : ℕ → Told) → SystemPremises y tree settings → IsClosedRun y tree settings entries notes ws bs told → (k : ℕ) → Accounts (rules_of y settings) (Reaches y) true (left y tree settings entries notes ws) k }
    ensures joint { (y : System) (tree : Trees) (settings : Settings) (entries : List (Entry Effect)) (notes : List Note) (ws : ℕ → Worker) (bs : ℕ → View Effect) (told : ℕ → Told) → SystemPremises y tree settings → IsClosedRun y tree settings entries notes ws bs told → JointAccounts (rules_of y settings) true (left y tree settings entries notes ws) }
    ensures ended { (y : System) (tree : Trees) (settings : Settings) (entries : List (Entry Effect)) (notes : List Note) (ws : ℕ → Worker) (bs : ℕ → View Effect) (told : ℕ → Told) → SystemPremises y tree settings → IsClosedRun y tree settings entries notes ws bs told → EachHasEnd y settings (left y tree settings entries notes ws) }
    ensures ends { (y : System) (tree : Trees) (settings : Settings) (entries : List (Entry Effect)) (notes : List Note) (ws : ℕ → Worker) (bs : ℕ → View Effect) (told : ℕ → Told) → SystemPremises y tree settings → IsClosedRun y tree settings entries notes ws bs told → (k : ℕ) → k < length y.members → end_of y settings (left y tree settings entries notes ws) k ≡ end_seen settings (ws k) }
    ensures undone { (y : System) (tree : Trees) (settings : Settings) (entries : List (Entry Effect)) (notes : List Note) (ws : ℕ → Worker) (bs : ℕ → View Effect) (told : ℕ → Told) → SystemPremises y tree settings → IsClosedRun y tree settings entries notes ws bs told → (k : ℕ) → last_ends ((left y tree settings entries notes ws).records k) ≡ true → is_at_done y k (at (rules_of y settings) (left y tree settings entries notes ws) (length entries)) ≡ false }
{}
