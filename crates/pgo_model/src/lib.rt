// Laws of the core machine.
#![tactic(auto)]

ghost use Rattle.std.specs.Prelude.{◌≡◌, ◌≤◌, false, ℕ, List, length, Some};
ghost use Rattle.pgo_model.specs.System.{System};
ghost use Rattle.pgo_model.specs.SystemFits.{SystemFits};
ghost use Rattle.pgo_model.specs.Machine.{finished_of};
ghost use Rattle.pgo_model.specs.Log.{StateAt};
ghost use Rattle.pgo_model.specs.Entries.{AllLead};
ghost use Rattle.pgo_model.specs.Core.{Settings, Core, rules_of, Reaches};
ghost use Rattle.pgo_model.specs.Accounts.{at, StepsAreSections, EntriesMade, Accounts, JointAccounts};

/// The law of the core machine, for every system, settings and list of turns.
///
/// Its premise speaks of the system's states, in which each element-bound global has its domain in the start: the run
/// starts in one, and a section leads from one to one; there what an entry records of a step leads to the end of the
/// step's section, with its prints, and a section reads and writes only resources that its instance is bound to.
/// Resources stand at their numbers.
///
/// - `runs`: each entry of the journal is what its instance's section does on the state after the entries before it.
/// - `entries`: each entry records the difference between the states before and after it.
/// - `leads`: the changes that an entry records lead from the state before it to the state after it.
/// - `states`: so the state by components after n entries is there, and is the machine's state after them.
/// - `accounts`: the records of an instance number its attempts from 1, and each says what became of its attempt, a
///   refusal by a holder that it names an instance; its entries and notes are exactly those that its records name, in
///   order; no attempt has two notes; `Full` is a last record. A number that is no instance's has no record.
/// - `joint`: over all instances no failing pre-commit is answered twice, and the number of a `Full` is the journal's
///   length.
///
/// Source: this project's choice.
pub fn core_accounts()
    ensures runs { (y : System) (s : Settings) (turns : List ℕ) → SystemFits y s → StepsAreSections (rules_of y s) (finished_of (Core y s turns)) }
    ensures entries { (y : System) (s : Settings) (turns : List ℕ) → SystemFits y s → EntriesMade (rules_of y s) (finished_of (Core y s turns)) }
    ensures leads { (y : System) (s : Settings) (turns : List ℕ) → SystemFits y s → AllLead (rules_of y s) y.start (Core y s turns).entries }
    ensures states { (y : System) (s : Settings) (turns : List ℕ) → SystemFits y s → (n : ℕ) → n ≤ length (Core y s turns).entries → StateAt y.start (Core y s turns).entries n ≡ Some (at (rules_of y s) (finished_of (Core y s turns)) n) }
    ensures accounts { (y : System) (s : Settings) (turns : List ℕ) → SystemFits y s → (k : ℕ) → Accounts (rules_of y s) (Reaches y) false (finished_of (Core y s turns)) k }
    ensures joint { (y : System) (s : Settings) (turns : List ℕ) → SystemFits y s → JointAccounts (rules_of y s) false (finished_of (Core y s turns)) }
{}
