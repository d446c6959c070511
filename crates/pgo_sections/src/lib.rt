// Sections of PlusCal with mapping macros: their code, what it means, its expansion, and that both allow the same.
#![tactic(auto)]

ghost use Rattle.std.specs.Prelude.{◌≡◌, true, false, List, [], Option, Some, None};
ghost use Rattle.std.specs.List.{AllByRecursion};
ghost use Rattle.pgo_base.specs.Data.{Data};
ghost use Rattle.pgo_base.specs.Lookup.{Name, Names, Vars, find};
ghost use Rattle.pgo_model.specs.Operators.{except};
ghost use Rattle.pgo_model.specs.Outcome.{Next};
ghost use Rattle.pgo_model.specs.State.{is_shallow};
ghost use Rattle.pgo_model.specs.System.{Words};
ghost use Rattle.pgo_model.specs.Val.{Defined, meanings, call_def};
ghost use Rattle.pgo_model.specs.Variables.{IsFunctionOn};
ghost use Rattle.pgo_sections.specs.SectionsAgree.{keys, SectionsAgree};
ghost use Rattle.pgo_model.specs.Names.{is_among};
ghost use Rattle.pgo_sections.specs.Closed.{AreClosed};
ghost use Rattle.pgo_sections.specs.Code.{Code, Place, Read, Write};
ghost use Rattle.pgo_sections.specs.Context.{Context, part_at};
ghost use Rattle.pgo_sections.specs.Domains.{ByElements, HaveDomains, IsEvent, KeepsDomain, UsesOnly};
ghost use Rattle.pgo_sections.specs.Exec.{if_gives, touched, touching};
ghost use Rattle.pgo_sections.specs.Expand.{expansion};
ghost use Rattle.pgo_sections.specs.BoundValues.{value_under};
ghost use Rattle.pgo_sections.specs.Macros.{IsMapped, block_read, block_write, exec, after_read, after_write};
ghost use Rattle.pgo_sections.specs.PlainTest.{plain_code, names_pass, NamesFit};
ghost use Rattle.pgo_sections.specs.SectionRun.{SectionRun, Go, seen};
ghost use Rattle.pgo_sections.specs.Section.{section};
ghost use Rattle.pgo_sections.specs.WellFormed.{PlainCode};

/// The laws of sections, over the definitions alone: for all code, all states, all words of choice.
///
/// - `paths` (`SectionsAgree`): some path through the expansion leads from the start to an end that is a state exactly where
///   the code, with some words of choice, ends there. Its premises are that the path and the section are of one instance and
///   its variables (`Fit`), that the code reads and writes mapped parameters by blocks that have none (`HasBlocks`), that its
///   names are well formed (`PlainCode`), and that no path through its expansion binds 2^64 names (`most_names`).
/// - `definitions`: definitions whose bodies have no prime and name no variable mean the same over any state.
/// - `reads`, `writes`: where a mapped parameter has an index and a content, its read, or write, in a section is what its
///   macro's block does on that content. The section goes on behind it with the words that are left.
///
/// Source: this project's choice.
pub fn sections_agree()
    ensures paths { SectionsAgree }
    ensures definitions { (vs : List Name) (ds : List Defined) (s : Vars) (t : Option Vars) → AreClosed vs ds → ((x : Name) → is_among x vs ≡ false → find x s ≡ None) → (x : Name) (args : List Data) → call_def x args (meanings ds s t) ≡ call_def x args (meanings ds [] None) }
    ensures reads { (k : Context) (w g : Name) (i : Option Name) (block c : Code) (env : Names) (d : Words) (run : SectionRun) (j : Option Data) (old : Data) → IsMapped k g i env run.changes j old → exec k (Read w g i block c) env d run ≡ if_gives (block_read block k.defs k.id old d run.choices) (touching k g j run) (after_read k w g j c env d run.changes) }
    ensures writes { (k : Context) (w g : Name) (i : Option Name) (block : Code) (env : Names) (d : Words) (run : SectionRun) (j : Option Data) (old v : Data) → IsMapped k g i env run.changes j old → value_under w env ≡ Some v → exec k (Write g i w block) env d run ≡ if_gives (block_write block k.defs k.id old v d run.choices) (touching k g j run) (after_write k g j run.changes) }
{}

/// What of a state the end of a section keeps, and what a section reads and writes.
///
/// - `variables`: it has the variables of the start, in their order, and none of their values is more than 256 deep.
/// - `domains`: a variable that is a function stays one on its domain, if it is `pc`, or no global, or a global that is bound
///   by element, where the code changes these by their elements alone (`ByElements`).
/// - `except`: EXCEPT gives a function the domain that it has.
/// - `changes`: so from changes that leave element-bound globals the domains of the start (`HaveDomains`) code goes on with such.
/// - `elements`: there an element of such a global is in the trace where it is in the domain of its function at the start.
/// - `traces`: where the code's parameters are of given globals (`UsesOnly`), each read and write is of one of these: as a
///   whole, or, of a global that is bound by element, of an element in its domain.
///
/// Source: this project's choice.
pub fn sections_keep()
    ensures variables { (k : Context) (c : Code) (d : Words) (t : Vars) (prints : List Data) → (section k c d).end ≡ Next t prints → (keys t ≡ keys k.start) × (is_shallow t ≡ true) }
    ensures domains { (k : Context) (c : Code) (d : Words) (t : Vars) (prints : List Data) (x : Name) (ids : List Data) → ByElements k.by_element c → (section k c d).end ≡ Next t prints → KeepsDomain k x → IsFunctionOn ids (find x k.start) → IsFunctionOn ids (find x t) }
    ensures except { (ids : List Data) (f i v g : Data) → IsFunctionOn ids (Some f) → except f i v ≡ Some g → IsFunctionOn ids (Some g) }
    ensures changes { (k : Context) (c : Code) (env : Names) (d : Words) (run then' : SectionRun) → ByElements k.by_element c → HaveDomains k run.changes → exec k c env d run ≡ Go then' → HaveDomains k then'.changes }
    ensures elements { (k : Context) (g : Name) (ids : List Data) (i : Data) (run : SectionRun) → k.by_element g ≡ true → IsFunctionOn ids (find g k.start) → HaveDomains k run.changes → touching k g (Some i) run ≡ seen (touched true g (Some i) (part_at g i k.start)) run }
    ensures traces { (k : Context) (gs : List Name) (c : Code) (d : Words) → UsesOnly k gs c → ByElements k.by_element c → AllByRecursion (IsEvent k gs) (section k c d).trace }
{}

/// The tests for well-formed names, which compute, say no more than holds.
///
/// - `code`: code that passes `plain_code` has well-formed names (`PlainCode`).
/// - `names`: variables whose names pass `names_pass` are as the law of sections asks (`NamesFit`).
///
/// Source: this project's choice.
pub fn name_tests()
    ensures code { (vs gs : List Name) (ps : List (Name × Place)) (ws : List Name) (c : Code) → plain_code vs gs ps ws c ≡ true → PlainCode vs gs ps ws c }
    ensures names { (vs gs os : List Name) (ps : List (Name × Place)) → names_pass vs gs os ps ≡ true → NamesFit vs gs os ps }
{}
