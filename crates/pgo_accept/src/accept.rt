// What a specification's text is bound to with constants and its expansion, or the first refusal.
ghost use Rattle.std.specs.Prelude.{◌≡◌, None, Ok, Err, IfOk, IfErr};
ghost use Rattle.pgo_bound.specs.Declares.{Declares};
ghost use Rattle.pgo_bound.specs.Sound.{Sound};
ghost use Rattle.pgo_labels.specs.Refusal.{label_refusal};
ghost use Rattle.pgo_scope.specs.Refusal.{scope_refusal};
ghost use Rattle.pgo_accept.specs.Answers.{Answers, Expands, GivesExpansion, Judges, OfText, PassesRules};

use crate::errors::Rejection;
use pgo_base::consts::Consts;
use pgo_bind::bind::bind;
use pgo_expand::expand::expand;
use pgo_labels::labels;
use pgo_lexer::errors::TextStop;
use pgo_mpcal_read::reader::read_spec;
use pgo_pluscal::pluscal::PlusCal;
use pgo_scope::scope::scope;
use pgo_syntax::bound::Bound;
use pgo_syntax::spec::Spec;
use std::alloc::Global;

/// What a specification whose names and labels are not refused is bound to.
fn bound(alloc: Global, system: &Spec, consts: &Consts) -> Result<Bound, Rejection>
    requires names { scope_refusal system.now ≡ None }
    requires labels { label_refusal system.now ≡ None }
    ensures judges { Judges system.now consts.now result }
    ensures sound { IfOk result Sound }
    ensures declared { IfOk result (λ b. Declares b b.start) }
{
    match bind(alloc, system, consts) {
        Ok(made) => Ok(made),
        Err(error) => Err(Rejection::Bind(error)),
    }
}

/// What a specification whose names are not refused is bound to, or why it isn't.
fn labeled(alloc: Global, system: &Spec, consts: &Consts) -> Result<Bound, Rejection>
    requires { scope_refusal system.now ≡ None }
    ensures judges { Judges system.now consts.now result }
    ensures sound { IfOk result Sound }
    ensures declared { IfOk result (λ b. Declares b b.start) }
{
    match labels(alloc, system) {
        Ok(()) => bound(alloc, system, consts),
        Err(error) => Err(Rejection::Labels(error)),
    }
}

/// What a specification is bound to, or why it isn't.
fn judged(alloc: Global, system: &Spec, consts: &Consts) -> Result<Bound, Rejection>
    ensures judges { Judges system.now consts.now result }
    ensures sound { IfOk result Sound }
    ensures declared { IfOk result (λ b. Declares b b.start) }
{
    match scope(alloc, system) {
        Ok(()) => labeled(alloc, system, consts),
        Err(error) => Err(Rejection::Scope(error)),
    }
}

/// The specification that a text spells, or why there is none.
fn read(alloc: Global, text: &[u8]) -> Result<Spec, Rejection>
    ensures { OfText (λ s r. r ≡ Ok s) text.now result }
{
    match read_spec(alloc, text) {
        Ok(system) => Ok(system),
        Err(TextStop::Syntax { offset }) => Err(Rejection::Syntax { offset }),
        Err(TextStop::NoMemory) => Err(Rejection::NoMemory),
    }
}

/// What a text is bound to with these constants: the bound system of the one specification that it spells, where the rules
/// of names, of labels and of binding refuse nothing; else the first refusal, those of names before those of labels, and
/// those of binding last.
///
/// - `answers`: what comes out is that bound system, or that refusal, or there was no memory.
/// - `sound`: a bound system that comes out is sound: instances and resources are numbered, few and different, and the start
///   is a state in which each instance is at a label of its process.
/// - `declared`: its start is a declared one.
///
/// Source: Modular PlusCal; the order of the rules is this project's choice.
pub fn accept(alloc: Global, text: &[u8], consts: &Consts) -> Result<Bound, Rejection>
    ensures answers { Answers text.now consts.now result }
    ensures sound { IfOk result Sound }
    ensures declared { IfOk result (λ b. Declares b b.start) }
{
    match read(alloc, text) {
        Ok(system) => judged(alloc, &system, consts),
        Err(rejection) => Err(rejection),
    }
}

/// Whether the rules of names, of labels and of binding let a specification pass.
fn checked(alloc: Global, system: &Spec, consts: &Consts) -> Result<(), Rejection>
    ensures passes { IfOk result (λ _. PassesRules system.now consts.now) }
    ensures refused { IfErr result (λ e. Judges system.now consts.now (Err e)) }
{
    match judged(alloc, system, consts) {
        Ok(_bound) => Ok(()),
        Err(rejection) => Err(rejection),
    }
}

/// The expansion of a specification, or why there is none.
fn expanded(alloc: Global, system: &Spec, consts: &Consts) -> Result<PlusCal, Rejection>
    ensures { Expands system.now consts.now result }
{
    match checked(alloc, system, consts) {
        Ok(()) => match expand(alloc, system) {
            Ok(pluscal) => Ok(pluscal),
            Err(error) => Err(Rejection::Expand(error)),
        },
        Err(rejection) => Err(rejection),
    }
}

/// The expansion of the one specification that a text spells, where the rules of names, of labels and of binding with these
/// constants refuse nothing and it is within the limits; else the first refusal, of names, of labels, of binding, and last
/// that of a limit. Or there was no memory.
///
/// Source: PlusCal; the limits and the order are this project's choice.
pub fn expansion(alloc: Global, text: &[u8], consts: &Consts) -> Result<PlusCal, Rejection>
    ensures { GivesExpansion text.now consts.now result }
{
    match read(alloc, text) {
        Ok(system) => expanded(alloc, &system, consts),
        Err(rejection) => Err(rejection),
    }
}
