// The definitions that a module's expressions see: those of its lines, and those that its lines make.
ghost use Rattle.std.specs.Prelude.{◌≡◌, [], ◌∷◌, ◌++◌, map, option_map, reverse, IsTrue, IfOk};
ghost use Rattle.pgo_base.specs.Data.{model};
ghost use Rattle.pgo_base.specs.View.{named_data};
ghost use Rattle.pgo_base.specs.ActionView.{action_pair};
ghost use Rattle.pgo_base.specs.Lookup.{Name, find, or_that};
ghost use Rattle.pgo_base.specs.NameMaps.{found};
ghost use Rattle.pgo_base.specs.Tree as tree;
ghost use Rattle.pgo_model.specs.Val as val;
ghost use Rattle.pgo_model.specs.Module as specs;
ghost use Rattle.pgo_model.specs.ModuleView.{defined_view, process_view, module_view};
ghost use Rattle.pgo_model.specs.Written.{self_name, default_init_value, proc_set};
ghost use Rattle.pgo_check.specs.Assigned.{AreSeenFrom, HasVariablesOf, SeesItsDefinitions};

use crate::constants::constants_by_value;
use crate::used::used_in;
use pgo_base::consts::Consts;
use pgo_base::expr::{Binders, Expr, Exprs, Infix, Names, Quantifier, Sub};
use pgo_base::module::{Action, Defined, Defs, Module, WrittenProcess};
use pgo_base::name_map::NameMap;
use pgo_base::scope::State;
use pgo_base::text::Text;
use pgo_base::value::Value;
use std::alloc::{AllocError, Global};

/// A module whose constants have values, and the state before the first entry, with the definitions that the module's expressions see:
/// as they are written, and others that mean the same in states with the start's variables, of which some are given by their values.
/// Beside them there are the body of the last action of each name, and the name `self`.
pub struct Assigned<'a> {
    pub module: &'a Module,
    pub consts: &'a Consts,
    pub start: &'a State,
    pub written: Defs,
    pub by_value: Defs,
    pub bodies: NameMap<&'a Sub>,
    pub self_name: Text,
}

impl Drop for Assigned<'_> {
    fn drop(self) {
        let Assigned {
            module,
            consts,
            start,
            written,
            by_value,
            bodies,
            self_name,
        } = self;
    }
}

impl<'a> Assigned<'a> {
    /// A module under these constants, with this state before the first entry. The definitions that Init and the actions use are
    /// evaluated here, where they are the same in every state: so this is done once for all entries.
    pub fn new(
        alloc: Global,
        m: &'a Module,
        consts: &'a Consts,
        start: &'a State,
    ) -> Result<Assigned<'a>, AllocError>
        ensures of_module { IfOk result (λ a. a.module.now ≡ m.entry.now) }
        ensures under { IfOk result (λ a. a.consts.now ≡ consts.entry.now) }
        ensures sees { IfOk result SeesItsDefinitions }
    {
        let written = definitions(alloc, &*m, &*consts)?;
        let used = used_in(alloc, &*m, written.as_slice())?;
        let by_value = constants_by_value(alloc, &written, &*start, used)?;
        let bodies = bodies_of(alloc, m.processes.as_slice())?;
        let self_name = self_text(alloc)?;
        Ok(Assigned {
            module: m,
            consts,
            start,
            written,
            by_value,
            bodies,
            self_name,
        })
    }

    /// The definitions that mean what the module's expressions see, in this state and in each that has no other variables.
    pub fn defs_in(&self, s: &State) -> &Defs
        requires { SeesItsDefinitions self.now }
        ensures { AreSeenFrom self.now s.now (map defined_view result.now) }
    {
        if have_same_names(self.start.as_slice(), s.as_slice()) {
            &self.by_value
        } else {
            &self.written
        }
    }
}

/// The body of the last action of each name.
fn bodies_of<'a>(
    alloc: Global,
    processes: &'a [WrittenProcess],
) -> Result<NameMap<&'a Sub>, AllocError>
    ensures { IfOk result (λ bodies. (x : Name) → option_map (λ r. r.now) (found bodies x) ≡ find x (reverse (specs.actions_in (map process_view processes.now)))) }
{
    let mut bodies = NameMap::new(alloc);
    for p in processes {
        add_bodies(alloc, &mut bodies, p.actions.as_slice())?;
    }
    Ok(bodies)
}

/// The bodies of these actions under their names, each in place of what stood there.
fn add_bodies<'a>(
    alloc: Global,
    bodies: &mut NameMap<&'a Sub>,
    actions: &'a [Action],
) -> Result<(), AllocError>
    ensures { IfOk result (λ _. (x : Name) → option_map (λ r. r.now) (found bodies.new x) ≡ or_that (find x (reverse (map action_pair actions.now))) (option_map (λ r. r.now) (found bodies.old x))) }
{
    for a in actions {
        bodies.set(alloc, &a.name, &a.body)?;
    }
    Ok(())
}

/// Whether these have the same names, one after another.
fn have_same_names(a: &[(Text, Value)], b: &[(Text, Value)]) -> bool
    ensures { IsTrue result → HasVariablesOf (map named_data a.now) (map named_data b.now) }
{
    if a.len() != b.len() {
        return false;
    }
    for i in 0..a.len() {
        if !a[i].0.is(&b[i].0) {
            return false;
        }
    }
    true
}

/// The constants with their values, `defaultInitValue`, the module's definitions, and what its lines define besides.
fn definitions(alloc: Global, m: &Module, consts: &Consts) -> Result<Defs, AllocError>
    ensures { IfOk result (λ ds. map defined_view ds ≡ specs.defs_of (module_view m.now) consts.now) }
{
    let mut defs = Defs::new(alloc);
    add_constants(alloc, &mut defs, consts.as_slice())?;
    add_default(alloc, &mut defs)?;
    add_copies(alloc, &mut defs, m.definitions.as_slice())?;
    let processes = m.processes.as_slice();
    let process_set = union_of(alloc, processes)?;
    add(alloc, &mut defs, b"ProcSet", process_set)?;
    add_processes(alloc, &mut defs, processes)?;
    let terminating = terminating(alloc, &m.variables)?;
    add(alloc, &mut defs, b"Terminating", terminating)?;
    Ok(defs)
}

/// A definition without parameters, at the end.
fn add(alloc: Global, defs: &mut Defs, name: &[u8], body: Sub) -> Result<(), AllocError>
    ensures { IfOk result (λ _. map defined_view defs.new ≡ map defined_view defs.old ++ val.Means name.now [] body ∷ []) }
{
    defs.push(Defined::Means {
        name: Text::from_slice(alloc, name)?,
        params: Names::from_vec(Vec::new(alloc)),
        body,
    })
}

/// A definition with the parameter `self`, at the end.
fn add_of_self(alloc: Global, defs: &mut Defs, name: &Text, body: Sub) -> Result<(), AllocError>
    ensures { IfOk result (λ _. map defined_view defs.new ≡ map defined_view defs.old ++ val.Means name.now (self_name ∷ []) body ∷ []) }
{
    defs.push(Defined::Means {
        name: name.copy(alloc)?,
        params: self_names(alloc)?,
        body,
    })
}

/// The name `self`.
fn self_text(alloc: Global) -> Result<Text, AllocError>
    ensures { IfOk result (λ t. t ≡ self_name) }
{
    Text::from_slice(alloc, b"self")
}

/// The name `self` alone.
fn self_names(alloc: Global) -> Result<Names, AllocError>
    ensures { IfOk result (λ ns. ns ≡ self_name ∷ []) }
{
    let name = self_text(alloc)?;
    Ok(Names::from_vec(vec![in alloc; name]?))
}

/// The constants with their values, at the end.
fn add_constants(alloc: Global, defs: &mut Defs, consts: &[(Text, Value)]) -> Result<(), AllocError>
    ensures { IfOk result (λ _. map defined_view defs.new ≡ map defined_view defs.old ++ map (λ c. val.Given c.0 c.1) (map named_data consts.now)) }
{
    for c in consts {
        defs.push(Defined::Given {
            name: c.0.copy(alloc)?,
            value: c.1.copy(alloc)?,
        })?;
    }
    Ok(())
}

/// `defaultInitValue`, which is a model value of that name, at the end.
fn add_default(alloc: Global, defs: &mut Defs) -> Result<(), AllocError>
    ensures { IfOk result (λ _. map defined_view defs.new ≡ map defined_view defs.old ++ val.Given default_init_value (model default_init_value) ∷ []) }
{
    let name = default_name(alloc)?;
    let value = Value::Model(default_name(alloc)?);
    defs.push(Defined::Given { name, value })
}

/// The name of the value that variables have at first.
fn default_name(alloc: Global) -> Result<Text, AllocError>
    ensures { IfOk result (λ t. t ≡ default_init_value) }
{
    Text::from_slice(alloc, b"defaultInitValue")
}

/// A definition once more.
pub fn copy_of(alloc: Global, d: &Defined) -> Result<Defined, AllocError>
    ensures { IfOk result (λ c. defined_view c ≡ defined_view d.now) }
{
    match d {
        Defined::Given { name, value } => Ok(Defined::Given {
            name: name.copy(alloc)?,
            value: value.copy(alloc)?,
        }),
        Defined::Means { name, params, body } => Ok(Defined::Means {
            name: name.copy(alloc)?,
            params: params.copy(alloc)?,
            body: body.copy(alloc)?,
        }),
    }
}

/// Copies of these, at the end.
fn add_copies(alloc: Global, defs: &mut Defs, more: &[Defined]) -> Result<(), AllocError>
    ensures { IfOk result (λ _. map defined_view defs.new ≡ map defined_view defs.old ++ map defined_view more.now) }
{
    for d in more {
        defs.push(copy_of(alloc, d)?)?;
    }
    Ok(())
}

/// The label actions, at the end.
fn add_actions(alloc: Global, defs: &mut Defs, actions: &[Action]) -> Result<(), AllocError>
    ensures { IfOk result (λ _. map defined_view defs.new ≡ map defined_view defs.old ++ map specs.action_definition (map action_pair actions.now)) }
{
    for a in actions {
        add_of_self(alloc, defs, &a.name, a.body.copy(alloc)?)?;
    }
    Ok(())
}

/// Each process's label actions and its own definition, at the end.
fn add_processes(
    alloc: Global,
    defs: &mut Defs,
    processes: &[WrittenProcess],
) -> Result<(), AllocError>
    ensures { IfOk result (λ _. map defined_view defs.new ≡ map defined_view defs.old ++ specs.process_definitions (map process_view processes.now)) }
{
    for p in processes {
        let actions = p.actions.as_slice();
        add_actions(alloc, defs, actions)?;
        add_of_self(alloc, defs, &p.name, any_of(alloc, actions)?)?;
    }
    Ok(())
}

/// An operator on two expressions.
fn infix(alloc: Global, op: Infix, a: Sub, b: Sub) -> Result<Sub, AllocError>
    ensures { IfOk result (λ e. e ≡ tree.binary op a b) }
{
    Sub::new(alloc, Expr::Infix(op, a, b))
}

/// A name as an expression.
fn named(alloc: Global, name: &[u8]) -> Result<Sub, AllocError>
    ensures { IfOk result (λ e. e ≡ tree.name name.now) }
{
    Sub::new(alloc, Expr::Name(Text::from_slice(alloc, name)?))
}

/// One expression as a list.
fn one(alloc: Global, e: Sub) -> Result<Exprs, AllocError>
    ensures { IfOk result (λ es. es ≡ e ∷ []) }
{
    let mut list = Exprs::new(alloc);
    list.push(e)?;
    Ok(list)
}

/// An action of `self`.
fn self_call(alloc: Global, name: &Text) -> Result<Sub, AllocError>
    ensures { IfOk result (λ e. e ≡ specs.self_call name.now) }
{
    let self_name = named(alloc, b"self")?;
    Sub::new(alloc, Expr::Call(name.copy(alloc)?, one(alloc, self_name)?))
}

/// The actions of `self`, joined from the left.
fn any_of(alloc: Global, actions: &[Action]) -> Result<Sub, AllocError>
    ensures { IfOk result (λ e. e ≡ specs.any_of (map (λ a. specs.self_call a.0) (map action_pair actions.now))) }
{
    let Some((first, rest)) = actions.split_first() else {
        return Sub::new(alloc, Expr::Truth(false));
    };
    let mut all = self_call(alloc, &first.name)?;
    for a in rest {
        let next = self_call(alloc, &a.name)?;
        all = infix(alloc, Infix::Or, all, next)?;
    }
    Ok(all)
}

/// The identifiers of the processes, joined from the left.
fn union_of(alloc: Global, processes: &[WrittenProcess]) -> Result<Sub, AllocError>
    ensures { IfOk result (λ e. e ≡ specs.union_of (map (λ p. p.ids) (map process_view processes.now))) }
{
    let Some((first, rest)) = processes.split_first() else {
        return Sub::new(alloc, Expr::SetOf(Exprs::new(alloc)));
    };
    let mut all = first.ids.copy(alloc)?;
    for p in rest {
        let next = p.ids.copy(alloc)?;
        all = infix(alloc, Infix::Union, all, next)?;
    }
    Ok(all)
}

/// Where `self` stands at a label.
fn stands_at(alloc: Global, label: &[u8]) -> Result<Sub, AllocError>
    ensures { IfOk result (λ e. e ≡ specs.stands_at label.now) }
{
    let self_name = named(alloc, b"self")?;
    let place = Expr::Index(named(alloc, b"pc")?, one(alloc, self_name)?);
    let label = Sub::new(alloc, Expr::Text(Text::from_slice(alloc, label)?))?;
    infix(alloc, Infix::Equal, Sub::new(alloc, place)?, label)
}

/// `self` over all identifiers.
fn every_self(alloc: Global) -> Result<Binders, AllocError>
    ensures { IfOk result (λ bs. bs ≡ (self_name ∷ [], tree.name proc_set) ∷ []) }
{
    let set = Expr::Name(Text::from_slice(alloc, b"ProcSet")?);
    Ok(Binders::from_vec(vec![in alloc; (self_names(alloc)?, set)]?))
}

/// All instances are at Done, and nothing changes.
fn terminating(alloc: Global, variables: &Names) -> Result<Sub, AllocError>
    ensures { (m : specs.Module) → m.variables ≡ variables.now → IfOk result (λ e. e ≡ specs.terminating_body m) }
{
    let done = Expr::Quantified(
        Quantifier::Forall,
        every_self(alloc)?,
        stands_at(alloc, b"Done")?,
    );
    let same = Expr::Unchanged(variables.copy(alloc)?);
    infix(
        alloc,
        Infix::And,
        Sub::new(alloc, done)?,
        Sub::new(alloc, same)?,
    )
}
