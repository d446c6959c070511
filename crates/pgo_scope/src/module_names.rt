// The names of the written module.
ghost use Rattle.std.specs.Prelude.{◌≡◌, [], ◌∷◌, ◌++◌, map, option_map, IfOk};
ghost use Rattle.pgo_base.specs.Lookup.{Name, find};
ghost use Rattle.pgo_uses.specs.AllUses.{variable_names};
ghost use Rattle.pgo_uses.specs.PieceView.{placed_names};
ghost use Rattle.pgo_scope.specs.OwnView.{see_own, own_in};
ghost use Rattle.pgo_scope.specs.TextOrder.{in_text_order};
ghost use Rattle.pgo_scope.specs.Clash as spec;

use pgo_base::text::Text;
use pgo_syntax::archetype::{Archetype, Parameter, ParameterKind};
use pgo_syntax::declaration::Declaration;
use pgo_syntax::name::PlacedName;
use pgo_syntax::process::Process;
use pgo_syntax::spec::Spec;
use pgo_uses::heads::shared_names;
use pgo_uses::names::Names;
use pgo_uses::unit_uses::add_archetype;
use pgo_uses::uses::{Form, Use};
use std::alloc::{AllocError, Global};

/// A name that the written module has.
#[derive(Drop)]
pub struct ModuleName {
    /// as which it is written
    pub written: Text,
    /// as which it is shown
    pub shown: Text,
    pub place: u32,
    /// whether it is a name that an expression binds, or a definition's parameter
    pub bound: bool,
}

/// The names that the processes of archetypes write. Those of an archetype are found without going over a list.
#[derive(Drop)]
pub struct OwnNames {
    pub archetypes: Names,
    /// in the same order, what the processes of each write
    pub lists: Vec<Vec<Text>>,
}

/// The names that each module has.
const FIXED: [&[u8]; 8] = [
    b"vars",
    b"ProcSet",
    b"Init",
    b"Next",
    b"Spec",
    b"Terminating",
    b"pc",
    b"self",
];

/// Adds a name that is written as it is.
fn add_itself(
    alloc: Global,
    bound: bool,
    x: &Text,
    place: u32,
    out: &mut Vec<ModuleName>,
) -> Result<(), AllocError>
    ensures { IfOk result (λ _. out.new.items ≡ out.old.items ++ spec.itself bound x.now place ∷ []) }
{
    let written = x.copy(alloc)?;
    let shown = x.copy(alloc)?;
    out.push(ModuleName {
        written,
        shown,
        place,
        bound,
    })?;
    Ok(())
}

fn add_words(alloc: Global, words: &[&[u8]], out: &mut Vec<ModuleName>) -> Result<(), AllocError>
    ensures { IfOk result (λ _. out.new.items ≡ out.old.items ++ spec.fixed_module_names (map (λ w. w.now) words.now)) }
{
    for word in words {
        let name = Text::from_slice(alloc, word)?;
        add_itself(alloc, false, &name, 0, out)?;
    }
    Ok(())
}

/// Adds the fixed names.
fn add_fixed(alloc: Global, out: &mut Vec<ModuleName>) -> Result<(), AllocError>
    ensures { IfOk result (λ _. out.new.items ≡ out.old.items ++ spec.fixed_module_names spec.fixed_names) }
{
    add_words(alloc, &FIXED, out)
}

fn add_shared(
    alloc: Global,
    list: &[&PlacedName],
    out: &mut Vec<ModuleName>,
) -> Result<(), AllocError>
    ensures { IfOk result (λ _. out.new.items ≡ out.old.items ++ spec.shared_module_names (placed_names list.now)) }
{
    for x in list {
        add_itself(alloc, false, &x.name, x.place, out)?;
    }
    Ok(())
}

fn add_bound_module_names(
    alloc: Global,
    uses: &[Use],
    out: &mut Vec<ModuleName>,
) -> Result<(), AllocError>
    ensures { IfOk result (λ _. out.new.items ≡ out.old.items ++ spec.bound_module_names uses.now) }
{
    for u in uses {
        let Form::Bound = &u.form else {
            continue;
        };
        add_itself(alloc, true, &u.name, u.around.place, out)?;
    }
    Ok(())
}

fn add_value_names(alloc: Global, list: &[Parameter], out: &mut Vec<Text>) -> Result<(), AllocError>
    ensures { IfOk result (λ _. out.new.items ≡ out.old.items ++ spec.value_names list.now) }
{
    for p in list {
        let ParameterKind::Value = p.kind else {
            continue;
        };
        out.push(p.name.name.copy(alloc)?)?;
    }
    Ok(())
}

fn add_variable_names(
    alloc: Global,
    list: &[Declaration],
    out: &mut Vec<Text>,
) -> Result<(), AllocError>
    ensures { IfOk result (λ _. out.new.items ≡ out.old.items ++ variable_names list.now) }
{
    for d in list {
        out.push(d.name.name.copy(alloc)?)?;
    }
    Ok(())
}

/// Adds the labels among these, each once.
fn add_labels(alloc: Global, uses: &[Use], out: &mut Vec<Text>) -> Result<(), AllocError>
    ensures { IfOk result (λ _. out.new.items ≡ out.old.items ++ spec.labels_from [] uses.now) }
{
    let mut before = Names::new(alloc);
    for u in uses {
        let Form::Label = &u.form else {
            continue;
        };
        if before.has(&u.name) {
            continue;
        }
        out.push(u.name.copy(alloc)?)?;
        before.push(alloc, &u.name, 0)?;
    }
    Ok(())
}

/// What the processes of an archetype of this number write.
fn own_names(alloc: Global, number: usize, r: &Archetype) -> Result<Vec<Text>, AllocError>
    ensures { IfOk result (λ v. v.items ≡ spec.own_names number r.now) }
{
    let mut names = Vec::new(alloc);
    add_value_names(alloc, r.params.as_slice(), &mut names)?;
    add_variable_names(alloc, r.locals.as_slice(), &mut names)?;
    let mut uses = Vec::new(alloc);
    add_archetype(alloc, number, r, &mut uses)?;
    add_labels(alloc, uses.as_slice(), &mut names)?;
    Ok(names)
}

/// What the processes of these archetypes write.
fn all_own(alloc: Global, list: &[Archetype]) -> Result<OwnNames, AllocError>
    ensures { IfOk result (λ o. (x : Name) → own_in (see_own o) x ≡ spec.or_none (find x (spec.own_rows 0 list.now))) }
{
    let mut archetypes = Names::new(alloc);
    let mut lists = Vec::new(alloc);
    for (i, r) in list.iter().enumerate() {
        archetypes.push(alloc, &r.name.name, 0)?;
        lists.push(own_names(alloc, i, r)?)?;
    }
    Ok(OwnNames { archetypes, lists })
}

/// What the processes of the archetype of this name write.
fn own_of<'a>(own: &'a OwnNames, name: &Text) -> &'a [Text]
    ensures { result.now ≡ own_in (see_own own.now) name.now }
{
    let Some(i) = own.archetypes.position(name) else {
        return &[];
    };
    match own.lists.get(i) {
        Some(names) => names.as_slice(),
        None => &[],
    }
}

/// Two names with this byte between them.
fn joined(alloc: Global, first: &Text, byte: u8, second: &Text) -> Result<Text, AllocError>
    ensures { IfOk result (λ t. t ≡ first.now ++ (byte ∷ []) ++ second.now) }
{
    let mut bytes = Vec::from_slice(alloc, first.as_bytes())?;
    bytes.push(byte)?;
    bytes.extend_from_slice(second.as_bytes())?;
    Ok(Text::from_bytes(bytes)?)
}

fn own_module_name(alloc: Global, p: &Process, l: &Text) -> Result<ModuleName, AllocError>
    ensures { IfOk result (λ t. t ≡ spec.own_module_name p.now l.now) }
{
    Ok(ModuleName {
        written: joined(alloc, &p.name.name, b'_', l)?,
        shown: joined(alloc, &p.name.name, b'.', l)?,
        place: p.name.place,
        bound: false,
    })
}

fn add_own_module_names(
    alloc: Global,
    p: &Process,
    names: &[Text],
    out: &mut Vec<ModuleName>,
) -> Result<(), AllocError>
    ensures { IfOk result (λ _. out.new.items ≡ out.old.items ++ spec.own_module_names p.now names.now) }
{
    for l in names {
        out.push(own_module_name(alloc, p, l)?)?;
    }
    Ok(())
}

/// Adds these processes, which run these archetypes, each with the names that it writes.
fn add_process_module_names(
    alloc: Global,
    archetypes: &[Archetype],
    own: &OwnNames,
    list: &[Process],
    out: &mut Vec<ModuleName>,
) -> Result<(), AllocError>
    requires own { (x : Name) → own_in (see_own own.now) x ≡ spec.or_none (find x (spec.own_rows 0 archetypes.now)) }
    ensures { IfOk result (λ _. out.new.items ≡ out.old.items ++ spec.process_module_names (spec.own_rows 0 archetypes.now) list.now) }
{
    for p in list {
        add_itself(alloc, false, &p.name.name, p.name.place, out)?;
        add_own_module_names(alloc, p, own_of(own, &p.archetype.name), out)?;
    }
    Ok(())
}

/// These names in the order of the text.
fn sorted(list: Vec<ModuleName>) -> Result<Vec<ModuleName>, AllocError>
    ensures { IfOk result (λ v. v.items ≡ in_text_order (λ t. t.place) list.items) }
{
    let mut list = list;
    list.sort_by_key(|t| t.place)?;
    Ok(list)
}

/// All names: the fixed ones, and then the others in the order of the text.
pub fn module_names(alloc: Global, s: &Spec, uses: &[Use]) -> Result<Vec<ModuleName>, AllocError>
    ensures { IfOk result (λ v. v.items ≡ spec.module_names_with s.now uses.now) }
{
    let mut placed = Vec::new(alloc);
    let shared = shared_names(alloc, s)?;
    add_shared(alloc, shared.as_slice(), &mut placed)?;
    let archetypes = s.archetypes.as_slice();
    let own = all_own(alloc, archetypes)?;
    let processes = s.processes.as_slice();
    add_process_module_names(alloc, archetypes, &own, processes, &mut placed)?;
    add_bound_module_names(alloc, uses, &mut placed)?;
    let mut all = Vec::new(alloc);
    add_fixed(alloc, &mut all)?;
    for t in sorted(placed)? {
        all.push(t)?;
    }
    Ok(all)
}
