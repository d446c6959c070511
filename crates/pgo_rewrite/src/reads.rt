// Mapped reads that come before an expression.
ghost use Rattle.std.specs.Prelude.{◌≡◌, suc, [], ◌∷◌, ◌++◌, None, Some, IfOk};
ghost use Rattle.pgo_base.specs.ExprView.{tree};
ghost use Rattle.pgo_rewrite.specs.Views.{mapped_view, read_view, read_views};
ghost use Rattle.pgo_sections.specs.Access.{place as place_name, read_whole as whole, read_element as element};

use crate::lists::push_item;
use crate::mapped::Mapped;
use pgo_base::expr::Expr;
use pgo_base::text::Text;
use std::alloc::{AllocError, Global};

/// A read that comes before an expression: of what, at which index and the name under which that stands, and the name under which the
/// value stands.
#[derive(Drop)]
pub struct Read<'a> {
    pub mapped: Mapped<'a>,
    pub index: Option<(Text, Expr)>,
    pub value: Text,
}

/// An expression with its mapped reads hoisted out of it: the reads in order, what is left, and how many places are in use.
#[derive(Drop)]
pub struct Hoisted<'a> {
    pub reads: Vec<Read<'a>>,
    pub rest: Expr,
    pub used: u64,
}

/// The name of the place number `k`: `k + 1` times `#`.
///
/// Err only where there is no memory.
pub fn place(alloc: Global, k: u64) -> Result<Text, AllocError>
    ensures { IfOk result (λ t. t ≡ place_name k) }
{
    let mut bytes = Vec::new(alloc);
    bytes.push(b'#')?;
    for _i in 0..k {
        bytes.push(b'#')?;
    }
    Ok(Text::from_bytes(bytes)?)
}

/// The name of the place number `k`, and the number behind it, which is the length of that name.
///
/// Err only where there is no memory.
#[tactic(auto, using(crate::proofs::Places::place_length))]
pub fn next_place(alloc: Global, k: u64) -> Result<(Text, u64), AllocError>
    ensures name { IfOk result (λ r. r.0 ≡ place_name k) }
    ensures next { IfOk result (λ r. r.1 ≡ suc k) }
{
    let name = place(alloc, k)?;
    let next = name.as_bytes().len() as u64;
    Ok((name, next))
}

/// The places that the read of an element takes: of its index and twice of its value; and how many are in use then.
#[derive(Drop)]
struct ElementNames {
    at: Text,
    value: Text,
    rest: Text,
    used: u64,
}

/// The places that the read of an element takes where `k` are in use.
fn element_names(alloc: Global, k: u64) -> Result<ElementNames, AllocError>
    ensures at { IfOk result (λ n. n.at ≡ place_name k) }
    ensures value { IfOk result (λ n. n.value ≡ place_name (suc k)) }
    ensures rest { IfOk result (λ n. n.rest ≡ place_name (suc k)) }
    ensures used { IfOk result (λ n. n.used ≡ suc (suc k)) }
{
    let (at, next) = next_place(alloc, k)?;
    let (value, used) = next_place(alloc, next)?;
    let rest = place(alloc, next)?;
    Ok(ElementNames {
        at,
        value,
        rest,
        used,
    })
}

/// The reads so far, and how many places are in use.
#[derive(Drop)]
pub(crate) struct Reads<'a> {
    pub list: Vec<Read<'a>>,
    pub used: u64,
}

/// A read of a global as a whole.
fn whole_read<'a>(mapped: Mapped<'a>, value: Text) -> Read<'a>
    ensures { read_view result ≡ record { mapped = mapped_view mapped.entry; index = None; value = value } }
{
    Read {
        mapped,
        index: None,
        value,
    }
}

/// A read of an element.
fn element_read<'a>(mapped: Mapped<'a>, at: Text, index: Expr, value: Text) -> Read<'a>
    ensures { read_view result ≡ record { mapped = mapped_view mapped.entry; index = Some (at, tree index); value = value } }
{
    Read {
        mapped,
        index: Some((at, index)),
        value,
    }
}

impl<'a> Reads<'a> {
    /// Adds a read.
    fn add(&mut self, read: Read<'a>, used: u64) -> Result<(), AllocError>
        ensures reads { IfOk result (λ _. read_views self.new.list.items ≡ read_views self.old.list.items ++ read_view read.entry ∷ []) }
        ensures used { IfOk result (λ _. self.new.used ≡ used) }
    {
        self.used = used;
        push_item(&mut self.list, read)?;
        Ok(())
    }
}

impl<'a> Reads<'a> {
    /// Adds a read of a global as a whole, and gives the name of its value.
    pub(crate) fn read_whole(
        &mut self,
        alloc: Global,
        mapped: Mapped<'a>,
    ) -> Result<Expr, AllocError>
        ensures rest { IfOk result (λ e. tree e ≡ (whole (mapped_view mapped.entry) self.old.used).rest) }
        ensures reads { IfOk result (λ _. read_views self.new.list.items ≡ read_views self.old.list.items ++ (whole (mapped_view mapped.entry) self.old.used).reads) }
        ensures used { IfOk result (λ _. self.new.used ≡ (whole (mapped_view mapped.entry) self.old.used).used) }
    {
        let k = self.used;
        let (value, next) = next_place(alloc, k)?;
        let rest = place(alloc, k)?;
        self.add(whole_read(mapped, value), next)?;
        Ok(Expr::Name(rest))
    }

    /// Adds a read of an element, and gives the name of its value.
    pub(crate) fn read_element(
        &mut self,
        alloc: Global,
        mapped: Mapped<'a>,
        index: Expr,
    ) -> Result<Expr, AllocError>
        ensures rest { IfOk result (λ e. tree e ≡ (element (mapped_view mapped.entry) (tree index) self.old.used).rest) }
        ensures reads { IfOk result (λ _. read_views self.new.list.items ≡ read_views self.old.list.items ++ (element (mapped_view mapped.entry) (tree index) self.old.used).reads) }
        ensures used { IfOk result (λ _. self.new.used ≡ (element (mapped_view mapped.entry) (tree index) self.old.used).used) }
    {
        let names = element_names(alloc, self.used)?;
        let read = element_read(mapped, names.at, index, names.value);
        self.add(read, names.used)?;
        Ok(Expr::Name(names.rest))
    }
}
