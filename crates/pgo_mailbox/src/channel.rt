// The reliable channel, told by the tree of its mapping macro.
ghost use Rattle.std.specs.Prelude.{◌≡◌, codes, option_map, IfOk};
ghost use Rattle.pgo_base.specs.ExprView.{tree};
ghost use Rattle.pgo_base.specs.Tree.{trees};
ghost use Rattle.pgo_base.specs.View.{data_of};
ghost use Rattle.pgo_syntax.specs.StatementView.{statement, labeled_pair};
ghost use Rattle.pgo_mailbox.specs.Recognised.{Recognised};
ghost use Rattle.pgo_mailbox.specs.Tests as tests;

use pgo_base::expr::{Expr, Exprs, Infix, Sub};
use pgo_base::text::Text;
use pgo_base::value::Value;
use pgo_syntax::assignment::Assignment;
use pgo_syntax::binding::{Origin, WithName};
use pgo_syntax::bound::Mapping;
use pgo_syntax::macros::MappingMacro;
use pgo_syntax::statement::{Block, Labeled, Stmt};
use std::alloc::{AllocError, Global};

/// What a reliable channel has of its own: its capacity, an expression, which is a name.
#[derive(Drop)]
pub struct BoxKind {
    pub capacity: Sub,
}

impl BoxKind {
    /// The same kind once more.
    pub fn copy(&self, alloc: Global) -> Result<BoxKind, AllocError>
        ensures { IfOk result (λ k. k ≡ self.now) }
    {
        Ok(BoxKind {
            capacity: self.capacity.copy(alloc)?,
        })
    }
}

/// The kind of a mapping macro that is the reliable channel, with any names for the macro, the message and the capacity; none
/// of every other macro.
///
///     read { await Len($variable) > 0; with (m = Head($variable)) { $variable := Tail($variable); yield m; }; }
///     write { await Len($variable) < c; yield Append($variable, $value); }
///
/// Err only where there is no memory. Source: this project's choice.
pub fn recognise(alloc: Global, m: &MappingMacro) -> Result<Option<BoxKind>, AllocError>
    ensures is { IfOk result (Recognised m.now) }
    ensures tested { IfOk result (λ o. option_map (λ k. k.capacity) o ≡ tests.channel_capacity m.now) }
{
    match channel_capacity(m) {
        None => Ok(None),
        Some(c) => Ok(Some(BoxKind {
            capacity: c.copy(alloc)?,
        })),
    }
}

/// The capacity of a reliable channel.
fn channel_capacity(m: &MappingMacro) -> Option<&Sub>
    ensures { option_map (λ c. c.now) result ≡ tests.channel_capacity m.now }
{
    if is_read(&m.read) {
        write_limit(&m.write)
    } else {
        None
    }
}

/// Whether a read by the mapping, of the whole, takes the first message.
pub(crate) fn takes_first(m: &Mapping, at: Option<&Value>) -> bool
    ensures { result ≡ tests.takes_first m.now (option_map (λ v. data_of v.now) at.entry) }
{
    match (m, at) {
        (Mapping::Macro(m), None) => is_read(&m.read),
        _ => false,
    }
}

/// The capacity of a write by the mapping, of the whole, that puts a message behind the last.
pub(crate) fn whole_limit<'a>(m: &'a Mapping, at: Option<&Value>) -> Option<&'a Sub>
    ensures { option_map (λ c. c.now) result ≡ tests.whole_limit m.entry.now (option_map (λ v. data_of v.now) at.entry) }
{
    match (m, at) {
        (Mapping::Macro(m), None) => write_limit(&m.write),
        _ => None,
    }
}

/// The channel's read.
fn is_read(b: &Block) -> bool
    ensures { result ≡ tests.is_read b.now }
{
    match two(b) {
        Some((first, second)) => awaits_message(first) && takes_message(second),
        None => false,
    }
}

/// The capacity in the channel's write.
fn write_limit(b: &Block) -> Option<&Sub>
    ensures { option_map (λ c. c.now) result ≡ tests.write_limit b.now }
{
    match two(b) {
        Some((first, second)) if yields_append(second) => limit_of(first),
        _ => None,
    }
}

/// The statements of a block of two, which have no labels.
fn two(b: &Block) -> Option<(&Stmt, &Stmt)>
    ensures { option_map (λ r. (statement r.0.now, statement r.1.now)) result ≡ tests.two b.now }
{
    let rows = b.as_slice();
    if rows.len() == 2 {
        pair(&rows[0], &rows[1])
    } else {
        None
    }
}

/// Two statements that have no labels.
fn pair<'a>(a: &'a Labeled, b: &'a Labeled) -> Option<(&'a Stmt, &'a Stmt)>
    ensures { option_map (λ r. (statement r.0.now, statement r.1.now)) result ≡ tests.pair (labeled_pair a.entry.now) (labeled_pair b.entry.now) }
{
    match (&a.label, &b.label) {
        (None, None) => Some((&a.statement, &b.statement)),
        _ => None,
    }
}

/// `await Len($variable) > 0`
fn awaits_message(s: &Stmt) -> bool
    ensures { result ≡ tests.awaits_message (statement s.now) }
{
    match s {
        Stmt::Await(_, e) => is_filled(e.get()),
        _ => false,
    }
}

/// `with (m = Head($variable)) { .. }`
fn takes_message(s: &Stmt) -> bool
    ensures { result ≡ tests.takes_message (statement s.now) }
{
    match s {
        Stmt::With(_, list, t) => takes_alone(list.as_slice(), t.get()),
        _ => false,
    }
}

/// The same, by its names.
fn takes_alone(list: &[WithName], t: &Stmt) -> bool
    ensures { result ≡ tests.takes_alone list.now (statement t.now) }
{
    list.len() == 1 && takes_under(&list[0], t)
}

/// The same, by its one name.
fn takes_under(w: &WithName, t: &Stmt) -> bool
    ensures { result ≡ tests.takes_under w.now (statement t.now) }
{
    !w.name.name.is_bytes(b"$variable") && is_head(&w.origin) && is_rest(&w.name.name, t)
}

/// `= Head($variable)`
fn is_head(o: &Origin) -> bool
    ensures { result ≡ tests.is_head o.now }
{
    match o {
        Origin::Equals(e) => is_of_content(b"Head", e.get()),
        Origin::In(_) => false,
    }
}

/// `{ $variable := Tail($variable); yield x; }`
fn is_rest(x: &Text, s: &Stmt) -> bool
    ensures { result ≡ tests.is_rest x.now (statement s.now) }
{
    match s {
        Stmt::Block(_, b) => rest_in(x, b),
        _ => false,
    }
}

/// The same, by its statements.
fn rest_in(x: &Text, b: &Block) -> bool
    ensures { result ≡ tests.rest_in x.now b.now }
{
    match two(b) {
        Some((first, second)) => drops_first(first) && is_yield(x, second),
        None => false,
    }
}

/// `$variable := Tail($variable)`
fn drops_first(s: &Stmt) -> bool
    ensures { result ≡ tests.drops_first (statement s.now) }
{
    match s {
        Stmt::Assign(_, list) => is_tail_alone(list.as_slice()),
        _ => false,
    }
}

/// The same, by its assignments.
fn is_tail_alone(list: &[Assignment]) -> bool
    ensures { result ≡ tests.is_tail_alone list.now }
{
    list.len() == 1 && is_tail(&list[0])
}

/// The same, by its one assignment.
fn is_tail(a: &Assignment) -> bool
    ensures { result ≡ tests.is_tail a.now }
{
    let is_whole = a.left.path.as_slice().is_empty();
    a.left.name.name.is_bytes(b"$variable") && is_whole && is_of_content(b"Tail", a.right.get())
}

/// `yield x`
fn is_yield(x: &Text, s: &Stmt) -> bool
    ensures { result ≡ tests.is_yield x.now (statement s.now) }
{
    match s {
        Stmt::Yield(_, e) => is_name(x.as_bytes(), e.get()),
        _ => false,
    }
}

/// `yield Append($variable, $value)`
fn yields_append(s: &Stmt) -> bool
    ensures { result ≡ tests.yields_append (statement s.now) }
{
    match s {
        Stmt::Yield(_, e) => is_append(e.get()),
        _ => false,
    }
}

/// The c of `await Len($variable) < c`.
fn limit_of(s: &Stmt) -> Option<&Sub>
    ensures { option_map (λ c. c.now) result ≡ tests.limit_of (statement s.now) }
{
    match s {
        Stmt::Await(_, e) => limit_in(e.get()),
        _ => None,
    }
}

/// The c of `Len($variable) < c`.
fn limit_in(e: &Expr) -> Option<&Sub>
    ensures { option_map (λ c. c.now) result ≡ tests.limit_in (tree e.now) }
{
    match e {
        Expr::Infix(Infix::Less, a, b) => {
            if is_of_content(b"Len", a.get()) {
                limit(b)
            } else {
                None
            }
        }
        _ => None,
    }
}

/// A name but those of the content and the value.
fn limit(e: &Sub) -> Option<&Sub>
    ensures { option_map (λ c. c.now) result ≡ tests.limit e.now }
{
    if is_free(e.get()) { Some(e) } else { None }
}

/// Whether it is a name but those of the content and the value.
fn is_free(e: &Expr) -> bool
    ensures { result ≡ tests.is_free (tree e.now) }
{
    match e {
        Expr::Name(x) => !x.is_bytes(b"$variable") && !x.is_bytes(b"$value"),
        _ => false,
    }
}

/// `Len($variable) > 0`
fn is_filled(e: &Expr) -> bool
    ensures { result ≡ tests.is_filled (tree e.now) }
{
    match e {
        Expr::Infix(Infix::Greater, a, b) => is_of_content(b"Len", a.get()) && is_zero(b.get()),
        _ => false,
    }
}

/// The number 0.
fn is_zero(e: &Expr) -> bool
    ensures { result ≡ tests.is_zero (tree e.now) }
{
    match e {
        Expr::Number(0) => true,
        _ => false,
    }
}

/// `f($variable)`
fn is_of_content(f: &[u8], e: &Expr) -> bool
    ensures { result ≡ tests.is_of_content f.now (tree e.now) }
{
    match e {
        Expr::Call(g, list) => g.is_bytes(f) && is_content_alone(list),
        _ => false,
    }
}

/// The one expression `$variable`.
fn is_content_alone(list: &Exprs) -> bool
    ensures { result ≡ tests.is_content_alone (trees list.now) }
{
    let items = list.as_slice();
    if items.len() == 1 {
        is_name(b"$variable", &items[0])
    } else {
        false
    }
}

/// `Append($variable, $value)`
fn is_append(e: &Expr) -> bool
    ensures { result ≡ tests.is_append (tree e.now) }
{
    match e {
        Expr::Call(g, list) => g.is_bytes(b"Append") && are_both(list),
        _ => false,
    }
}

/// `$variable` and `$value`.
fn are_both(list: &Exprs) -> bool
    ensures { result ≡ tests.are_both (trees list.now) }
{
    let items = list.as_slice();
    if items.len() == 2 {
        are_names(&items[0], &items[1])
    } else {
        false
    }
}

/// `$variable`, and `$value`.
fn are_names(a: &Expr, b: &Expr) -> bool
    ensures { result ≡ tests.are_names (tree a.now) (tree b.now) }
{
    is_name(b"$variable", a) && is_name(b"$value", b)
}

/// Whether an expression is this name.
fn is_name(x: &[u8], e: &Expr) -> bool
    ensures { result ≡ tests.is_name x.now (tree e.now) }
{
    match e {
        Expr::Name(y) => y.is_bytes(x),
        _ => false,
    }
}
