// The lines of a module, by its tokens.
ghost use Rattle.std.specs.Prelude.{◌≡◌, is_some};
ghost use Rattle.pgo_expr_read.specs.Lookahead as look;
ghost use Rattle.pgo_expr_read.specs.Steps.{Reads, Makes};
ghost use Rattle.pgo_mpcal_read.specs.ReadingSpec.{whole};
ghost use Rattle.pgo_module_read.specs.Reading as spec;

use crate::rows::{actions, bare, body_of, definitions};
use pgo_base::expr::{Infix, Names, Sub};
use pgo_base::items::Items;
use pgo_base::module::{Action, Defs};
use pgo_base::text::Text;
use pgo_expr_read::sign::is_mapped;
use pgo_lexer::errors::TextStop;
use pgo_lexer::symbol::{Bracket, Symbol};
use pgo_lexer::token::Lexeme;
use pgo_mpcal_read::cursor::Cursor;
use pgo_mpcal_read::header::dashes;
use pgo_mpcal_read::item::items;
use std::alloc::Global;

/// What a module declares.
#[derive(Drop)]
pub struct Declared {
    pub name: Text,
    /// Behind CONSTANTS.
    pub constants: Names,
    pub definitions: Defs,
    /// Behind VARIABLES.
    pub variables: Names,
}

/// The definitions behind the variables.
#[derive(Drop)]
pub struct Further {
    pub vars: Sub,
    /// The body of ProcSet.
    pub sets: Sub,
    pub init: Sub,
    /// Those with the parameter `self`.
    pub actions: Items<Action>,
    /// The body of Terminating.
    pub ending: Sub,
    pub next: Sub,
}

/// A module as its lines have it.
#[derive(Drop)]
pub struct Lines {
    pub declared: Declared,
    pub further: Further,
}

/// `EXTENDS Integers, Sequences`
fn first_modules(cursor: &mut Cursor<'_>) -> Result<(), TextStop>
    ensures { Reads (spec.fixed spec.first_modules cursor.old) result cursor.new }
{
    cursor.expect_word(b"EXTENDS")?;
    cursor.expect_word(b"Integers")?;
    cursor.expect(Symbol::Comma)?;
    cursor.expect_word(b"Sequences")?;
    Ok(())
}

/// `, FiniteSets, TLC`
fn last_modules(cursor: &mut Cursor<'_>) -> Result<(), TextStop>
    ensures { Reads (spec.fixed spec.last_modules cursor.old) result cursor.new }
{
    cursor.expect(Symbol::Comma)?;
    cursor.expect_word(b"FiniteSets")?;
    cursor.expect(Symbol::Comma)?;
    cursor.expect_word(b"TLC")?;
    Ok(())
}

/// The lines of MODULE and of EXTENDS.
#[tactic(auto, unfolding(crate::specs::Reading::heading))]
pub fn heading(alloc: Global, cursor: &mut Cursor<'_>) -> Result<Text, TextStop>
    ensures { Reads (spec.heading cursor.old) result cursor.new }
{
    dashes(cursor)?;
    cursor.expect_word(b"MODULE")?;
    let name = cursor.name(alloc)?;
    dashes(cursor)?;
    first_modules(cursor)?;
    last_modules(cursor)?;
    Ok(name.name)
}

/// Names behind this word.
#[tactic(auto, unfolding(crate::specs::Reading::names_behind))]
pub fn names_behind(alloc: Global, cursor: &mut Cursor<'_>, word: &[u8]) -> Result<Names, TextStop>
    ensures { Reads (spec.names_behind word.now cursor.old) result cursor.new }
{
    cursor.expect_word(word)?;
    let list = items(alloc, cursor, Symbol::Comma)?;
    Ok(bare(alloc, list)?)
}

/// `Spec == Init /\ []`
pub fn spec_begins(cursor: &mut Cursor<'_>) -> Result<(), TextStop>
    ensures { Reads (spec.fixed spec.spec_begins cursor.old) result cursor.new }
{
    cursor.expect_word(b"Spec")?;
    cursor.expect(Symbol::Defines)?;
    cursor.expect_word(b"Init")?;
    cursor.expect(Symbol::Infix(Infix::And))?;
    cursor.expect(Symbol::Box)?;
    Ok(())
}

/// `[Next]_vars`
pub fn all_steps(cursor: &mut Cursor<'_>) -> Result<(), TextStop>
    ensures { Reads (spec.fixed spec.all_steps cursor.old) result cursor.new }
{
    cursor.expect(Symbol::Open(Bracket::Square))?;
    cursor.expect_word(b"Next")?;
    cursor.expect(Symbol::Close(Bracket::Square))?;
    cursor.expect_word(b"_vars")?;
    Ok(())
}

/// The line of Spec, and the closing row.
#[tactic(auto, unfolding(crate::specs::Reading::ending))]
fn ending(cursor: &mut Cursor<'_>) -> Result<(), TextStop>
    ensures { Reads (spec.ending cursor.old) result cursor.new }
{
    spec_begins(cursor)?;
    all_steps(cursor)?;
    cursor.expect(Symbol::Defines)?;
    cursor.expect(Symbol::Defines)?;
    Ok(())
}

/// The name and the constants.
#[tactic(auto, unfolding(crate::specs::Reading::title))]
fn title(alloc: Global, cursor: &mut Cursor<'_>) -> Result<(Text, Names), TextStop>
    ensures { Reads (spec.title cursor.old) result cursor.new }
{
    let name = heading(alloc, cursor)?;
    let constants = names_behind(alloc, cursor, b"CONSTANTS")?;
    Ok((name, constants))
}

/// The definitions and the variables.
#[tactic(auto, unfolding(crate::specs::Reading::definitions_and_variables))]
pub fn definitions_and_variables(
    alloc: Global,
    cursor: &mut Cursor<'_>,
) -> Result<(Defs, Names), TextStop>
    ensures { Reads (spec.definitions_and_variables cursor.old) result cursor.new }
{
    let list = definitions(alloc, cursor)?;
    let variables = names_behind(alloc, cursor, b"VARIABLES")?;
    Ok((list, variables))
}

#[tactic(auto, unfolding(crate::specs::Reading::read_declared))]
fn read_declared(alloc: Global, cursor: &mut Cursor<'_>) -> Result<Declared, TextStop>
    ensures { Reads (spec.read_declared cursor.old) result cursor.new }
{
    let (name, constants) = title(alloc, cursor)?;
    let (definitions, variables) = definitions_and_variables(alloc, cursor)?;
    Ok(Declared {
        name,
        constants,
        definitions,
        variables,
    })
}

/// The bodies of `vars`, ProcSet and Init.
#[tactic(auto, unfolding(crate::specs::Reading::bodies_before))]
fn bodies_before(alloc: Global, cursor: &mut Cursor<'_>) -> Result<(Sub, (Sub, Sub)), TextStop>
    ensures { Reads (spec.bodies_before cursor.old) result cursor.new }
{
    let vars = body_of(alloc, cursor, b"vars")?;
    let sets = body_of(alloc, cursor, b"ProcSet")?;
    let init = body_of(alloc, cursor, b"Init")?;
    Ok((vars, (sets, init)))
}

/// The bodies of Terminating and Next.
#[tactic(auto, unfolding(crate::specs::Reading::bodies_behind))]
fn bodies_behind(alloc: Global, cursor: &mut Cursor<'_>) -> Result<(Sub, Sub), TextStop>
    ensures { Reads (spec.bodies_behind cursor.old) result cursor.new }
{
    let ending = body_of(alloc, cursor, b"Terminating")?;
    let next = body_of(alloc, cursor, b"Next")?;
    Ok((ending, next))
}

#[tactic(auto, unfolding(crate::specs::Reading::read_further))]
fn read_further(alloc: Global, cursor: &mut Cursor<'_>) -> Result<Further, TextStop>
    ensures { Reads (spec.read_further cursor.old) result cursor.new }
{
    let (vars, (sets, init)) = bodies_before(alloc, cursor)?;
    let list = actions(alloc, cursor)?;
    let (ending, next) = bodies_behind(alloc, cursor)?;
    Ok(Further {
        vars,
        sets,
        init,
        actions: list,
        ending,
        next,
    })
}

#[tactic(auto, unfolding(crate::specs::Reading::read_lines))]
fn read_lines(alloc: Global, cursor: &mut Cursor<'_>) -> Result<Lines, TextStop>
    ensures { Reads (spec.read_lines cursor.old) result cursor.new }
{
    let declared = read_declared(alloc, cursor)?;
    let further = read_further(alloc, cursor)?;
    ending(cursor)?;
    Ok(Lines { declared, further })
}

/// The lines that are all of these tokens.
fn whole_lines(alloc: Global, tokens: &[Lexeme], end: u64) -> Result<Lines, TextStop>
    ensures { Makes (whole (spec.read_lines tokens.now)) result }
{
    let mut cursor = Cursor::new(tokens, end);
    let all = read_lines(alloc, &mut cursor)?;
    if cursor.left() == 0 {
        Ok(all)
    } else {
        Err(cursor.refuse())
    }
}

/// The offset of the first `$variable` or `$value`.
pub fn mapped(tokens: &[Lexeme]) -> Option<usize>
    ensures { is_some result ≡ look.has_mapped (look.tokens_of tokens.now) }
{
    for lexeme in tokens {
        if is_mapped(&lexeme.token) {
            return Some(lexeme.start);
        }
    }
    None
}

/// The lines of a module whose text ends at an offset. It has no `$variable` and no `$value`.
#[tactic(auto, unfolding(crate::specs::Reading::all_lines))]
pub fn all_lines(alloc: Global, tokens: &[Lexeme], end: u64) -> Result<Lines, TextStop>
    ensures { Makes (spec.all_lines tokens.now) result }
{
    match mapped(tokens) {
        Some(start) => Err(TextStop::at(start)),
        None => whole_lines(alloc, tokens, end),
    }
}
