// The reader of specifications.
ghost use Rattle.std.specs.Prelude.{◌≡◌, ◌≤◌, Some, IfOk, IfErr, IfSome, List, length, ℕ};
ghost use Rattle.pgo_lexer.specs.declared.token.Lexeme.{Lexeme};
ghost use Rattle.pgo_spec_text.specs.SpecText as layout;
ghost use Rattle.pgo_spec_text.specs.SpecText.{IsSpecText};
ghost use Rattle.pgo_syntax.specs.declared.spec.Spec.{Spec};
ghost use Rattle.pgo_expr_read.specs.Stops.{IsWithin};
ghost use Rattle.pgo_expr_read.specs.Steps.{Makes};
ghost use Rattle.pgo_mpcal_read.specs.ReadingSpec as spec;
ghost use Rattle.pgo_mpcal_read.specs.Spells.{declarations_of};
ghost use Rattle.pgo_mpcal_read.specs.DepthLimit.{Tells};
ghost use Rattle.pgo_mpcal_read.specs.Texts.{SpellsSpec, IsOrNoMemory};

use crate::allowed::{Context, if_allowed};
use crate::cursor::Cursor;
use crate::depth_limit::rows_too_deep;
use crate::depths::MacroDepths;
use crate::header::{Header, read_header};
use crate::units::{Units, algorithm};
use crate::whole_parts::MOST_DEPTH;
use pgo_expr_read::stops::within;
use pgo_lexer::errors::TextStop;
use pgo_lexer::token::Lexeme;
use pgo_spec_text::before::{SpecBefore, tokens_before};
use pgo_spec_text::parts::{SpecTokens, one_pair, spec_tokens};
use pgo_syntax::archetype::Archetype;
use pgo_syntax::declaration::Declarations;
use pgo_syntax::name::PlacedName;
use pgo_syntax::spec::Spec;
use std::alloc::Global;

/// A header that is all of these tokens.
fn whole_header(alloc: Global, tokens: &[Lexeme], end: u64) -> Result<Header, TextStop>
    ensures { Makes (spec.whole (spec.header tokens.now)) result }
{
    let mut cursor = Cursor::new(tokens, end);
    let h = read_header(alloc, &mut cursor)?;
    if cursor.left() == 0 {
        Ok(h)
    } else {
        Err(cursor.refuse())
    }
}

/// The header. It has no `$variable` and no `$value`.
#[tactic(auto, using(crate::proofs::IfAllowed::if_allowed_makes), unfolding(crate::specs::ReadingSpec::all_header))]
fn all_header(alloc: Global, tokens: &[Lexeme], end: u64) -> Result<Header, TextStop>
    ensures { Makes (spec.all_header tokens.now) result }
{
    let read = whole_header(alloc, tokens, end);
    if_allowed(
        Context::Plain,
        tokens,
        tokens,
        TextStop::Syntax { offset: end },
        read,
    )
}

/// An algorithm that is all of these tokens. It has a process, and no statement is too deep.
#[tactic(auto, unfolding(crate::specs::ReadingSpec::all_algorithm))]
fn all_algorithm(
    alloc: Global,
    tokens: &[Lexeme],
    end: u64,
) -> Result<(PlacedName, Units), TextStop>
    ensures { Makes (spec.all_algorithm tokens.now) result }
{
    let mut cursor = Cursor::new(tokens, end);
    let a = algorithm(alloc, &mut cursor)?;
    if cursor.left() != 0 {
        return Err(cursor.refuse());
    }
    match a.1.processes.as_slice() {
        [] => return Err(TextStop::at(last_start(tokens))),
        [_, ..] => {}
    }
    match too_deep_archetype(&a.1.depths, a.1.archetypes.as_slice()) {
        None => Ok(a),
        Some(place) => Err(TextStop::at(place as usize)),
    }
}

/// The place of a statement of these archetypes at which one is too deep, with these macros in the place of their calls; none
/// where none is.
fn too_deep_archetype(macros: &MacroDepths, list: &[Archetype]) -> Option<u32>
    ensures { Tells (spec.are_within_depth macros.now list.now) result }
{
    for a in list {
        let found = rows_too_deep(macros, a.body.as_slice(), MOST_DEPTH);
        if found.is_some() {
            return found;
        }
    }
    None
}

/// Where the last of these tokens begins.
fn last_start(tokens: &[Lexeme]) -> usize {
    match tokens {
        [] => 0,
        [.., last] => last.start,
    }
}

/// Those that were declared, if some were.
fn declarations_of(alloc: Global, globals: Option<Declarations>) -> Declarations
    ensures { result ≡ declarations_of globals }
{
    match globals {
        Some(declarations) => declarations,
        None => Declarations::new(alloc),
    }
}

/// A specification of these parts.
#[tactic(auto, unfolding(crate::specs::ReadingSpec::spec_of))]
fn spec_of(alloc: Global, h: Header, a: (PlacedName, Units)) -> Spec
    ensures { result ≡ spec.spec_of h a }
{
    let (name, units) = a;
    Spec {
        name: h.name,
        extends: h.extends,
        constants: h.constants,
        definitions: h.definitions,
        algorithm: name,
        define: units.define,
        macros: units.macros,
        mappings: units.mappings,
        archetypes: units.archetypes,
        globals: declarations_of(alloc, units.globals),
        processes: units.processes,
    }
}

/// The specification of a header and an algorithm.
#[tactic(auto, unfolding(crate::specs::ReadingSpec::spec))]
fn read_tokens(
    alloc: Global,
    header: &[Lexeme],
    header_end: u64,
    algorithm: &[Lexeme],
    end: u64,
) -> Result<Spec, TextStop>
    ensures { Makes (spec.spec header.now algorithm.now) result }
{
    let h = all_header(alloc, header, header_end)?;
    let a = all_algorithm(alloc, algorithm, end)?;
    Ok(spec_of(alloc, h, a))
}

/// Where the first of these tokens begins, or `end`.
fn first_start(tokens: &[Lexeme], end: u64) -> u64 {
    match tokens {
        [] => end,
        [first, ..] => first.start as u64,
    }
}

/// The refusal that was met before a fault at an offset; the fault, where none was.
fn before_fault<T: Drop>(read: Result<T, TextStop>, fault: usize) -> TextStop
    ensures { IsWithin fault result }
{
    match read {
        Ok(_) => TextStop::at(fault),
        Err(stop) => within(stop, fault),
    }
}

/// The first fault of a text of which these are the tokens before one.
fn fault_behind(alloc: Global, before: SpecBefore, fault: usize) -> TextStop
    requires header { before.header.fault ≤ fault }
    requires algorithm { IfSome before.algorithm (λ a. a.fault ≤ fault) }
    ensures { IsWithin fault result }
{
    let SpecBefore { header, algorithm } = before;
    let tokens = header.tokens.as_slice();
    let Some(a) = algorithm else {
        let read = all_header(alloc, tokens, header.fault as u64);
        return before_fault(read, header.fault);
    };
    let algorithm = a.tokens.as_slice();
    match all_header(alloc, tokens, first_start(algorithm, a.fault as u64)) {
        Ok(_) => before_fault(all_algorithm(alloc, algorithm, a.fault as u64), a.fault),
        Err(stop) => within(stop, a.fault),
    }
}

/// The first fault of a text that has one among its tokens at an offset: a token before it that can't stand at its place, or
/// this one.
fn first_fault(alloc: Global, text: &[u8], offset: u64) -> TextStop
    ensures { IsWithin offset result }
{
    match tokens_before(alloc, text, offset as usize) {
        Ok(before) => fault_behind(alloc, before, offset as usize),
        Err(_) => TextStop::NoMemory,
    }
}

/// The tokens of a specification's text.
fn parts_of(alloc: Global, text: &[u8]) -> Result<SpecTokens, TextStop>
    ensures found { IfOk result (λ p. IsSpecText text.now p.header p.algorithm) }
    ensures only { (header algorithm : List Lexeme) → IsSpecText text.now header algorithm → layout.IsOrNoMemory result header algorithm }
    ensures within { IfErr result (IsWithin (length text.now)) }
{
    match spec_tokens(alloc, text) {
        Ok(parts) => Ok(parts),
        Err(TextStop::Syntax { offset }) => Err(first_fault(alloc, text, offset)),
        Err(TextStop::NoMemory) => Err(TextStop::NoMemory),
    }
}

/// The specification of a header and an algorithm in a text of so many bytes.
fn read_parts(
    alloc: Global,
    header: &[Lexeme],
    algorithm: &[Lexeme],
    end: usize,
) -> Result<Spec, TextStop>
    ensures value { Makes (spec.spec header.now algorithm.now) result }
    ensures within { IfErr result (IsWithin end) }
{
    let length = end as u64;
    match read_tokens(
        alloc,
        header,
        first_start(algorithm, length),
        algorithm,
        length,
    ) {
        Ok(s) => Ok(s),
        Err(stop) => Err(within(stop, end)),
    }
}

/// The specification that a text spells.
fn read_text(alloc: Global, text: &[u8]) -> Result<Spec, TextStop>
    ensures found { IfOk result (λ s. SpellsSpec text.now s) }
    ensures only { (s : Spec) → SpellsSpec text.now s → IsOrNoMemory result s }
    ensures within { IfErr result (IsWithin (length text.now)) }
{
    let parts = parts_of(alloc, text)?;
    let algorithm = parts.algorithm.as_slice();
    let header = parts.header.as_slice();
    read_parts(alloc, header, algorithm, text.len())
}

/// The one specification that a text spells ("the PlusCal manual" has the statements, the Modular PlusCal paper archetypes,
/// mapping macros and instances; what stands in which place, and the limits, are this project's choice).
///
/// Expressions have at most height 128, and statements nest at most 128 deep, macros in the place of their calls; a text has
/// at most 262144 tokens, and an identifier at most 128 bytes. `Syntax` comes exactly where the text spells no
/// specification; its offset is that of the first token or byte that can't stand at its place, or the text's length. A text
/// with a token at 4 GiB or behind it is answered `NoMemory`.
pub fn read_spec(alloc: Global, text: &[u8]) -> Result<Spec, TextStop>
    ensures found { IfOk result (λ s. SpellsSpec text.now s) }
    // What the text spells is answered, unless memory runs out. So `Syntax` comes only where it spells nothing.
    ensures only { (s : Spec) → SpellsSpec text.now s → IsOrNoMemory result s }
    ensures within { IfErr result (IsWithin (length text.now)) }
{
    read_text(alloc, text)
}

/// A text spells at most one specification.
pub fn one_spec()
    ensures { (text : List ℕ) (s t : Spec) → SpellsSpec text s → SpellsSpec text t → s ≡ t }
{
    one_pair();
}
