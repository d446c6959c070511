// Where a text that spells no module is refused: the first token that can't follow those before it.
ghost use Rattle.std.specs.Prelude.{length};
ghost use Rattle.pgo_expr_read.specs.Stops.{IsWithin};

use crate::build::{tuple_of, without_default};
use crate::difference::expect_tree;
use crate::front::marked_front;
use crate::lines::{all_steps, definitions_and_variables, heading, names_behind, spec_begins};
use crate::processes::{MOST_ACTIONS, has_some, is_action_of};
use crate::rows::{body_of, expression, with_self};
use crate::same::same_tree;
use crate::steps::union_parts;
use pgo_base::consts::Consts;
use pgo_base::expr::{Names, Sub};
use pgo_base::module::{Action, Actions, Defs, Module, Processes, WrittenProcess};
use pgo_base::results::both;
use pgo_base::slices::first;
use pgo_base::text::Text;
use pgo_base::value::Value;
use pgo_expr_read::stops::within;
use pgo_lexer::errors::TextStop;
use pgo_lexer::piece::{Piece, first_piece};
use pgo_lexer::symbol::{Bracket, Symbol};
use pgo_lexer::token::{Lexeme, Token};
use pgo_module_trees::further::{next_body, process_body, terminating_body};
use pgo_module_trees::small::name_of;
use pgo_mpcal_read::cursor::Cursor;
use std::alloc::{AllocError, Global};

/// The most processes: Next has an alternative for each and one more, and is no higher than an expression may be.
const MOST_PROCESSES: usize = 509;

/// The greatest height of ProcSet: Next is higher by two.
const MOST_SET_HEIGHT: u32 = 510;

/// The processes so far, how many there may be, and the label actions of the next one.
#[derive(Drop)]
struct Begun {
    most: usize,
    names: Names,
    next: WrittenProcess,
}

fn is_name_token(token: &Option<Token>) -> bool {
    match token {
        Some(Token::Name(_)) => true,
        _ => false,
    }
}

fn is_all_name(piece: &Option<Piece>, word: &[u8]) -> bool {
    match piece {
        None => false,
        Some(piece) => piece.length == word.len() && is_name_token(&piece.token),
    }
}

/// Whether a process may have this name.
fn is_name(alloc: Global, word: &[u8]) -> Result<bool, AllocError> {
    let piece = first_piece(alloc, word)?;
    Ok(is_all_name(&piece, word))
}

fn are_actions_of(process: &[u8], actions: &[Action]) -> bool {
    for action in actions {
        if !is_action_of(process, action.name.as_bytes()) {
            return false;
        }
    }
    true
}

impl Begun {
    /// No process, where there may be so many.
    fn new(alloc: Global, most: usize) -> Result<Begun, AllocError> {
        let next = WrittenProcess {
            name: Text::new(alloc),
            ids: name_of(alloc, b"ProcSet")?,
            actions: Actions::new(alloc),
        };
        Ok(Begun {
            most,
            names: Names::new(alloc),
            next,
        })
    }

    /// Whether the process with these label actions may have this name.
    fn is_own(&self, name: &[u8]) -> bool {
        has_some(&self.next.actions) && are_actions_of(name, self.next.actions.as_slice())
    }

    /// Whether a label action may have this name: some process may have it beside the others.
    fn takes(&self, alloc: Global, name: &[u8]) -> Result<bool, AllocError> {
        let others = self.next.actions.as_slice();
        if others.len() >= MOST_ACTIONS || self.names.as_slice().len() >= self.most {
            return Ok(false);
        }
        for i in 0..name.len() {
            let process = first(name, i);
            if is_action_of(process, name) && are_actions_of(process, others) {
                if is_name(alloc, process)? {
                    return Ok(true);
                }
            }
        }
        Ok(false)
    }

    /// The process of the label actions has this name.
    fn finish(&mut self, alloc: Global, name: Text) -> Result<(), AllocError> {
        self.next.actions = Actions::new(alloc);
        self.names.push(name)?;
        Ok(())
    }

    /// A definition that may be a label action, or the process's own.
    fn either(
        &mut self,
        alloc: Global,
        cursor: &mut Cursor<'_>,
        name: Text,
    ) -> Result<(), TextStop> {
        let body = expression(alloc, cursor)?;
        if self.is_own(name.as_bytes()) {
            let own = process_body(alloc, &self.next)?;
            if same_tree(alloc, &body, &own)? {
                return Ok(self.finish(alloc, name)?);
            }
        }
        Ok(self.next.actions.push(Action { name, body })?)
    }

    /// A definition that can only be the process's own.
    fn own(&mut self, alloc: Global, cursor: &mut Cursor<'_>, name: Text) -> Result<(), TextStop> {
        let own = process_body(alloc, &self.next)?;
        expect_tree(alloc, cursor, &own)?;
        Ok(self.finish(alloc, name)?)
    }

    /// The next definition with the parameter `self`.
    fn definition(&mut self, alloc: Global, cursor: &mut Cursor<'_>) -> Result<(), TextStop> {
        let stop = cursor.refuse();
        let name = cursor.name(alloc)?;
        let name = name.name;
        let takes = self.takes(alloc, name.as_bytes())?;
        if !takes && !self.is_own(name.as_bytes()) {
            return Err(stop);
        }
        with_self(cursor)?;
        if takes {
            self.either(alloc, cursor, name)
        } else {
            self.own(alloc, cursor, name)
        }
    }
}

/// How many processes there may be, by the sides of ProcSet.
fn most_processes(sets: &Sub) -> usize {
    let mut sets = sets;
    for count in 1..MOST_PROCESSES {
        match union_parts(sets.get()) {
            None => return count,
            Some((others, _)) => sets = others,
        }
    }
    MOST_PROCESSES
}

/// The names of the processes, whose definitions are next.
fn process_names(alloc: Global, cursor: &mut Cursor<'_>, most: usize) -> Result<Names, TextStop> {
    let mut begun = Begun::new(alloc, most)?;
    for _turn in 0..cursor.left() {
        if cursor.sees_second(Symbol::Open(Bracket::Round)) {
            begun.definition(alloc, cursor)?;
        }
    }
    if has_some(&begun.next.actions) || begun.names.as_slice().len() == 0 {
        Err(cursor.refuse())
    } else {
        Ok(begun.names)
    }
}

/// The sides of a union, or all of it twice where it is the last.
fn parted<'a>(sets: &'a Sub, is_last: bool) -> (&'a Sub, &'a Sub) {
    match union_parts(sets.get()) {
        Some(sides) if !is_last => sides,
        _ => (sets, sets),
    }
}

fn process_with(alloc: Global, name: &Text, ids: &Sub) -> Result<WrittenProcess, AllocError> {
    let (name, ids) = both(name.copy(alloc), ids.copy(alloc))?;
    Ok(WrittenProcess {
        name,
        ids,
        actions: Actions::new(alloc),
    })
}

/// Processes of these names, with their sets by ProcSet.
fn processes_of(alloc: Global, names: &[Text], sets: &Sub) -> Result<Processes, AllocError> {
    let mut list = Vec::new(alloc);
    let mut sets = sets;
    for name in names.iter().rev() {
        let (others, ids) = parted(sets, list.len().saturating_add(1) == names.len());
        list.push(process_with(alloc, name, ids)?)?;
        sets = others;
    }
    list.reverse();
    Ok(Processes::from_vec(list))
}

/// The next constant, which must have this name. Another is refused so.
fn expect_constant(cursor: &mut Cursor<'_>, name: &[u8], others: TextStop) -> Result<(), TextStop> {
    if cursor.sees_name() && !cursor.sees_word(name) {
        Err(others)
    } else {
        cursor.expect_word(name)
    }
}

/// These constants, and then `defaultInitValue`. Where they are others, CONSTANTS is refused.
fn these_constants(cursor: &mut Cursor<'_>, constants: &[(Text, Value)]) -> Result<(), TextStop> {
    let others = cursor.refuse();
    cursor.expect_word(b"CONSTANTS")?;
    for given in constants {
        expect_constant(cursor, given.0.as_bytes(), others)?;
        cursor.expect(Symbol::Comma)?;
    }
    expect_constant(cursor, b"defaultInitValue", others)?;
    if cursor.sees(Symbol::Comma) {
        Err(others)
    } else {
        Ok(())
    }
}

/// Any constants, of which the last is `defaultInitValue`.
fn any_constants(alloc: Global, cursor: &mut Cursor<'_>) -> Result<(), TextStop> {
    let names = names_behind(alloc, cursor, b"CONSTANTS")?;
    match without_default(names) {
        Ok(_) => Ok(()),
        Err(_) => Err(cursor.refuse()),
    }
}

/// The lines up to the variables, of which the constants may be given.
fn declared(
    alloc: Global,
    cursor: &mut Cursor<'_>,
    constants: Option<&Consts>,
) -> Result<Names, TextStop> {
    let _name = heading(alloc, cursor)?;
    match constants {
        None => any_constants(alloc, cursor)?,
        Some(list) => these_constants(cursor, list.as_slice())?,
    }
    let (_definitions, variables) = definitions_and_variables(alloc, cursor)?;
    Ok(variables)
}

/// The definition of this name with this body.
fn defined_as(
    alloc: Global,
    cursor: &mut Cursor<'_>,
    name: &[u8],
    body: &Sub,
) -> Result<(), TextStop> {
    cursor.expect_word(name)?;
    cursor.expect(Symbol::Defines)?;
    expect_tree(alloc, cursor, body)
}

/// The body of ProcSet.
fn proc_set(alloc: Global, cursor: &mut Cursor<'_>) -> Result<Sub, TextStop> {
    cursor.expect_word(b"ProcSet")?;
    cursor.expect(Symbol::Defines)?;
    cursor.expression_within(alloc, MOST_SET_HEIGHT)
}

/// The definitions from `vars` to those of the processes, as far as they decide what stands behind them.
fn middle(alloc: Global, cursor: &mut Cursor<'_>, variables: Names) -> Result<Module, TextStop> {
    let vars = tuple_of(alloc, &variables)?;
    defined_as(alloc, cursor, b"vars", &vars)?;
    let sets = proc_set(alloc, cursor)?;
    let init = body_of(alloc, cursor, b"Init")?;
    let names = process_names(alloc, cursor, most_processes(&sets))?;
    let processes = processes_of(alloc, names.as_slice(), &sets)?;
    Ok(Module {
        name: Text::new(alloc),
        constants: Names::new(alloc),
        definitions: Defs::new(alloc),
        variables,
        init,
        processes,
    })
}

/// Whether nothing stands between the first two tokens.
fn touch(tokens: &[Lexeme]) -> bool {
    match tokens {
        [left, right, ..] => left.stop == right.start,
        _ => false,
    }
}

/// The closing row, whose first two `==` touch.
fn closing_row(cursor: &mut Cursor<'_>) -> Result<(), TextStop> {
    let stop = cursor.refuse();
    let is_row = touch(cursor.rest());
    cursor.expect(Symbol::Defines)?;
    if is_row && cursor.eat(Symbol::Defines) {
        Ok(())
    } else {
        Err(stop)
    }
}

/// The lines of a module, each as those before it allow.
fn lines(
    alloc: Global,
    cursor: &mut Cursor<'_>,
    constants: Option<&Consts>,
) -> Result<(), TextStop> {
    let variables = declared(alloc, cursor, constants)?;
    let m = middle(alloc, cursor, variables)?;
    let body = terminating_body(alloc, &m)?;
    defined_as(alloc, cursor, b"Terminating", &body)?;
    let body = next_body(alloc, &m)?;
    defined_as(alloc, cursor, b"Next", &body)?;
    spec_begins(cursor)?;
    all_steps(cursor)?;
    closing_row(cursor)
}

/// The first refusal, or that behind all lines.
fn refused(alloc: Global, text: &[u8], constants: Option<&Consts>) -> Result<TextStop, TextStop> {
    let (tokens, end) = marked_front(alloc, text)?;
    let mut cursor = Cursor::new(tokens.as_slice(), end as u64);
    lines(alloc, &mut cursor, constants)?;
    Ok(cursor.refuse())
}

/// Where a text that spells no module, or none with these constants, is refused: at the offset of the first token that can't follow
/// those before it, in any module; at that of CONSTANTS where a constant is another; at the text's length where there is none.
pub fn refusal(alloc: Global, text: &[u8], constants: Option<&Consts>) -> TextStop
    ensures { IsWithin (length text.now) result }
{
    match refused(alloc, text, constants) {
        Ok(stop) => within(stop, text.len()),
        Err(stop) => within(stop, text.len()),
    }
}
