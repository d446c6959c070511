// Texts of expressions and their canonical texts.
//
// `body T` begins a text whose canonical text is that of a body, without the outermost parentheses, and `mapped T` one that
// stands in a block of a mapping macro, where `$variable` and `$value` are operands. `height N` is the greatest height of an
// expression from there on. `operators` asks for the outermost operator of the tree and, of one between two operands, for those of
// the operands, with _ where there is none.
use crate::answer::Answer;
use crate::operators::operators;
use crate::texts::{Asked, Question};
use pgo_base::expr::Expr;
use pgo_expr_read::cursor::Cursor;
use pgo_expr_read::reader::{expr, read_expr};
use pgo_expr_write::write::{write_body, write_expr};
use pgo_lexer::token::Lexeme;
use pgo_lexer::tokenizer::tokens;
use std::alloc::AllocError;

pub fn answer(asked: &Asked<'_>) -> Result<Answer, AllocError> {
    match asked.question {
        Question::Mapped => mapped(asked),
        _ => alone(asked),
    }
}

/// The answer to a text that is an expression.
fn alone(asked: &Asked<'_>) -> Result<Answer, AllocError> {
    match read_expr(asked.alloc, asked.text, asked.limit) {
        Ok(e) => written(asked, &e),
        Err(stop) => Answer::refused(asked.alloc, stop, 0),
    }
}

/// The answer to a text of a mapping macro.
fn mapped(asked: &Asked<'_>) -> Result<Answer, AllocError> {
    match tokens(asked.alloc, asked.text, 100) {
        Ok(list) => mapped_tokens(asked, list.as_slice()),
        Err(stop) => Answer::refused(asked.alloc, stop, 0),
    }
}

/// Whether the expression that begins these tokens is all of them.
fn mapped_tokens(asked: &Asked<'_>, list: &[Lexeme]) -> Result<Answer, AllocError> {
    let mut cursor = Cursor::new(list, asked.text.len() as u64);
    match expr(asked.alloc, &mut cursor, asked.limit, 0) {
        Ok(read) if cursor.left() == 0 => written(asked, read.tree.get()),
        Ok(_) => Answer::refused(asked.alloc, cursor.refuse(), 0),
        Err(stop) => Answer::refused(asked.alloc, stop, 0),
    }
}

fn written(asked: &Asked<'_>, e: &Expr) -> Result<Answer, AllocError> {
    let alloc = asked.alloc;
    let text = match asked.question {
        Question::Operators => return Ok(Answer::Read(operators(alloc, e)?)),
        Question::Body => write_body(alloc, e),
        _ => write_expr(alloc, e),
    };
    match text {
        Ok(text) => Ok(Answer::Read(String::from_utf8_lossy(alloc, text.as_bytes())?)),
        Err(_) => Err(AllocError),
    }
}
