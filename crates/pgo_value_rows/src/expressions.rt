// Expressions: the value that one gives where it sees what the sheet says.
use crate::answers::{given, wanted};
use crate::scene::{HEIGHT, Scene};
use pgo_base::expr::{Expr, Exprs, Infix, Prefix, Sub};
use pgo_expr_read::reader::read_expr;
use pgo_sheet::answers::unless_same;
use pgo_sheet::sheet::Subject;
use pgo_sheet::text_builder::TextBuilder;
use std::alloc::{AllocError, Global};

/// What the expressions see, the expression that the row asks about, and how its tree is turned into one that no text has.
#[derive(Drop)]
pub struct Expressions {
    alloc: Global,
    scene: Scene,
    text: TextBuilder,
    turn: String,
}

impl Expressions {
    pub fn new(alloc: Global) -> Expressions {
        Expressions {
            alloc,
            scene: Scene::new(alloc),
            text: TextBuilder::new(alloc),
            turn: String::new(alloc),
        }
    }

    fn answer(&self) -> Result<String, AllocError> {
        match read_expr(self.alloc, self.text.text.as_slice(), HEIGHT) {
            Ok(e) => {
                let e = turned(self.alloc, &e, self.turn.as_str())?;
                given(self.alloc, self.scene.value_of(&e))
            }
            Err(stop) => format!(in self.alloc; "{stop}"),
        }
    }
}

impl Subject for Expressions {
    fn take(&mut self, key: &str, text: &str) -> Result<bool, AllocError> {
        match key {
            "eval" => return self.text.begin(text),
            "turn" => self.turn = String::from_str(self.alloc, text)?,
            "clear" => self.scene = Scene::new(self.alloc),
            _ => return Ok(self.text.take(key, text)? || self.scene.take(key, text)?),
        }
        Ok(true)
    }

    fn end(&mut self, text: &str) -> Result<Option<String>, AllocError> {
        let answer = self.answer()?;
        self.turn = String::new(self.alloc);
        let wanted = wanted(self.alloc, text)?;
        Ok(unless_same(answer, wanted.as_str()))
    }
}

/// The tree of an expression, turned at its root into one that no text has.
fn turned(alloc: Global, e: &Expr, turn: &str) -> Result<Expr, AllocError> {
    match e {
        Expr::Infix(Infix::In, a, b) => turned_membership(alloc, a, b, turn),
        Expr::Index(f, _) if turn == "no index" => {
            Ok(Expr::Index(f.copy(alloc)?, Exprs::new(alloc)))
        }
        Expr::Prefix(Prefix::Minus, n) if turn == "number" => negative(alloc, n.get()),
        e => e.copy(alloc),
    }
}

/// A membership of these operands, turned.
fn turned_membership(alloc: Global, a: &Sub, b: &Sub, turn: &str) -> Result<Expr, AllocError> {
    let op = match turn {
        "\\notin" => Infix::NotIn,
        "=" => Infix::Equal,
        "right" => return b.get().copy(alloc),
        _ => Infix::In,
    };
    Ok(Expr::Infix(op, a.copy(alloc)?, b.copy(alloc)?))
}

/// A number with its sign in it.
fn negative(alloc: Global, e: &Expr) -> Result<Expr, AllocError> {
    match e {
        Expr::Number(n) => Ok(Expr::Number(n.wrapping_neg())),
        e => e.copy(alloc),
    }
}
