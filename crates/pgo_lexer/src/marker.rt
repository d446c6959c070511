// The marks of junction lists, put in between the tokens that come one by one.
ghost use Rattle.std.specs.Prelude.{◌≡◌, ◌≤◌, [], ◌∷◌, ◌++◌, OnOk, IfOk, IfErr, MatchResult};
ghost use Rattle.std.specs.List.{All};
ghost use Rattle.pgo_lexer.specs.Answers.{Gives, ok_as};
ghost use Rattle.pgo_lexer.specs.Ends.{IsRefusal};
ghost use Rattle.pgo_lexer.specs.Offsets.{IsAt, IsWithin};
ghost use Rattle.pgo_lexer.specs.Layout as layout;
ghost use Rattle.pgo_lexer.specs.Kinds as kinds;
ghost use Rattle.pgo_lexer.specs.Marking as spec;

use crate::errors::TextStop;
use crate::kind::{Role, ends_operand, is_junction, is_same_bracket, kind_of, role_of};
use crate::stack::{Frame, Stack};
use crate::symbol::Bracket;
use crate::token::{Lexeme, Token, Tokens};
use std::alloc::Global;

/// The tokens and marks so far, what is open, and whether an operand may end with the last token.
#[derive(Drop)]
pub struct Marker {
    pub out: Tokens,
    pub frames: Stack,
    pub after_operand: bool,
}

/// A mark in the place of a bullet.
fn mark_at(mark: Token, bullet: &Lexeme) -> Lexeme
    ensures { result ≡ layout.mark_at mark bullet.now }
{
    Lexeme {
        token: mark,
        column: bullet.column,
        start: bullet.start,
        stop: bullet.stop,
    }
}

/// The mark behind a list.
pub fn list_close() -> Lexeme
    ensures { result ≡ layout.list_close }
{
    Lexeme {
        token: Token::ListClose,
        column: 0,
        start: 0,
        stop: 0,
    }
}

impl Marker {
    pub fn new(alloc: Global) -> Marker
        ensures { result ≡ spec.start }
    {
        Marker {
            out: Tokens::new(alloc),
            frames: Stack::new(alloc),
            after_operand: false,
        }
    }

    /// Ends the lists that a token in its column ends, and says whether it is the next bullet of the last one.
    fn settle(&mut self, lexeme: &Lexeme) -> Result<bool, TextStop>
        ensures ok { IfOk result (λ is_next. (self.new.out ≡ self.old.out ++ (spec.settle lexeme.now self.old.frames).marks)
            × (self.new.frames ≡ (spec.settle lexeme.now self.old.frames).frames)
            × (is_next ≡ (spec.settle lexeme.now self.old.frames).is_next)
            × (self.new.after_operand ≡ self.old.after_operand)) }
        ensures err { MatchResult result (λ b. Unit {0}) (λ e. e ≡ TextStop.NoMemory) }
    {
        while let Some(Frame::List(op, at)) = self.frames.top() {
            if at < lexeme.column {
                return Ok(false);
            }
            if at == lexeme.column && is_junction(op, kind_of(&lexeme.token)) {
                self.out.push(mark_at(Token::ListNext, lexeme))?;
                return Ok(true);
            }
            self.frames.pop();
            self.out.push(list_close())?;
        }
        Ok(false)
    }

    /// The least column of a token here.
    fn bound(&self) -> u128
        ensures { result ≡ spec.bound self.now.frames }
    {
        match self.frames.top() {
            None => 0,
            Some(Frame::Bracket(_, bound)) => bound,
            Some(Frame::List(_, at)) => at as u128 + 1,
        }
    }

    /// Ends the lists that the end of a bracket, or a `;`, ends.
    fn end_lists(&mut self) -> Result<(), TextStop>
        ensures ok { OnOk result ((self.new.out ≡ self.old.out ++ (spec.unlisted self.old.frames).marks)
            × (self.new.frames ≡ (spec.unlisted self.old.frames).frames)
            × (self.new.after_operand ≡ self.old.after_operand)) }
        ensures err { MatchResult result (λ b. Unit {0}) (λ e. e ≡ TextStop.NoMemory) }
    {
        while let Some(Frame::List(_, _)) = self.frames.top() {
            self.frames.pop();
            self.out.push(list_close())?;
        }
        Ok(())
    }

    /// Ends the innermost bracket. It stays open where another bracket ends.
    fn close(&mut self, bracket: Bracket, lexeme: Lexeme) -> Result<(), TextStop>
        ensures value { Gives (spec.close_by bracket lexeme self.old.out self.old.frames) (ok_as self.new result) }
        ensures refused { IfErr result (IsRefusal lexeme.start self.old self.new) }
    {
        match self.frames.pop() {
            Some(Frame::Bracket(other, _)) if is_same_bracket(bracket, other) => {
                self.out.push(lexeme)?;
                self.after_operand = true;
                Ok(())
            }
            Some(frame) => {
                self.frames.push(frame)?;
                Err(TextStop::at(lexeme.start))
            }
            None => Err(TextStop::at(lexeme.start)),
        }
    }

    fn place(&mut self, lexeme: Lexeme) -> Result<(), TextStop>
        ensures value { Gives (spec.placed (kinds.role_of self.old.after_operand (kinds.kind_of lexeme.token)) lexeme self.old.out self.old.frames) (ok_as self.new result) }
        ensures refused { IfErr result (IsRefusal lexeme.start self.old self.new) }
    {
        match role_of(self.after_operand, kind_of(&lexeme.token)) {
            Role::Open(bracket) => {
                let bound = self.bound();
                self.out.push(lexeme)?;
                self.frames.push(Frame::Bracket(bracket, bound))?;
                self.after_operand = false;
                Ok(())
            }
            Role::Close(bracket) => {
                self.end_lists()?;
                self.close(bracket, lexeme)
            }
            Role::Bullet(op) => {
                self.out.push(mark_at(Token::ListOpen(op), &lexeme))?;
                self.frames.push(Frame::List(op, lexeme.column))?;
                self.after_operand = false;
                Ok(())
            }
            Role::Separator => {
                self.end_lists()?;
                self.out.push(lexeme)?;
                self.after_operand = false;
                Ok(())
            }
            Role::Plain => {
                self.after_operand = ends_operand(&lexeme.token);
                self.out.push(lexeme)?;
                Ok(())
            }
        }
    }

    /// Takes the next token.
    #[tactic(auto, unfolding(crate::specs::Marking::step))]
    pub fn push(&mut self, lexeme: Lexeme) -> Result<(), TextStop>
        ensures value { Gives (spec.step self.old lexeme) (ok_as self.new result) }
        ensures refused { IfErr result (IsRefusal lexeme.start self.old self.new) }
    {
        if self.settle(&lexeme)? {
            self.after_operand = false;
            return Ok(());
        }
        if (lexeme.column as u128) < self.bound() {
            return Err(TextStop::at(lexeme.start));
        }
        self.place(lexeme)
    }

    /// The tokens with their marks, at the end of a text of so many bytes.
    #[tactic(auto, unfolding(crate::specs::Marking::finish))]
    pub fn finish(self, end: usize) -> Result<Tokens, TextStop>
        ensures value { Gives (spec.finish self) result }
        ensures at { IfErr result (IsAt end) }
    {
        let mut all = self;
        all.end_lists()?;
        if all.frames.len() == 0 {
            Ok(all.out)
        } else {
            Err(TextStop::at(end))
        }
    }
}

/// These tokens with the marks of their junction lists, for a text of so many bytes.
pub fn marked(alloc: Global, tokens: Tokens, end: usize) -> Result<Tokens, TextStop>
    ensures value { Gives (spec.marked tokens) result }
    ensures within { All (λ t. t.start ≤ end) tokens → IfErr result (IsWithin end) }
{
    let mut marker = Marker::new(alloc);
    for lexeme in tokens.into_vec() {
        marker.push(lexeme)?;
    }
    marker.finish(end)
}
