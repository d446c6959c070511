// The lines of an account's attempts.
ghost use Rattle.std.specs.Prelude.{◌≡◌, [], map, option_map};
ghost use Rattle.pgo_base.specs.View.{data_of};
ghost use Rattle.pgo_bundle.specs.View.{attempt_view};
ghost use Rattle.pgo_log_text.specs.AttemptView.{component_read, number_word_view};
ghost use Rattle.pgo_log_text.specs.Lines as spec;
ghost use Rattle.pgo_log_text.specs.Parsers.{ReadsAs};

use crate::cursor::Cursor;
use crate::entry::index;
use crate::errors::LineStop;
use crate::field::{last_number, number_field, this_field};
use pgo_base::text::Text;
use pgo_base::value::Value;
use pgo_bundle::log::{Attempt, Attempts};
use pgo_syntax::records::NoteKind;
use std::alloc::Global;

/// What a line says of an attempt by a number alone: an entry, a note or a full journal.
#[derive(Clone, Copy)]
pub enum NumberWord {
    Step,
    Note(NoteKind),
    Full,
}

/// What that word and the number say.
fn said_by(word: NumberWord, number: u32) -> Attempt
    ensures { attempt_view result ≡ spec.said_by (number_word_view word) number }
{
    match word {
        NumberWord::Step => Attempt::Step { n: number },
        NumberWord::Note(kind) => Attempt::Noted {
            kind,
            position: number,
        },
        NumberWord::Full => Attempt::Full { entries: number },
    }
}

#[tactic(auto, unfolding(crate::specs::Lines::number_word, crate::specs::Lines::word_of))]
fn number_word(cursor: &mut Cursor<'_>) -> Result<NumberWord, LineStop>
    ensures { ReadsAs number_word_view (spec.number_word cursor.old) result cursor.new }
{
    if cursor.begins(b"step ") {
        cursor.expect(b"step ")?;
        return Ok(NumberWord::Step);
    }
    if cursor.begins(b"note blocked ") {
        cursor.expect(b"note blocked ")?;
        return Ok(NumberWord::Note(NoteKind::Blocked));
    }
    if cursor.begins(b"note novalue ") {
        cursor.expect(b"note novalue ")?;
        return Ok(NumberWord::Note(NoteKind::NoValue));
    }
    if cursor.begins(b"note assert ") {
        cursor.expect(b"note assert ")?;
        return Ok(NumberWord::Note(NoteKind::AssertFails));
    }
    if cursor.begins(b"many 65536 ") {
        cursor.expect(b"many 65536 ")?;
        return Ok(NumberWord::Note(NoteKind::Many));
    }
    cursor.expect(b"full ")?;
    Ok(NumberWord::Full)
}

/// `step n`, `note blocked n`, `note novalue n`, `note assert n`, `many 65536 n` or `full n`.
#[tactic(auto, unfolding(crate::specs::Lines::number_form))]
fn number_form(cursor: &mut Cursor<'_>) -> Result<Attempt, LineStop>
    ensures { ReadsAs attempt_view (spec.number_form cursor.old) result cursor.new }
{
    let word = number_word(cursor)?;
    let number = last_number(cursor)?;
    Ok(said_by(word, number))
}

/// `x` or `x[index]` at the end of a line.
#[tactic(auto, unfolding(crate::specs::Lines::last_component))]
fn last_component(alloc: Global, cursor: &mut Cursor<'_>) -> Result<(Text, Option<Value>), LineStop>
    ensures { ReadsAs component_read (spec.last_component cursor.old) result cursor.new }
{
    let variable = cursor.name(alloc)?;
    let index = index(alloc, cursor)?;
    cursor.expect(b"\n")?;
    Ok((variable, index))
}

/// A component that is held.
#[tactic(auto, unfolding(crate::specs::Lines::held_component))]
fn held_component(alloc: Global, cursor: &mut Cursor<'_>, holder: u32) -> Result<Attempt, LineStop>
    ensures { ReadsAs attempt_view (spec.held_component holder cursor.old) result cursor.new }
{
    let (variable, index) = last_component(alloc, cursor)?;
    Ok(Attempt::Held {
        holder,
        variable,
        index,
    })
}

/// What is held: a component, or the journal.
#[tactic(auto, unfolding(crate::specs::Lines::held_at, crate::specs::Lines::word_of))]
fn held_at(alloc: Global, cursor: &mut Cursor<'_>, holder: u32) -> Result<Attempt, LineStop>
    ensures { ReadsAs attempt_view (spec.held_at holder cursor.old) result cursor.new }
{
    if cursor.begins(b"$log") {
        cursor.expect(b"$log\n")?;
        Ok(Attempt::HeldJournal { holder })
    } else {
        held_component(alloc, cursor, holder)
    }
}

/// `held h component`, or `held h $log`.
#[tactic(auto, unfolding(crate::specs::Lines::held_form))]
fn held_form(alloc: Global, cursor: &mut Cursor<'_>) -> Result<Attempt, LineStop>
    ensures { ReadsAs attempt_view (spec.held_form cursor.old) result cursor.new }
{
    cursor.expect(b"held ")?;
    let holder = number_field(cursor)?;
    held_at(alloc, cursor, holder)
}

/// `down o component`.
#[tactic(auto, unfolding(crate::specs::Lines::down_form))]
fn down_form(alloc: Global, cursor: &mut Cursor<'_>) -> Result<Attempt, LineStop>
    ensures { ReadsAs attempt_view (spec.down_form cursor.old) result cursor.new }
{
    cursor.expect(b"down ")?;
    let operation = number_field(cursor)?;
    let (variable, index) = last_component(alloc, cursor)?;
    Ok(Attempt::Down {
        operation,
        variable,
        index,
    })
}

/// What is said of an attempt.
#[tactic(auto, unfolding(crate::specs::Lines::attempt_form))]
fn attempt_form(alloc: Global, cursor: &mut Cursor<'_>) -> Result<Attempt, LineStop>
    ensures { ReadsAs attempt_view (spec.attempt_form cursor.old) result cursor.new }
{
    if cursor.begins(b"held ") {
        return held_form(alloc, cursor);
    }
    if cursor.begins(b"down ") {
        return down_form(alloc, cursor);
    }
    number_form(cursor)
}

/// The line of the attempt of this number.
#[tactic(auto, unfolding(crate::specs::Lines::attempt_line))]
fn attempt_line(alloc: Global, cursor: &mut Cursor<'_>, number: usize) -> Result<Attempt, LineStop>
    ensures { ReadsAs attempt_view (spec.attempt_line number cursor.old) result cursor.new }
{
    this_field(cursor, number)?;
    attempt_form(alloc, cursor)
}

/// The lines of so many attempts, numbered from 1.
pub fn attempts(alloc: Global, cursor: &mut Cursor<'_>, count: u32) -> Result<Attempts, LineStop>
    ensures { ReadsAs (λ xs. map attempt_view xs) (spec.attempts count 1 [] cursor.old) result cursor.new }
{
    let mut attempts = Attempts::new(alloc);
    for turn in 0..count {
        attempts.push(attempt_line(alloc, cursor, turn as usize + 1)?)?;
    }
    Ok(attempts)
}
